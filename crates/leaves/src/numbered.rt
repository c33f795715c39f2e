//! A meter in which every value has a number of its own, and the test of it: with these two a C program
//! finds out that it and the library read and write each value of a meter at the same place. The numbers
//! are 1, 2, 3 and so on in the order of declaration, 128 as a signed byte being -128; the bools are yes and
//! no in turn.
//! The arrays of six, sixteen and 73 whole numbers are compared entry by entry: `==` was tried, and its proof did not
//! close. Field by field go `Description`, `Parts`, `Powers`, `Tally`, `Settings` and `PhaseCal`, and what `Job` and
//! `Corrections` have besides those arrays: they hold floats and derive no equality, which nothing but this test would use.
ghost use Rattle.std.specs.Prelude.{◌≡◌};
ghost use Rattle.leaves.specs.Numbered.{numbered_meter, is_description, is_calibration, is_mode, is_ranges, is_cycle, is_parts, is_powers, is_tally, is_clock, is_over_t0, is_settings, is_phase_cal, is_corrections, is_job_steps, is_job_save, is_job_rest, is_comparator, is_ring_marks, is_ring_codes, is_ring_times, is_front, is_back, is_numbered};

use figures::acc::Acc;
use figures::tally::Tally;
use state::{
    Clock, Comparator, Corrections, Cycle, Job, Mode, Parts, PhaseCal, Powers, Pw, Ranges, Ring,
    Settings, Stamp,
};
use tables::calibration::Calibration;
use tables::description::Description;

const DESCRIPTION: Description = Description {
    mv_div: [1.0, 2.0],
    shunt: [3.0, 4.0, 5.0],
    over: 6.0,
    a_auto: true,
};

const CALIBRATION: Calibration = Calibration {
    words: [
        8, 9, 10, 11, 12, 13, 14, 15, 16, 17, 18, 19, 20, 21, 22, 23, 24, 25, 26, 27, 28, 29, 30,
        31, 32, 33, 34, 35, 36, 37, 38, 39, 40, 41, 42, 43, 44, 45, 46, 47, 48, 49, 50, 51, 52, 53,
        54, 55, 56, 57, 58, 59, 60, 61, 62, 63, 64, 65, 66, 67, 68, 69, 70, 71, 72, 73, 74, 75, 76,
        77, 78, 79, 80,
    ],
    valid: false,
};

const MODE: Mode = Mode {
    on: true,
    alt: false,
    coup: 84,
    dc: true,
    cal_req: false,
};

const RANGES: Ranges = Ranges {
    vr: 87,
    ik: 88,
    v_auto: true,
    i_auto: false,
};

const CYCLE: Cycle = Cycle {
    phase: 92,
    skip: 93,
    skip_y: 94,
    taken: 95,
    stat: 96,
    seen: 97,
};

const PARTS: Parts = Parts {
    p_ac: 98.0,
    v_ac: 99.0,
    v_dc: 100.0,
    i_ac: 101.0,
    i_dc: 102.0,
    vac_dc: 103.0,
};

const POWERS: Powers = Powers {
    p_tot: 104.0,
    s_last: 105.0,
};

const TALLY: Tally = Tally {
    e: Acc {
        mj: 106,
        frac: 107.0,
    },
    va: Acc {
        mj: 108,
        frac: 109.0,
    },
    t_int: 110,
};

// The stamps are written out: a constant's value calls no function, so not `Stamp::at_time`.
const CLOCK: Clock = Clock {
    run: true,
    t_last: Stamp {
        set: false,
        at: 113,
    },
    t_poll: 114,
};

const OVER_T0: Stamp = Stamp { set: true, at: 116 };

const SETTINGS: Settings = Settings {
    comp: false,
    r_path: [118.0, 119.0, 120.0],
    i_cont: 121.0,
    t_lim: 122,
    main: 123,
};

const PHASE_CAL: PhaseCal = PhaseCal {
    sph: 124,
    cal: 125,
    cal_n: 126,
    cal_acc: 127.0,
    cal_s0: -128,
    cal_pa: 129.0,
    cal_res: 130,
};

const CORRECTIONS: Corrections = Corrections {
    zx: [131, 132, 133, 134, 135, 136],
    zd: [137, 138, 139, 140, 141, 142],
    zy: 143,
    zero_ok: true,
    vgain: [145.0, 146.0, 147.0, 148.0],
};

const JOB: Job = Job {
    job: 149,
    job_step: 150,
    job_n: 151,
    job_a: 152.0,
    job_b: 153.0,
    job_dc: false,
    job_raw: [155.0, 156.0],
    job_ref: [157.0, 158.0],
    job_zx: [159, 160, 161, 162, 163, 164],
    job_zd: [165, 166, 167, 168, 169, 170],
    job_save: Ranges {
        vr: 171,
        ik: 172,
        v_auto: true,
        i_auto: false,
    },
    job_res: 175,
    job_vr: 176,
    job_last: 177,
    used: 178,
};

const COMPARATOR: Comparator = Comparator {
    r20: 179,
    r21: 180,
    f_ok: true,
    cmp_vr: 182,
};

const RING: Ring = Ring {
    stat: [
        183, 184, 185, 186, 187, 188, 189, 190, 191, 192, 193, 194, 195, 196, 197, 198,
    ],
    disc: [
        false, true, false, true, false, true, false, true, false, true, false, true, false, true,
        false, true,
    ],
    rms: [
        215, 216, 217, 218, 219, 220, 221, 222, 223, 224, 225, 226, 227, 228, 229, 230,
    ],
    lpf: [
        231, 232, 233, 234, 235, 236, 237, 238, 239, 240, 241, 242, 243, 244, 245, 246,
    ],
    dt: [
        247, 248, 249, 250, 251, 252, 253, 254, 255, 256, 257, 258, 259, 260, 261, 262,
    ],
    ring_k: 263,
    t_res: 264,
};

const NUMBERED: Pw = Pw {
    description: DESCRIPTION,
    calibration: CALIBRATION,
    mode: MODE,
    ranges: RANGES,
    barred: 91,
    cycle: CYCLE,
    parts: PARTS,
    powers: POWERS,
    tally: TALLY,
    clock: CLOCK,
    over_t0: OVER_T0,
    settings: SETTINGS,
    phase_cal: PHASE_CAL,
    corrections: CORRECTIONS,
    job: JOB,
    comparator: COMPARATOR,
    ring: RING,
};

#[unsafe(no_mangle)]
#[tactic(auto, unfolding(crate::specs::Numbered::numbered_meter))]
pub extern "C" fn leaf_numbered_meter() -> Pw
    ensures { result ≡ numbered_meter }
{
    NUMBERED
}

fn is_description(x: Description) -> bool
    ensures { result ≡ is_description x }
{
    (x.mv_div == DESCRIPTION.mv_div) & (x.shunt == DESCRIPTION.shunt) & (x.over == 6.0) & x.a_auto
}

fn is_calibration(x: Calibration) -> bool
    ensures { result ≡ is_calibration x }
{
    let all_words = (x.words[0] == 8) & (x.words[1] == 9) & (x.words[2] == 10);
    let all_words = all_words & (x.words[3] == 11) & (x.words[4] == 12) & (x.words[5] == 13);
    let all_words = all_words & (x.words[6] == 14) & (x.words[7] == 15) & (x.words[8] == 16);
    let all_words = all_words & (x.words[9] == 17) & (x.words[10] == 18) & (x.words[11] == 19);
    let all_words = all_words & (x.words[12] == 20) & (x.words[13] == 21) & (x.words[14] == 22);
    let all_words = all_words & (x.words[15] == 23) & (x.words[16] == 24) & (x.words[17] == 25);
    let all_words = all_words & (x.words[18] == 26) & (x.words[19] == 27) & (x.words[20] == 28);
    let all_words = all_words & (x.words[21] == 29) & (x.words[22] == 30) & (x.words[23] == 31);
    let all_words = all_words & (x.words[24] == 32) & (x.words[25] == 33) & (x.words[26] == 34);
    let all_words = all_words & (x.words[27] == 35) & (x.words[28] == 36) & (x.words[29] == 37);
    let all_words = all_words & (x.words[30] == 38) & (x.words[31] == 39) & (x.words[32] == 40);
    let all_words = all_words & (x.words[33] == 41) & (x.words[34] == 42) & (x.words[35] == 43);
    let all_words = all_words & (x.words[36] == 44) & (x.words[37] == 45) & (x.words[38] == 46);
    let all_words = all_words & (x.words[39] == 47) & (x.words[40] == 48) & (x.words[41] == 49);
    let all_words = all_words & (x.words[42] == 50) & (x.words[43] == 51) & (x.words[44] == 52);
    let all_words = all_words & (x.words[45] == 53) & (x.words[46] == 54) & (x.words[47] == 55);
    let all_words = all_words & (x.words[48] == 56) & (x.words[49] == 57) & (x.words[50] == 58);
    let all_words = all_words & (x.words[51] == 59) & (x.words[52] == 60) & (x.words[53] == 61);
    let all_words = all_words & (x.words[54] == 62) & (x.words[55] == 63) & (x.words[56] == 64);
    let all_words = all_words & (x.words[57] == 65) & (x.words[58] == 66) & (x.words[59] == 67);
    let all_words = all_words & (x.words[60] == 68) & (x.words[61] == 69) & (x.words[62] == 70);
    let all_words = all_words & (x.words[63] == 71) & (x.words[64] == 72) & (x.words[65] == 73);
    let all_words = all_words & (x.words[66] == 74) & (x.words[67] == 75) & (x.words[68] == 76);
    let all_words = all_words & (x.words[69] == 77) & (x.words[70] == 78) & (x.words[71] == 79);
    let all_words = all_words & (x.words[72] == 80);
    all_words & !x.valid
}

fn is_mode(x: Mode) -> bool
    ensures { result ≡ is_mode x }
{
    x == MODE
}

fn is_ranges(x: Ranges) -> bool
    ensures { result ≡ is_ranges x }
{
    x == RANGES
}

fn is_cycle(x: Cycle) -> bool
    ensures { result ≡ is_cycle x }
{
    x == CYCLE
}

fn is_parts(x: Parts) -> bool
    ensures { result ≡ is_parts x }
{
    let r = (x.p_ac == 98.0) & (x.v_ac == 99.0) & (x.v_dc == 100.0) & (x.i_ac == 101.0);
    r & (x.i_dc == 102.0) & (x.vac_dc == 103.0)
}

fn is_powers(x: Powers) -> bool
    ensures { result ≡ is_powers x }
{
    (x.p_tot == 104.0) & (x.s_last == 105.0)
}

fn is_tally(x: Tally) -> bool
    ensures { result ≡ is_tally x }
{
    let r = (x.e.mj == 106) & (x.e.frac == 107.0) & (x.va.mj == 108);
    r & (x.va.frac == 109.0) & (x.t_int == 110)
}

// The equality of a stamp, here and in `is_over_t0`, also compares `at` where `set` is no: what a C host left there counts.
fn is_clock(x: Clock) -> bool
    ensures { result ≡ is_clock x }
{
    x == CLOCK
}

fn is_over_t0(x: Stamp) -> bool
    ensures { result ≡ is_over_t0 x }
{
    x == OVER_T0
}

fn is_settings(x: Settings) -> bool
    ensures { result ≡ is_settings x }
{
    let r = !x.comp & (x.r_path == SETTINGS.r_path);
    r & (x.i_cont == 121.0) & (x.t_lim == 122) & (x.main == 123)
}

fn is_phase_cal(x: PhaseCal) -> bool
    ensures { result ≡ is_phase_cal x }
{
    let r = (x.sph == 124) & (x.cal == 125) & (x.cal_n == 126) & (x.cal_acc == 127.0);
    r & (x.cal_s0 == -128) & (x.cal_pa == 129.0) & (x.cal_res == 130)
}

fn is_corrections(x: Corrections) -> bool
    ensures { result ≡ is_corrections x }
{
    let all_zx = (x.zx[0] == 131) & (x.zx[1] == 132) & (x.zx[2] == 133) & (x.zx[3] == 134);
    let all_zx = all_zx & (x.zx[4] == 135) & (x.zx[5] == 136);
    let all_zd = (x.zd[0] == 137) & (x.zd[1] == 138) & (x.zd[2] == 139) & (x.zd[3] == 140);
    let all_zd = all_zd & (x.zd[4] == 141) & (x.zd[5] == 142);
    all_zx & all_zd & (x.zy == 143) & x.zero_ok & (x.vgain == CORRECTIONS.vgain)
}

fn is_job_steps(x: Job) -> bool
    ensures { result ≡ is_job_steps x }
{
    let r = (x.job == 149) & (x.job_step == 150) & (x.job_n == 151) & (x.job_a == 152.0);
    let r = r & (x.job_b == 153.0) & !x.job_dc;
    r & (x.job_raw == JOB.job_raw) & (x.job_ref == JOB.job_ref)
}

fn is_job_save(x: Ranges) -> bool
    ensures { result ≡ is_job_save x }
{
    x == JOB.job_save
}

fn is_job_rest(x: Job) -> bool
    ensures { result ≡ is_job_rest x }
{
    let all_job_zx = (x.job_zx[0] == 159) & (x.job_zx[1] == 160);
    let all_job_zx = all_job_zx & (x.job_zx[2] == 161) & (x.job_zx[3] == 162);
    let all_job_zx = all_job_zx & (x.job_zx[4] == 163) & (x.job_zx[5] == 164);
    let all_job_zd = (x.job_zd[0] == 165) & (x.job_zd[1] == 166);
    let all_job_zd = all_job_zd & (x.job_zd[2] == 167) & (x.job_zd[3] == 168);
    let all_job_zd = all_job_zd & (x.job_zd[4] == 169) & (x.job_zd[5] == 170);
    let r = all_job_zx & all_job_zd & is_job_save(x.job_save);
    r & (x.job_res == 175) & (x.job_vr == 176) & (x.job_last == 177) & (x.used == 178)
}

fn is_comparator(x: Comparator) -> bool
    ensures { result ≡ is_comparator x }
{
    x == COMPARATOR
}

fn is_ring_marks(x: Ring) -> bool
    ensures { result ≡ is_ring_marks x }
{
    let all_stat = (x.stat[0] == 183) & (x.stat[1] == 184) & (x.stat[2] == 185);
    let all_stat = all_stat & (x.stat[3] == 186) & (x.stat[4] == 187) & (x.stat[5] == 188);
    let all_stat = all_stat & (x.stat[6] == 189) & (x.stat[7] == 190) & (x.stat[8] == 191);
    let all_stat = all_stat & (x.stat[9] == 192) & (x.stat[10] == 193) & (x.stat[11] == 194);
    let all_stat = all_stat & (x.stat[12] == 195) & (x.stat[13] == 196) & (x.stat[14] == 197);
    let all_stat = all_stat & (x.stat[15] == 198);
    let all_disc = !x.disc[0] & x.disc[1] & !x.disc[2] & x.disc[3] & !x.disc[4] & x.disc[5];
    let all_disc = all_disc
        & !x.disc[6]
        & x.disc[7]
        & !x.disc[8]
        & x.disc[9]
        & !x.disc[10]
        & x.disc[11];
    let all_disc = all_disc & !x.disc[12] & x.disc[13] & !x.disc[14] & x.disc[15];
    all_stat & all_disc
}

fn is_ring_codes(x: Ring) -> bool
    ensures { result ≡ is_ring_codes x }
{
    let all_rms = (x.rms[0] == 215) & (x.rms[1] == 216) & (x.rms[2] == 217);
    let all_rms = all_rms & (x.rms[3] == 218) & (x.rms[4] == 219) & (x.rms[5] == 220);
    let all_rms = all_rms & (x.rms[6] == 221) & (x.rms[7] == 222) & (x.rms[8] == 223);
    let all_rms = all_rms & (x.rms[9] == 224) & (x.rms[10] == 225) & (x.rms[11] == 226);
    let all_rms = all_rms & (x.rms[12] == 227) & (x.rms[13] == 228) & (x.rms[14] == 229);
    let all_rms = all_rms & (x.rms[15] == 230);
    let all_lpf = (x.lpf[0] == 231) & (x.lpf[1] == 232) & (x.lpf[2] == 233);
    let all_lpf = all_lpf & (x.lpf[3] == 234) & (x.lpf[4] == 235) & (x.lpf[5] == 236);
    let all_lpf = all_lpf & (x.lpf[6] == 237) & (x.lpf[7] == 238) & (x.lpf[8] == 239);
    let all_lpf = all_lpf & (x.lpf[9] == 240) & (x.lpf[10] == 241) & (x.lpf[11] == 242);
    let all_lpf = all_lpf & (x.lpf[12] == 243) & (x.lpf[13] == 244) & (x.lpf[14] == 245);
    let all_lpf = all_lpf & (x.lpf[15] == 246);
    all_rms & all_lpf
}

fn is_ring_times(x: Ring) -> bool
    ensures { result ≡ is_ring_times x }
{
    let all_dt = (x.dt[0] == 247) & (x.dt[1] == 248) & (x.dt[2] == 249) & (x.dt[3] == 250);
    let all_dt = all_dt & (x.dt[4] == 251) & (x.dt[5] == 252) & (x.dt[6] == 253) & (x.dt[7] == 254);
    let all_dt = all_dt & (x.dt[8] == 255) & (x.dt[9] == 256) & (x.dt[10] == 257);
    let all_dt = all_dt & (x.dt[11] == 258) & (x.dt[12] == 259) & (x.dt[13] == 260);
    let all_dt = all_dt & (x.dt[14] == 261) & (x.dt[15] == 262);
    all_dt & (x.ring_k == 263) & (x.t_res == 264)
}

// Values 1 to 114.
#[tactic(auto, unfolding(crate::specs::Numbered::is_front))]
fn is_front(pw: Pw) -> bool
    ensures { result ≡ is_front pw }
{
    let description = is_description(pw.description);
    let calibration = is_calibration(pw.calibration);
    let mode = is_mode(pw.mode);
    let ranges = is_ranges(pw.ranges);
    let cycle = is_cycle(pw.cycle);
    let parts = is_parts(pw.parts);
    let powers = is_powers(pw.powers);
    let tally = is_tally(pw.tally);
    let clock = is_clock(pw.clock);
    description
        & calibration
        & mode
        & ranges
        & (pw.barred == 91)
        & cycle
        & parts
        & powers
        & tally
        & clock
}

// Values 115 to 264.
#[tactic(auto, unfolding(crate::specs::Numbered::is_back))]
fn is_back(pw: Pw) -> bool
    ensures { result ≡ is_back pw }
{
    let over_t0 = is_over_t0(pw.over_t0);
    let settings = is_settings(pw.settings);
    let phase_cal = is_phase_cal(pw.phase_cal);
    let corrections = is_corrections(pw.corrections);
    let job_steps = is_job_steps(pw.job);
    let job_rest = is_job_rest(pw.job);
    let comparator = is_comparator(pw.comparator);
    let ring_marks = is_ring_marks(pw.ring);
    let ring_codes = is_ring_codes(pw.ring);
    let ring_times = is_ring_times(pw.ring);
    over_t0
        & settings
        & phase_cal
        & corrections
        & job_steps
        & job_rest
        & comparator
        & ring_marks
        & ring_codes
        & ring_times
}

#[unsafe(no_mangle)]
#[tactic(auto, unfolding(crate::specs::Numbered::is_numbered))]
pub extern "C" fn leaf_is_numbered(pw: Pw) -> bool
    ensures { result ≡ is_numbered pw }
{
    let front = is_front(pw);
    let back = is_back(pw);
    front & back
}
