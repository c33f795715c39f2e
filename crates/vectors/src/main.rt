//! Runs rows of document 01 and other figures from outside through the functions, and compares. It
//! writes the number of each row that differs, and at the end how many agreed and how many differed.
#![tactic(auto)]

use codes::Codes;
use figures::acc::Acc;
use figures::tally::Tally;
use formats::format::Format;
use orders::answer::Step;
use orders::switches::on;
use paths::measuring::Setup;
use state::Pw;
use std::io;
use steps::place::Place;
use tables::description::Description;
use tables::ranges::{IuIr, iu_ir};
use tables::window::cmp_window;
use takes::take::Measured;

// A row: its number, and whether what the functions give agrees.
type Row = (u64, bool);

// How many rows agreed and how many differed.
#[derive(Clone, Copy, Default)]
struct Score {
    agree: u64,
    differ: u64,
}

impl Score {
    // Counts the rows; the number of each that differs is written.
    fn count(&mut self, rt: &impl Print, rows: &[Row]) {
        for &(number, agrees) in rows {
            if agrees {
                self.agree = self.agree.saturating_add(1);
            } else {
                self.differ = self.differ.saturating_add(1);
                let _ = println!(rt; "differs: row {number}");
            }
        }
    }
}

// Whether x has this bit pattern; a NaN has none.
fn has_bits(x: f32, bits: u32) -> bool {
    !x.is_nan() && x.to_bits() == bits
}

// Whether a frame decodes to these three codes. Here and in `is_signal` they are three numbers, since a `Codes` with
// its names would take five lines in each of the fourteen rows.
fn decodes(frame: &[u8], ad1: i32, lpf: i32, rms: i64) -> bool {
    codes::decode(frame).is_ok_and(|codes| codes == Codes { ad1, lpf, rms })
}

// Whether a frame of this length is taken.
fn taken(frame: &[u8]) -> bool {
    codes::decode(frame).is_ok()
}

// Rows 1 to 4: document 01, "Frames and figures on each side": LPF and AD1.
fn code_rows() -> [Row; 4] {
    [
        (
            1,
            decodes(
                b"\x01\0\0\xff\xff\xff\xff\xff\x03\x02\0\0\0\0",
                1,
                262143,
                2,
            ),
        ),
        (
            2,
            decodes(b"\x01\0\0\xff\xff\xff\0\0\x04\x02\0\0\0\0", 1, -262144, 2),
        ),
        (
            3,
            decodes(b"\x01\0\0\xff\xff\xff\0\0\xf8\x02\0\0\0\0", 1, 0, 2),
        ),
        (
            4,
            decodes(b"\0\0\x80\xff\xff\xff\x03\0\0\x02\0\0\0\0", -8388608, 3, 2),
        ),
    ]
}

// Rows 5 and 6: RMS.
fn rms_rows() -> [Row; 2] {
    [
        (
            5,
            decodes(
                b"\x01\0\0\xff\xff\xff\x03\0\0\xff\xff\xff\xff\x1f",
                1,
                3,
                137438953471,
            ),
        ),
        (
            6,
            decodes(
                b"\x01\0\0\xff\xff\xff\x03\0\0\0\0\0\0\x20",
                1,
                3,
                -137438953472,
            ),
        ),
    ]
}

// Rows 11 to 14: document 01, "frame not 14 bytes" is refused.
fn length_rows() -> [Row; 4] {
    [
        (11, !taken(b"")),
        (12, !taken(b"\0\0\0\0\0\0\0\0\0\0\0\0\0")),
        (13, taken(b"\0\0\0\0\0\0\0\0\0\0\0\0\0\0")),
        (14, !taken(b"\0\0\0\0\0\0\0\0\0\0\0\0\0\0\0")),
    ]
}

// Rows 21 to 28: the root of dmm.rs. Of 3 it is not IEEE 754's 3FDDB3D7; of infinity it is a NaN.
fn root_rows() -> [Row; 8] {
    let of_infinity = numbers::sqrt(f32::INFINITY);
    [
        (21, has_bits(numbers::sqrt(3.0), 0x3fdd_b3d8)),
        (22, has_bits(numbers::sqrt(6.0), 0x401c_c470)),
        (23, has_bits(numbers::sqrt(18.0), 0x4087_c3b6)),
        (24, has_bits(numbers::sqrt(160000.0), 0x43c8_0000)),
        (25, has_bits(numbers::sqrt(68719476736.0), 0x4880_0000)),
        (26, has_bits(numbers::sqrt(-1.0), 0)),
        (27, has_bits(numbers::sqrt(-0.0), 0)),
        (28, of_infinity.is_nan()),
    ]
}

// Rows 31 to 34: document 01, `max` of a NaN and a number, and of two zeros of unlike sign.
fn max_rows() -> [Row; 4] {
    let nan = f32::NAN;
    [
        (31, has_bits(numbers::max(nan, -2.0), 0xc000_0000)),
        (32, has_bits(numbers::max(-2.0, nan), 0xc000_0000)),
        (33, has_bits(numbers::max(0.0, -0.0), 0)),
        (34, has_bits(numbers::max(-0.0, 0.0), 0)),
    ]
}

// Whether a description with this over ratio, and 1.0 for the other five numbers, is refused.
fn refused(over: f32) -> bool {
    let description = Description {
        over,
        ..Description::PLAIN
    };
    tables::description::check_description(description).is_err()
}

// Rows 41 to 48: document 01, `iu_ir` and the three windows; a middle or a swing that is a NaN.
fn window_rows() -> [Row; 8] {
    let nan = f32::NAN;
    [
        (41, iu_ir(0) == IuIr { iu: 2, ir: 0 }),
        (42, iu_ir(5) == IuIr { iu: 0, ir: 1 }),
        (43, iu_ir(200) == IuIr { iu: 0, ir: 1 }),
        (44, cmp_window(0.0, 0.05) == Some(0xdd)),
        (45, cmp_window(0.0, 0.02).is_none()),
        (46, cmp_window(1.0, 1.0) == Some(0x06)),
        (47, cmp_window(nan, 1.0).is_none()),
        (48, cmp_window(0.0, nan).is_none()),
    ]
}

// Rows 51 to 55: document 01, "outside 2^-20 to 2^20, ends allowed": the ends, their neighbours
// outside, a NaN.
#[tactic(auto, using(std::proofs::lemmas::Float::not_nan_f32_bits))]
fn description_rows() -> [Row; 5] {
    [
        (51, !refused(f32::from_bits(0x3580_0000))),
        (52, refused(f32::from_bits(0x357f_ffff))),
        (53, !refused(f32::from_bits(0x4980_0000))),
        (54, refused(f32::from_bits(0x4980_0001))),
        (55, refused(f32::NAN)),
    ]
}

// Whether the step that joins millijoules to a leaves this count and a fraction of these bits.
fn sum_is(a: Acc, millijoules: f32, mj: i64, bits: u32) -> bool {
    figures::acc::step(a, millijoules).is_ok_and(|sum| sum.acc.mj == mj
        && has_bits(sum.acc.frac, bits))
}

// Whether the step that joins millijoules to a is full.
fn full(a: Acc, millijoules: f32) -> bool {
    figures::acc::step(a, millijoules).is_err()
}

// Whether dt ms more are counted after this time.
fn counted(t_int: u64, dt: u64) -> bool {
    let tally = Tally {
        t_int,
        ..Tally::ZERO
    };
    figures::tally::accounting_step(tally, dt, 0.0, 0.0, true).is_ok()
}

// Row 61: document 01, a fresh accumulator and twice 1/1024 J. Rows 62 to 67: the sums of refusal 6,
// "not finite or outside -2^63 <= sum < 2^63".
fn acc_rows() -> [Row; 7] {
    let mut twice = Acc::ZERO;
    let added = twice.add(0.0009765625).is_ok() && twice.add(0.0009765625).is_ok();
    [
        (61, added && sum_is(twice, 0.0, 1, 0x3f74_0000)),
        (62, sum_is(Acc::ZERO, -9223372036854775808.0, i64::MIN, 0)),
        (63, full(Acc::ZERO, -9223373136366403584.0)),
        (64, full(Acc::ZERO, 9223372036854775808.0)),
        (
            65,
            sum_is(Acc::ZERO, 9223371487098961920.0, 9223371487098961920, 0),
        ),
        (66, full(Acc::ZERO, f32::INFINITY)),
        (67, full(Acc::ZERO, f32::NAN)),
    ]
}

// Rows 71 to 74: refusal 6 of a count outside signed 64 bits, at both ends. Rows 75 and 76: of the time.
fn count_rows() -> [Row; 6] {
    let top = Acc {
        mj: i64::MAX,
        ..Acc::ZERO
    };
    let bottom = Acc {
        mj: i64::MIN,
        ..Acc::ZERO
    };
    [
        (71, full(top, 1.0)),
        (72, sum_is(top, 0.5, i64::MAX, 0x3f00_0000)),
        (73, full(bottom, -1.0)),
        (74, sum_is(bottom, -0.5, i64::MIN, 0xbf00_0000)),
        (75, counted(9223372036854775806, 1)),
        (76, !counted(9223372036854775806, 2)),
    ]
}

// Rows 81 to 86: 3 V and 4 A of direct current in front of half an ohm. By Ohm's law 1 V is left at the
// load, so 4 W and 4 VA, of which none is reactive.
fn totals_rows() -> [Row; 6] {
    let f = figures::load::totals(0.0, 0.0, 3.0, 0.0, 4.0, 0.5);
    [
        (81, has_bits(f.p, 0x4080_0000)),
        (82, has_bits(f.s, 0x4080_0000)),
        (83, has_bits(f.q, 0)),
        (84, has_bits(f.pf, 0x3f80_0000)),
        (85, has_bits(f.v, 0x3f80_0000)),
        (86, has_bits(f.i, 0x4080_0000)),
    ]
}

// Whether a meter just made takes this RMS code with this R34: the register's number for XY, XX or YY.
fn takes_rms(stat: u8, rms: i64) -> bool {
    let pw = meter::making::plain_meter();
    let setup = Setup::from(pw);
    let before = Measured {
        parts: pw.parts,
        seen: 0,
        phase_cal: pw.phase_cal,
    };
    let codes = Codes {
        ad1: 0,
        lpf: 0,
        rms,
    };
    setup.with.take(pw.ranges, stat, codes, before).is_some()
}

// Rows 91 to 94: document 01, XY RMS 2^36 is taken and 2^36 + 1 turned down, and so below zero. Rows 95
// to 98: where the root, as decided, of XX and YY exceeds 262,144. R34 of XY is 88h, of XX 80h, of YY 8Ch.
fn limit_rows() -> [Row; 8] {
    [
        (91, takes_rms(0x88, 68719476736)),
        (92, !takes_rms(0x88, 68719476737)),
        (93, takes_rms(0x88, -68719476736)),
        (94, !takes_rms(0x88, -68719476737)),
        (95, takes_rms(0x80, 68719489023)),
        (96, !takes_rms(0x80, 68719489024)),
        (97, takes_rms(0x8C, 68719489023)),
        (98, !takes_rms(0x8C, 68719489024)),
    ]
}

// Whether a format has this number by its bits, these decimals, and the unit of this number.
fn is_format(f: Format, bits: u32, decimals: u8, unit: u8) -> bool {
    f.decimals == decimals && u8::from(f.unit) == unit && has_bits(f.number, bits)
}

// Rows 99 and 100: document 01, `energy_format` 0.5 Wh and 0.5 VAh. Row 101: 100,000 VAh, where 1e-3 is
// not exact. Row 102: 1000 Wh is 1 kWh. In units 11 is mWh, 12 kWh, 13 VAh and 14 kVAh.
fn format_rows() -> [Row; 4] {
    let half = formats::format::energy_format(0.5, false);
    let apparent = formats::format::energy_format(0.5, true);
    let large = formats::format::energy_format(100_000.0, true);
    let kilo = formats::format::energy_format(1000.0, false);
    [
        (99, is_format(half, 0x43FA_0000, 2, 11)),
        (100, is_format(apparent, 0x3F00_0000, 4, 13)),
        (101, is_format(large, 0x42C8_0001, 2, 14)),
        (102, is_format(kilo, 0x3F80_0000, 4, 12)),
    ]
}

// Whether the power has these decimals and the unit of this number in a pair of ranges.
fn shows_power(vr: u8, ik: u8, decimals: u8, unit: u8) -> bool {
    let fs = tables::lookups::v_lim(vr) * tables::lookups::i_lim(ik);
    let f = formats::format::p_format(fs, 1.0, true);
    f.decimals == decimals && u8::from(f.unit) == unit
}

// Rows 103 to 114: the published `p_format` of 6 V and 60 V with each current range. In units 4 is W and 5
// is mW.
fn low_power_rows() -> [Row; 12] {
    [
        (103, shows_power(0, 0, 4, 5)),
        (104, shows_power(0, 1, 3, 5)),
        (105, shows_power(0, 2, 2, 5)),
        (106, shows_power(0, 3, 4, 4)),
        (107, shows_power(0, 4, 3, 4)),
        (108, shows_power(0, 5, 3, 4)),
        (109, shows_power(1, 0, 3, 5)),
        (110, shows_power(1, 1, 2, 5)),
        (111, shows_power(1, 2, 4, 4)),
        (112, shows_power(1, 3, 3, 4)),
        (113, shows_power(1, 4, 2, 4)),
        (114, shows_power(1, 5, 2, 4)),
    ]
}

// Rows 115 to 126: the published `p_format` of 600 V and 1000 V with each current range. In units 4 is W, 5 mW
// and 6 kW.
fn high_power_rows() -> [Row; 12] {
    [
        (115, shows_power(2, 0, 2, 5)),
        (116, shows_power(2, 1, 4, 4)),
        (117, shows_power(2, 2, 3, 4)),
        (118, shows_power(2, 3, 2, 4)),
        (119, shows_power(2, 4, 1, 4)),
        (120, shows_power(2, 5, 1, 4)),
        (121, shows_power(3, 0, 2, 5)),
        (122, shows_power(3, 1, 4, 4)),
        (123, shows_power(3, 2, 3, 4)),
        (124, shows_power(3, 3, 2, 4)),
        (125, shows_power(3, 4, 1, 4)),
        (126, shows_power(3, 5, 3, 6)),
    ]
}

// Whether the null at `s` steps has this result and these steps, 0 where it has none. The result goes by its
// number, as `cal_res` holds it: 2 is CAL_OK, 3 CAL_FLAT and 5 CAL_RANGE.
fn has_outcome(s: f32, number: u8, steps: i8) -> bool {
    let outcome = phase::cal_outcome(s);
    phase::cal_number(outcome) == number && outcome.unwrap_or(0) == steps
}

// Rows 127 to 129: document 01, `cal_outcome` 127.49, 127.5 and infinite. Rows 130 to 134: the same below
// zero, of a NaN, and halves, by the published text.
fn outcome_rows() -> [Row; 8] {
    [
        (127, has_outcome(127.49, 2, 127)),
        (128, has_outcome(127.5, 5, 0)),
        (129, has_outcome(f32::INFINITY, 3, 0)),
        (130, has_outcome(-127.49, 2, -127)),
        (131, has_outcome(-127.5, 5, 0)),
        (132, has_outcome(f32::NAN, 3, 0)),
        (133, has_outcome(0.5, 2, 1)),
        (134, has_outcome(-0.5, 2, -1)),
    ]
}

// Row 135: document 01, zero readings -2, -2, -1. Rows 136 and 137: a mean held to 16 bits. Row 138: a half
// goes away from zero.
fn mean_rows() -> [Row; 4] {
    let mean = (0.0 - 2.0 - 2.0 - 1.0) / 3.0;
    [
        (135, steps::verdict::zero_mean(mean) == -2),
        (136, steps::verdict::zero_mean(40000.0) == 32767),
        (137, steps::verdict::zero_mean(-40000.0) == -32768),
        (138, steps::verdict::zero_mean(0.5) == 1),
    ]
}

// Whether these codes are a signal at step 0 (`lpf` and `rms`) or at step 6 (`ad1`), with no zero stored.
fn is_signal(ad1: i32, lpf: i32, rms: i64) -> bool {
    let codes = Codes { ad1, lpf, rms };
    steps::reading::is_signal(Place::ZeroX, 0, codes)
        || steps::reading::is_signal(Place::ZeroD, 0, codes)
}

// Rows 139 to 146: document 01, "root above 400, or further from the old zero .. than 4000 (20,000 for
// AD1)"; 160,001 is the first RMS code whose root, as decided, is above 400.
fn signal_rows() -> [Row; 8] {
    [
        (139, !is_signal(0, 0, 160000)),
        (140, is_signal(0, 0, 160001)),
        (141, !is_signal(0, 4000, 0)),
        (142, is_signal(0, 4001, 0)),
        (143, is_signal(0, -4001, 0)),
        (144, !is_signal(20000, 0, 0)),
        (145, is_signal(20001, 0, 0)),
        (146, is_signal(-20001, 0, 0)),
    ]
}

// The number that a call answers, here and in `frame_says`: the rows of document 01 name a refusal by its number.
fn says(step: Step) -> u8 {
    refusals::told_number(&step.answer)
}

// What a frame of these bytes is answered with.
fn frame_says(pw: Pw, time: u64, bytes: &[u8]) -> u8 {
    says(meter::frame::poll(pw, time, 28, bytes))
}

// Rows 147 to 150: document 01, time 2^48 - 1 and 2^48, of an order and of a frame. Rows 151 to 153: its
// order of refusals, 5, 4, 1.
fn refusal_rows() -> [Row; 7] {
    let late: u64 = 281474976710656;
    let off = meter::making::plain_meter();
    let running = on(off, 0).pw;
    let whole = [0; 14];
    let short = [0; 13];
    [
        (147, says(on(off, late - 1)) == 0),
        (148, says(on(off, late)) == 5),
        (149, frame_says(running, late - 1, &whole) == 0),
        (150, frame_says(running, late, &whole) == 5),
        (151, frame_says(off, late, &short) == 5),
        (152, frame_says(off, 0, &short) == 4),
        (153, frame_says(off, 0, &whole) == 1),
    ]
}

fn main(rt: HostRuntime) -> io::Result<()> {
    let mut score = Score::default();
    score.count(&rt, &code_rows());
    score.count(&rt, &rms_rows());
    score.count(&rt, &length_rows());
    score.count(&rt, &root_rows());
    score.count(&rt, &max_rows());
    score.count(&rt, &window_rows());
    score.count(&rt, &description_rows());
    score.count(&rt, &acc_rows());
    score.count(&rt, &count_rows());
    score.count(&rt, &totals_rows());
    score.count(&rt, &limit_rows());
    score.count(&rt, &format_rows());
    score.count(&rt, &low_power_rows());
    score.count(&rt, &high_power_rows());
    score.count(&rt, &outcome_rows());
    score.count(&rt, &mean_rows());
    score.count(&rt, &signal_rows());
    score.count(&rt, &refusal_rows());
    let Score { agree, differ } = score;
    println!(rt; "{agree} rows agree, {differ} differ")
}
