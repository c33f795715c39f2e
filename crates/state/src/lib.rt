//! The meter's state: `Pw` by value, made of one struct for each group of fields that change together,
//! under the source's names. All are laid out as in C, so that a C host can keep one. So what an enum could
//! name is a number, of which each has a meaning (`coup`, `phase`, `stat`, `seen`, `barred`, `cal`, `cal_res`,
//! `job`, `job_res`, `job_last`, `main`, `r20`, `r21`), and what an `Option` could be is a mark beside its
//! value (`set`, `zero_ok`). NEW is what each holds in a meter just made.
#![tactic(auto)]

ghost use Rattle.std.specs.Prelude.{◌≡◌};
ghost use Rattle.numbers.specs.Root.{hypot_of};
ghost use Rattle.state.specs.Fresh.{at_time, stamp_of, time_in, new_pw};
ghost use Rattle.state.specs.Counting.{elapsed, deadline, count_up};
ghost use Rattle.state.specs.Seen.{bit_of, has_seen, also_seen, both_seen};

use figures::tally::Tally;
use tables::calibration::Calibration;
use tables::constants::{
    CAL_NONE, COUP_DC, I_CONT_DEFAULT, JR_NONE, MAIN_P, R20_SENSE, R21_DEFAULT, R34_XY, SHUNT_OHM,
    T_LIM_DEFAULT,
};
use tables::description::Description;

/// A time in ms where `set`, else none: the source's `Option<u64>`, as a C host keeps it.
#[derive(Clone, Copy, Debug, PartialEq, Eq)]
#[repr(C)]
pub struct Stamp {
    pub set: bool,
    pub at: u64,
}

impl Stamp {
    /// No time.
    pub const NONE: Stamp = Stamp { set: false, at: 0 };

    /// This time.
    pub fn at_time(time: u64) -> Stamp
        ensures { result ≡ at_time time }
    {
        Stamp {
            set: true,
            at: time,
        }
    }
}

impl From<Option<u64>> for Stamp {
    ghost from_gives = { λ time s. s ≡ stamp_of time };

    fn from(time: Option<u64>) -> Stamp {
        time.map_or(Stamp::NONE, Stamp::at_time)
    }
}

impl From<Stamp> for Option<u64> {
    ghost from_gives = { λ stamp time. time ≡ time_in stamp };

    fn from(stamp: Stamp) -> Option<u64> {
        stamp.set.then_some(stamp.at)
    }
}

/// What the meter does: on, the alternating method, the coupling asked for, DC coupling in force, and
/// that the host is to re-apply.
#[derive(Clone, Copy, Debug, PartialEq, Eq)]
#[repr(C)]
pub struct Mode {
    pub on: bool,
    pub alt: bool,
    pub coup: u8,
    pub dc: bool,
    pub cal_req: bool,
}

impl Mode {
    // Off, method B, DC coupling asked for.
    const NEW: Mode = Mode {
        on: false,
        alt: false,
        coup: COUP_DC,
        dc: false,
        cal_req: false,
    };
}

/// The V range and the current range, and whether each is found by itself.
#[derive(Clone, Copy, Debug, PartialEq, Eq)]
#[repr(C)]
pub struct Ranges {
    pub vr: u8,
    pub ik: u8,
    pub v_auto: bool,
    pub i_auto: bool,
}

impl Ranges {
    /// 1000 V and 10 A, both automatic.
    pub const NEW: Ranges = Ranges {
        vr: 3,
        ik: 5,
        v_auto: true,
        i_auto: true,
    };
}

/// The phase; the results still to drop (`skip_y` those of the DC row's voltage); the results taken in
/// this phase of the alternating method; `stat`, which is R34 where the row is the power row (with
/// another row it is in no register); and the quantities marked as measured (1 power, 2 voltage, 4
/// current), of which an apply clears those that it does not keep.
#[derive(Clone, Copy, Debug, PartialEq, Eq)]
#[repr(C)]
pub struct Cycle {
    pub phase: u8,
    pub skip: u8,
    pub skip_y: u8,
    pub taken: u8,
    pub stat: u8,
    pub seen: u8,
}

impl Cycle {
    const NEW: Cycle = Cycle {
        phase: 0,
        skip: 0,
        skip_y: 0,
        taken: 0,
        stat: R34_XY,
        seen: 0,
    };
}

/// What is marked in `seen` as measured, with its bit there.
#[derive(Clone, Copy, Debug, PartialEq, Eq)]
pub enum Quantity {
    Power = 1,
    Voltage = 2,
    Current = 4,
}

/// The smoothed values: W, V and A by AC and DC part; `vac_dc` is the AC volts in DC coupling.
#[derive(Clone, Copy)]
#[repr(C)]
pub struct Parts {
    pub p_ac: f32,
    pub v_ac: f32,
    pub v_dc: f32,
    pub i_ac: f32,
    pub i_dc: f32,
    pub vac_dc: f32,
}

impl Parts {
    const NEW: Parts = Parts {
        p_ac: 0.0,
        v_ac: 0.0,
        v_dc: 0.0,
        i_ac: 0.0,
        i_dc: 0.0,
        vac_dc: 0.0,
    };

    /// The volts, AC and DC together.
    pub fn volts(&self) -> f32
        ensures { result ≡ hypot_of self.now.v_ac self.now.v_dc }
    {
        numbers::hypot(self.v_ac, self.v_dc)
    }

    /// The amperes, AC and DC together.
    pub fn amperes(&self) -> f32
        ensures { result ≡ hypot_of self.now.i_ac self.now.i_dc }
    {
        numbers::hypot(self.i_ac, self.i_dc)
    }
}

/// The powers of the next interval.
#[derive(Clone, Copy)]
#[repr(C)]
pub struct Powers {
    pub p_tot: f32,
    pub s_last: f32,
}

impl Powers {
    const NEW: Powers = Powers {
        p_tot: 0.0,
        s_last: 0.0,
    };
}

/// Whether energy is counted, the last accounted frame's time, and the last frame's.
#[derive(Clone, Copy, Debug, PartialEq, Eq)]
#[repr(C)]
pub struct Clock {
    pub run: bool,
    pub t_last: Stamp,
    pub t_poll: u64,
}

impl Clock {
    // Energy is counted; no frame yet.
    const NEW: Clock = Clock {
        run: true,
        t_last: Stamp::NONE,
        t_poll: 0,
    };
}

/// Whether the drop in the meter's own path is taken off, the path's ohms by unit, the limit of the
/// continuous current in A with the seconds allowed above it, and the main readout: the order `settings`.
#[derive(Clone, Copy)]
#[repr(C)]
pub struct Settings {
    pub comp: bool,
    pub r_path: [f32; 3],
    pub i_cont: f32,
    pub t_lim: u16,
    pub main: u8,
}

impl Settings {
    const NEW: Settings = Settings {
        comp: false,
        r_path: SHUNT_OHM,
        i_cont: I_CONT_DEFAULT,
        t_lim: T_LIM_DEFAULT,
        main: MAIN_P,
    };
}

/// The phase step in force (`sph`), and the phase calibration: 0 off, 1 or 2 for its two rounds; how
/// many power results this round has counted, and the sum of their p / (v_ac * i_ac); the step and the
/// mean of round 1; the result.
#[derive(Clone, Copy)]
#[repr(C)]
pub struct PhaseCal {
    pub sph: i8,
    pub cal: u8,
    pub cal_n: u8,
    pub cal_acc: f32,
    pub cal_s0: i8,
    pub cal_pa: f32,
    pub cal_res: u8,
}

impl PhaseCal {
    const NEW: PhaseCal = PhaseCal {
        sph: 0,
        cal: 0,
        cal_n: 0,
        cal_acc: 0.0,
        cal_s0: 0,
        cal_pa: 0.0,
        cal_res: CAL_NONE,
    };
}

/// The stored zeros (`zx` and `zd` by current range) with their mark, and the stored gain of each V
/// range, 0.0 where the factory's counts. Arrays side by side, and a mark beside the zeros, since a C host
/// keeps them.
#[derive(Clone, Copy)]
#[repr(C)]
pub struct Corrections {
    pub zx: [i16; 6],
    pub zd: [i16; 6],
    pub zy: i16,
    pub zero_ok: bool,
    pub vgain: [f32; 4],
}

impl Corrections {
    // No zero and no gain stored.
    const NEW: Corrections = Corrections {
        zx: [0; 6],
        zd: [0; 6],
        zy: 0,
        zero_ok: false,
        vgain: [0.0; 4],
    };
}

/// The running job (0 none), what it has measured, and the ranges and marks found at its start.
/// `used` counts the ready frames that it has used. Arrays side by side, and numbers for the job and its
/// result, since a C host keeps them; `Kind::from` and `result_number` of `steps` read and write these.
#[derive(Clone, Copy)]
#[repr(C)]
pub struct Job {
    pub job: u8,
    pub job_step: u8,
    pub job_n: u8,
    pub job_a: f32,
    pub job_b: f32,
    pub job_dc: bool,
    pub job_raw: [f32; 2],
    pub job_ref: [f32; 2],
    pub job_zx: [i16; 6],
    pub job_zd: [i16; 6],
    pub job_save: Ranges,
    pub job_res: u8,
    pub job_vr: u8,
    pub job_last: u8,
    pub used: u8,
}

impl Job {
    // No job.
    const NEW: Job = Job {
        job: 0,
        job_step: 0,
        job_n: 0,
        job_a: 0.0,
        job_b: 0.0,
        job_dc: false,
        job_raw: [0.0; 2],
        job_ref: [0.0; 2],
        job_zx: [0; 6],
        job_zd: [0; 6],
        job_save: Ranges::NEW,
        job_res: JR_NONE,
        job_vr: 0,
        job_last: 0,
        used: 0,
    };
}

/// The comparator's source (R20 without its counter's bit, 02h) and window (R21), whether a frequency is
/// to be had, and the V range that the window was chosen for.
#[derive(Clone, Copy, Debug, PartialEq, Eq)]
#[repr(C)]
pub struct Comparator {
    pub r20: u8,
    pub r21: u8,
    pub f_ok: bool,
    pub cmp_vr: u8,
}

impl Comparator {
    // The V tap with the default window, chosen for no V range yet.
    const NEW: Comparator = Comparator {
        r20: R20_SENSE,
        r21: R21_DEFAULT,
        f_ok: true,
        cmp_vr: 255,
    };
}

/// The sixteen latest conversions, the one of number n at n modulo 16: which result it was (R34 in method
/// B; 1 and 2 the alternating voltage and current; 3 and 4 the DC row's, where AD1 stands in `lpf`),
/// whether it was dropped, its codes, and the ms since the RMS and LPF result before it, held to 65535
/// (0 for AD1). `ring_k` is the next number, `t_res` the last RMS and LPF result's time. Document 01 asks
/// for these arrays side by side, and a C host keeps them.
#[derive(Clone, Copy)]
#[repr(C)]
pub struct Ring {
    pub stat: [u8; 16],
    pub disc: [bool; 16],
    pub rms: [i64; 16],
    pub lpf: [i32; 16],
    pub dt: [u16; 16],
    pub ring_k: u32,
    pub t_res: u64,
}

impl Ring {
    const NEW: Ring = Ring {
        stat: [0; 16],
        disc: [false; 16],
        rms: [0; 16],
        lpf: [0; 16],
        dt: [0; 16],
        ring_k: 0,
        t_res: 0,
    };
}

/// The whole meter. `barred` is 0 where nothing is barred, else the coarsest unit (1 mA, 2 uA) of a
/// current range that tripped: it and the finer one are barred. `over_t0` is since when the current is
/// above its limit.
#[derive(Clone, Copy)]
#[repr(C)]
pub struct Pw {
    pub description: Description,
    pub calibration: Calibration,
    pub mode: Mode,
    pub ranges: Ranges,
    pub barred: u8,
    pub cycle: Cycle,
    pub parts: Parts,
    pub powers: Powers,
    pub tally: Tally,
    pub clock: Clock,
    pub over_t0: Stamp,
    pub settings: Settings,
    pub phase_cal: PhaseCal,
    pub corrections: Corrections,
    pub job: Job,
    pub comparator: Comparator,
    pub ring: Ring,
}

impl Pw {
    // The meter that document 01's `pwline` has, just made: the source's values, a description of 1.0
    // throughout, and no valid calibration word.
    const PLAIN: Pw = Pw {
        description: Description::PLAIN,
        calibration: Calibration::NONE,
        mode: Mode::NEW,
        ranges: Ranges::NEW,
        barred: 0,
        cycle: Cycle::NEW,
        parts: Parts::NEW,
        powers: Powers::NEW,
        tally: Tally::ZERO,
        clock: Clock::NEW,
        over_t0: Stamp::NONE,
        settings: Settings::NEW,
        phase_cal: PhaseCal::NEW,
        corrections: Corrections::NEW,
        job: Job::NEW,
        comparator: Comparator::NEW,
        ring: Ring::NEW,
    };

    /// A meter with this description and these words, just made: the source's `Pw::new`, and beside it
    /// nothing barred, no frame yet, and no ready frame used.
    #[tactic(auto, using(crate::proofs::Ohms::ohms), unfolding(crate::specs::Fresh::new_pw))]
    pub fn new(description: Description, calibration: Calibration) -> Pw
        ensures { result ≡ new_pw description calibration }
    {
        Pw {
            description,
            calibration,
            ..Pw::PLAIN
        }
    }
}

/// The ms from `since` to `now`, 0 where the clock stands before `since`.
pub fn elapsed(now: u64, since: u64) -> u64
    ensures { result ≡ elapsed now since }
{
    now.saturating_sub(since)
}

/// When the host goes on after a row write: `settle` ms from now, held to the end of 64 bits.
#[tactic(auto, unfolding(crate::specs::Counting::deadline, tables::specs::Bounds::at_most))]
pub fn deadline(now: u64, settle: u64) -> u64
    ensures { result ≡ deadline now settle }
{
    now.saturating_add(settle)
}

/// One more, held at 255.
#[tactic(auto, unfolding(crate::specs::Counting::count_up))]
pub fn count_up(n: u8) -> u8
    ensures { result ≡ count_up n }
{
    n.saturating_add(1)
}

/// The bit of `seen` that stands for a quantity.
impl From<Quantity> for u8 {
    ghost from_gives = { λ q bit. bit ≡ bit_of q };

    #[tactic(auto, unfolding(crate::specs::Seen::bit_of))]
    fn from(q: Quantity) -> u8 {
        q as u8
    }
}

// Functions of a bare byte, since `seen` is one in a record that a C host keeps.

/// Whether a quantity is marked as measured.
#[tactic(auto, using(crate::proofs::Bits::tested))]
pub fn has_seen(seen: u8, q: Quantity) -> bool
    ensures { result ≡ has_seen seen q }
{
    seen & u8::from(q) != 0
}

/// The marks, with this quantity's set.
#[tactic(auto, using(crate::proofs::Bits::marked))]
pub fn also_seen(seen: u8, q: Quantity) -> u8
    ensures { result ≡ also_seen seen q }
{
    seen | u8::from(q)
}

/// Whether voltage and current are marked.
#[tactic(auto, unfolding(crate::specs::Seen::both_seen))]
pub fn both_seen(seen: u8) -> bool
    ensures { result ≡ both_seen seen }
{
    has_seen(seen, Quantity::Voltage) && has_seen(seen, Quantity::Current)
}
