//! What each step of a job measures, and how.
ghost use Rattle.std.specs.Prelude.{◌≡◌};
ghost use Rattle.steps.specs.Place.{kind_number, kind_of, layout_of, place_of, drops_of, settle_of, stat_of, ready, step_ranges};

use codes::{holds_ad1, holds_rms_lpf};
use state::Ranges;
use tables::constants::{
    ALT_V_SKIP, JOB_SKIP, JOB_VCAL, JOB_ZERO, R34_XX, R34_YY, SETTLE_MS, VCAL_AC_SETTLE_MS,
    VCAL_DC_SETTLE_MS,
};

/// The two jobs, by their names, which a mark would not say.
#[derive(Clone, Copy, Debug, PartialEq, Eq)]
pub enum Kind {
    Zero,
    Gain,
}

/// The number by which the meter knows a kind of job.
impl From<Kind> for u8 {
    ghost from_gives = { λ kind number. number ≡ kind_number kind };

    fn from(kind: Kind) -> u8 {
        match kind {
            Kind::Zero => JOB_ZERO,
            Kind::Gain => JOB_VCAL,
        }
    }
}

/// The kind of the running job with this number: 1 is the zero job, any other counts as the gain job.
impl From<u8> for Kind {
    ghost from_gives = { λ job kind. kind ≡ kind_of job };

    #[tactic(auto, unfolding(crate::specs::Place::kind_of))]
    fn from(job: u8) -> Kind {
        if job == JOB_ZERO {
            Kind::Zero
        } else {
            Kind::Gain
        }
    }
}

impl Kind {
    /// The ranges of a step: the zero job's steps 0 to 11 go through the current ranges twice.
    pub fn step_ranges(self, step: u8, found: Ranges) -> Ranges
        ensures { result ≡ step_ranges self step found }
    {
        match self {
            Kind::Zero if step < 12 => Ranges {
                ik: step % 6,
                ..found
            },
            Kind::Zero | Kind::Gain => found,
        }
    }
}

/// What a step measures: six places, and no `Option` or `Result` among them.
#[derive(Clone, Copy, Debug, PartialEq, Eq)]
pub enum Place {
    /// the zero of the LPF's current, in one current range
    ZeroX,
    /// the zero of AD1, in one current range
    ZeroD,
    /// the zero of the LPF's voltage
    ZeroY,
    /// the V channel less its zero, without its gain
    Raw,
    /// the reference, a DC voltage
    RefDc,
    /// the reference, an AC voltage
    RefAc,
}

impl Place {
    /// What a step measures, in a gain job by its kind of voltage, the mark `job_dc` of the state.
    pub fn of(kind: Kind, dc: bool, step: u8) -> Place
        ensures { result ≡ place_of (layout_of kind dc) step }
    {
        match kind {
            Kind::Zero if step < 6 => Place::ZeroX,
            Kind::Zero if step < 12 => Place::ZeroD,
            Kind::Zero => Place::ZeroY,
            Kind::Gain if step % 2 == 0 => Place::Raw,
            Kind::Gain if dc => Place::RefDc,
            Kind::Gain => Place::RefAc,
        }
    }

    /// How many ready frames are dropped before three are counted.
    pub fn drops(self) -> u8
        ensures { result ≡ drops_of self }
    {
        match self {
            Place::ZeroX | Place::ZeroD | Place::ZeroY | Place::Raw | Place::RefDc => JOB_SKIP,
            Place::RefAc => ALT_V_SKIP,
        }
    }

    /// How many ms the row settles.
    pub fn settle_ms(self) -> u64
        ensures { result ≡ settle_of self }
    {
        match self {
            Place::ZeroX | Place::ZeroD | Place::ZeroY | Place::Raw => SETTLE_MS,
            Place::RefDc => VCAL_DC_SETTLE_MS,
            Place::RefAc => VCAL_AC_SETTLE_MS,
        }
    }

    /// `stat` of the step, R34 of the power row. The DC row and the reference rows bring their own R34.
    pub fn stat(self) -> u8
        ensures { result ≡ stat_of self }
    {
        match self {
            Place::ZeroX => R34_XX,
            Place::ZeroD | Place::ZeroY | Place::Raw | Place::RefDc | Place::RefAc => R34_YY,
        }
    }

    /// Whether a frame with these flags has what the step measures.
    #[tactic(auto, unfolding(crate::specs::Place::ready))]
    pub fn is_ready(self, flags: u8) -> bool
        ensures { result ≡ ready self flags }
    {
        match self {
            Place::ZeroD | Place::RefDc => holds_ad1(flags),
            Place::ZeroX | Place::ZeroY | Place::Raw | Place::RefAc => holds_rms_lpf(flags),
        }
    }
}
