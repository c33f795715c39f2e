//! What a call takes and answers. C is handed structs, which include/pw.h lays out, and has no `Result` and no `Option`:
//! so the number `refusal` and the mark `has_reading` stand beside the values.
ghost use Rattle.std.specs.Prelude.{◌≡◌};
ghost use Rattle.host.specs.Stepped.{ask_of};

use crate::shown::{HostReadouts, NO_VAL};
use figures::load::Figures;
use meter::making::plain_meter;
use orders::answer::{Answer, Reading, Step};
use orders::ranges::Ask;
use refusals::{Refusal, told_number};
use state::{Pw, Ranges, Stamp};
use values::power_vals::{Energies, InForce, Limits, PowerVals, Split};

/// `struct pw_reading`
#[derive(Clone, Copy)]
#[repr(C)]
pub struct HostReading {
    pub readouts: HostReadouts,
    pub vals: PowerVals,
}

/// `struct pw_answer`: the refusal by its number.
#[derive(Clone, Copy)]
#[repr(C)]
pub struct HostAnswer {
    pub refusal: u8,
    pub mark: Stamp,
    pub used: u8,
    pub has_reading: bool,
    pub reading: HostReading,
}

/// `struct pw_step`
#[derive(Clone, Copy)]
#[repr(C)]
pub struct HostStep {
    pub meter: Pw,
    pub answer: HostAnswer,
}

/// `struct pw_made`
#[derive(Clone, Copy)]
#[repr(C)]
pub struct HostMade {
    pub refusal: u8,
    pub meter: Pw,
}

// All is 0 and no, as include/pw.h says. (`PowerVals::ZERO` is the source's, in ranges 3 and 5 found by themselves, DC
// coupling, counting, with no mean power: an update of it would write three of its groups anew, and hide the zeros.)
const NO_READING: HostReading = HostReading {
    readouts: HostReadouts {
        main: NO_VAL,
        v: NO_VAL,
        i: NO_VAL,
        si: 0.0,
    },
    vals: PowerVals {
        load: Figures {
            p: 0.0,
            s: 0.0,
            q: 0.0,
            pf: 0.0,
            v: 0.0,
            i: 0.0,
        },
        vdc: 0.0,
        idc: 0.0,
        f_ok: false,
        burden_v: 0.0,
        energies: Energies {
            e_wh: 0.0,
            vah: 0.0,
            secs: 0,
            p_avg: 0.0,
        },
        ranges: Ranges {
            vr: 0,
            ik: 0,
            v_auto: false,
            i_auto: false,
        },
        in_force: InForce {
            alt: false,
            dc: false,
            coup: 0,
            comp: false,
            run: false,
            sph: 0,
            main: 0,
        },
        limits: Limits {
            v_ol: false,
            i_ol: false,
            over: 0,
            over_left: 0,
        },
        hint: 0,
        split: Split {
            v_dc: 0.0,
            v_ac: 0.0,
            i_dc: 0.0,
            i_ac: 0.0,
            p_dc: 0.0,
            p_ac: 0.0,
        },
    },
};

/// What a number asks of a range: below 256 that range, 256 (PW_AUTO) that it be found by itself, any
/// other nothing (PW_KEEP is 257). (A function and no `From`, since neither `u16` nor `Ask` is a type of this crate.)
#[tactic(auto, unfolding(crate::specs::Stepped::ask_of))]
pub fn ask_of(asked: u16) -> Ask
    ensures { result ≡ ask_of asked }
{
    match u8::try_from(asked) {
        Ok(range) => Ask::Fixed(range),
        Err(_) if asked == 256 => Ask::Auto,
        Err(_) => Ask::Stay,
    }
}

/// The readouts of a reading with the values that they are of; every number 0 and every mark no where there is none.
impl From<Option<Reading>> for HostReading {
    ghost use Rattle.host.specs.Stepped.{host_reading};

    ghost from_gives = { λ reading read. read ≡ host_reading reading };

    #[tactic(auto, unfolding(crate::specs::Stepped::host_reading))]
    fn from(reading: Option<Reading>) -> HostReading {
        match reading {
            Some(read) => HostReading {
                readouts: HostReadouts::from(read.readouts),
                vals: read.vals,
            },
            None => NO_READING,
        }
    }
}

/// What a call answers, with the refusal by its number: a refused one answers its number alone.
impl From<Result<Answer, Refusal>> for HostAnswer {
    ghost use Rattle.host.specs.Stepped.{host_answer};

    ghost from_gives = { λ answer told. told ≡ host_answer answer };

    #[tactic(auto, unfolding(crate::specs::Stepped::host_answer))]
    fn from(answer: Result<Answer, Refusal>) -> HostAnswer {
        let refusal = told_number(&answer);
        match answer {
            Ok(answer) => HostAnswer {
                refusal,
                mark: Stamp::from(answer.mark),
                used: answer.used,
                has_reading: answer.reading.is_some(),
                reading: HostReading::from(answer.reading),
            },
            Err(_) => HostAnswer {
                refusal,
                mark: Stamp::NONE,
                used: 0,
                has_reading: false,
                reading: NO_READING,
            },
        }
    }
}

/// A call's step: the meter after it, and its answer with the refusal by its number.
impl From<Step> for HostStep {
    ghost use Rattle.host.specs.Stepped.{host_step};

    ghost from_gives = { λ step told. told ≡ host_step step };

    fn from(step: Step) -> HostStep {
        HostStep {
            meter: step.pw,
            answer: HostAnswer::from(step.answer),
        }
    }
}

/// What the making of a meter answers, with the refusal by its number; where none is made a plain one that is off
/// stands in its place.
impl From<Result<Pw, Refusal>> for HostMade {
    ghost use Rattle.host.specs.Stepped.{host_made};

    ghost from_gives = { λ made told. told ≡ host_made made };

    #[tactic(auto, unfolding(crate::specs::Stepped::host_made))]
    fn from(made: Result<Pw, Refusal>) -> HostMade {
        HostMade {
            refusal: told_number(&made),
            meter: made.unwrap_or_else(|_| plain_meter()),
        }
    }
}
