//! The tally: both energies and the time counted, and the accounting step of one interval.
ghost use Rattle.std.specs.Prelude.{◌≡◌};
ghost use Rattle.figures.specs.Tally.{energy_step, with_time, accounting_step, Told};

use crate::acc::{Acc, Sum, add_to};
use refusals::Refusal;

// The greatest time that counts: 2^63 - 1 ms.
const MOST_TIME: u64 = i64::MAX as u64;

/// The source's `e`, `va` and `t_int`: active energy in mJ, apparent energy in mVAs, time in ms.
#[derive(Clone, Copy)]
#[repr(C)]
pub struct Tally {
    pub e: Acc,
    pub va: Acc,
    pub t_int: u64,
}

impl Tally {
    /// Nothing counted.
    pub const ZERO: Tally = Tally {
        e: Acc::ZERO,
        va: Acc::ZERO,
        t_int: 0,
    };
}

/// What the accounting step gives: the new tally, with the whole millijoules that its active count
/// gained, for whoever allots active energy.
#[derive(Clone, Copy)]
pub struct Counted {
    pub tally: Tally,
    pub gained: i64,
}

// The active energy after an interval of so many joules; where it does not count it stays, and gains
// nothing. (`active` is a mark, here and below: it is the meter's one yes or no whether the active energy
// counts, the source's `!alt || dc`, and a C host calls `leaf_accounting_step` with it.)
#[tactic(auto, unfolding(crate::specs::Tally::energy_step))]
fn energy_step(active: bool, e: Acc, joules: f32) -> Result<Sum, Refusal>
    ensures { result ≡ energy_step active e joules }
{
    if active {
        add_to(e, joules)
    } else {
        Ok(Sum { acc: e, gained: 0 })
    }
}

// The two energies with the time t_int + dt, where that is below 2^63.
#[tactic(auto, unfolding(crate::specs::Tally::with_time))]
fn with_time(e: Sum, va: Acc, t_int: u64, dt: u64) -> Result<Counted, Refusal>
    ensures { result ≡ with_time e va t_int dt }
{
    let t_int = t_int.saturating_add(dt);
    if t_int > MOST_TIME {
        return Err(Refusal::Full);
    }
    Ok(Counted {
        tally: Tally {
            e: e.acc,
            va,
            t_int,
        },
        gained: e.gained,
    })
}

/// The accounting step of an interval of dt ms at the power p and the apparent power s; the active
/// energy counts where `active` says so (the source's `!alt || dc`). The whole millijoules told are
/// what the active energy's count gained.
#[tactic(auto, using(crate::proofs::Interval::energy_told, crate::proofs::Interval::apparent_told, crate::proofs::Interval::counted_told), unfolding(crate::specs::Tally::accounting_step, crate::specs::Tally::both, crate::specs::Tally::seconds))]
pub fn accounting_step(t: Tally, dt: u64, p: f32, s: f32, active: bool) -> Result<Counted, Refusal>
    ensures is { result ≡ accounting_step t dt p s active }
    ensures told { Told t result }
{
    let seconds = numbers::u64_to_f32(dt) * 0.001;
    let energy = energy_step(active, t.e, p * seconds)?;
    let apparent = add_to(t.va, s * seconds)?;
    with_time(energy, apparent.acc, t.t_int, dt)
}
