//! The way from one phase to the next.
ghost use Rattle.std.specs.Prelude.{◌≡◌};
ghost use Rattle.ranging.specs.Cycle.{advance, other_phase, alt_switch};

use state::{Cycle, deadline};
use tables::constants::{ALT_V_SETTLE_MS, ALT_V_SKIP, DISC_DEFAULT, SETTLE_MS};
use tables::lookups::cycle;

/// The next phase of the alternating method, and when the host goes on. (`Ranged` too is what is left and a deadline;
/// but it leaves other ranges, and one generic struct for both would call the cycle and the ranging by the same
/// name.)
#[derive(Clone, Copy)]
pub struct Switched {
    pub cycle: Cycle,
    pub deadline: u64,
}

/// Method B: the next phase; where it has another R34, that is set and two results are to be dropped.
#[tactic(auto, unfolding(crate::specs::Cycle::advance))]
pub fn advance(before: Cycle) -> Cycle
    ensures { result ≡ advance before }
{
    let phase = before.phase.wrapping_add(1) % 4;
    let stat = cycle(phase);
    let skip = if stat == before.stat {
        before.skip
    } else {
        DISC_DEFAULT
    };
    Cycle {
        phase,
        skip,
        stat,
        ..before
    }
}

// The other of an even phase and the odd one after it.
#[tactic(auto, using(crate::proofs::Turned::turned))]
fn other_phase(phase: u8) -> u8
    ensures { result ≡ other_phase phase }
{
    phase ^ 1
}

/// The alternating method: the other row; the V row settles longer, and its first four results are
/// dropped.
#[tactic(auto, unfolding(crate::specs::Cycle::alt_switch))]
pub fn alt_switch(before: Cycle, now: u64) -> Switched
    ensures { result ≡ alt_switch before now }
{
    let phase = other_phase(before.phase);
    let (skip, settle) = if phase % 2 == 0 {
        (ALT_V_SKIP, ALT_V_SETTLE_MS)
    } else {
        (0, SETTLE_MS)
    };
    Switched {
        cycle: Cycle {
            phase,
            skip,
            taken: 0,
            stat: cycle(phase),
            ..before
        },
        deadline: deadline(now, settle),
    }
}
