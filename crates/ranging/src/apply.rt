//! The apply (the source's `pw_apply`): measuring starts over, but for a channel that is kept; the host
//! writes the row at once, and goes on at the deadline.
ghost use Rattle.std.specs.Prelude.{◌≡◌};
ghost use Rattle.ranging.specs.Apply.{phase_after, bit_in, kept_seen, skip_after, comparator_for, apply};

use state::{Comparator, Cycle, Mode, Quantity, deadline};
use tables::constants::{ALT_V_SKIP, DC_SKIP, R20_SENSE, R21_DEFAULT, SETTLE_MS};
use tables::lookups::cycle;

/// Which channel's marks stay over an apply (the source's `keep`: 0, 2, 4). An `Option<Channel>` has the same
/// three cases, but an `apply(None, ..)` would not say that nothing is kept.
#[derive(Clone, Copy, Debug, PartialEq, Eq)]
pub enum Keep {
    Nothing,
    Voltage,
    Current,
}

/// What an apply leaves, and when the host goes on.
#[derive(Clone, Copy)]
pub struct Applied {
    pub cycle: Cycle,
    pub comparator: Comparator,
    pub deadline: u64,
}

// The phase to start with: in method B, where one channel is kept, the other's statistic comes first;
// else phase 0.
#[tactic(auto, unfolding(crate::specs::Apply::phase_after))]
fn phase_after(keep: Keep, mode: Mode) -> u8
    ensures { result ≡ phase_after keep mode }
{
    if mode.dc || mode.alt {
        return 0;
    }
    match keep {
        Keep::Nothing => 0,
        Keep::Voltage => 3,
        Keep::Current => 1,
    }
}

// The bit of a quantity in `seen`, 0 where it is not set.
#[tactic(auto, using(state::proofs::Bits::in_common), unfolding(crate::specs::Apply::bit_in))]
fn bit_in(seen: u8, q: Quantity) -> u8
    ensures { result ≡ bit_in seen q }
{
    seen & u8::from(q)
}

// The marks that stay; the power's never does.
#[tactic(auto, unfolding(crate::specs::Apply::kept_seen))]
fn kept_seen(keep: Keep, seen: u8) -> u8
    ensures { result ≡ kept_seen keep seen }
{
    match keep {
        Keep::Nothing => 0,
        Keep::Voltage => bit_in(seen, Quantity::Voltage),
        Keep::Current => bit_in(seen, Quantity::Current),
    }
}

// The results to drop after the row write.
#[tactic(auto, unfolding(crate::specs::Apply::skip_after))]
fn skip_after(mode: Mode) -> u8
    ensures { result ≡ skip_after mode }
{
    if mode.dc {
        DC_SKIP
    } else if mode.alt {
        ALT_V_SKIP
    } else {
        0
    }
}

// The comparator; back to its default source and window where the ones chosen were for another V
// range.
#[tactic(auto, unfolding(crate::specs::Apply::comparator_for))]
fn comparator_for(vr: u8, comparator: Comparator) -> Comparator
    ensures { result ≡ comparator_for vr comparator }
{
    if comparator.cmp_vr == vr {
        return comparator;
    }
    Comparator {
        r20: R20_SENSE,
        r21: R21_DEFAULT,
        f_ok: true,
        cmp_vr: vr,
    }
}

/// The source's `pw_apply` with its `keep`, at the time `now`, in the V range `vr`.
#[tactic(auto, unfolding(crate::specs::Apply::apply))]
pub fn apply(
    keep: Keep,
    mode: Mode,
    vr: u8,
    before: Cycle,
    comparator: Comparator,
    now: u64,
) -> Applied
    ensures { result ≡ apply keep mode vr before comparator now }
{
    let phase = phase_after(keep, mode);
    Applied {
        cycle: Cycle {
            phase,
            skip: skip_after(mode),
            skip_y: DC_SKIP,
            taken: 0,
            stat: cycle(phase),
            seen: kept_seen(keep, before.seen),
        },
        comparator: comparator_for(vr, comparator),
        deadline: deadline(now, SETTLE_MS),
    }
}
