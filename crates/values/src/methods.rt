//! Which method and coupling a meter measures with.
ghost use Rattle.std.specs.Prelude.{◌≡◌};
ghost use Rattle.values.specs.Methods.{alternating, simultaneous, ac_only, ac_dc, measured};

use state::{Mode, Quantity, both_seen, has_seen};
use tables::constants::{COUP_AC, COUP_ACDC};

/// The alternating method, over which DC coupling takes precedence.
#[tactic(auto, unfolding(crate::specs::Methods::alternating))]
pub fn alternating(mode: Mode) -> bool
    ensures { result ≡ alternating mode }
{
    mode.alt && !mode.dc
}

/// The simultaneous method (method B), the source's `b`.
#[tactic(auto, unfolding(crate::specs::Methods::simultaneous))]
pub(crate) fn simultaneous(mode: Mode) -> bool
    ensures { result ≡ simultaneous mode }
{
    !mode.alt && !mode.dc
}

/// AC coupling, where the DC parts are not used.
#[tactic(auto, unfolding(crate::specs::Methods::ac_only))]
pub(crate) fn ac_only(mode: Mode) -> bool
    ensures { result ≡ ac_only mode }
{
    mode.coup == COUP_AC && !mode.dc
}

/// The simultaneous method in AC+DC coupling.
#[tactic(auto, unfolding(crate::specs::Methods::ac_dc))]
pub(crate) fn ac_dc(mode: Mode) -> bool
    ensures { result ≡ ac_dc mode }
{
    simultaneous(mode) && mode.coup == COUP_ACDC
}

/// Whether the meter is on and has measured all that its method needs: voltage and current, and the
/// power too outside the alternating method.
#[tactic(auto, unfolding(crate::specs::Methods::measured))]
pub fn measured(mode: Mode, seen: u8) -> bool
    ensures { result ≡ measured mode seen }
{
    mode.on && both_seen(seen) && (alternating(mode) || has_seen(seen, Quantity::Power))
}
