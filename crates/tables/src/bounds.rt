//! Numbers tested against two bounds.
ghost use Rattle.std.specs.Prelude.{◌≡◌};
ghost use Rattle.tables.specs.Bounds.{within};

/// Whether x lies from `least` to `most`, ends allowed; a NaN does not. (The proof of a range's `contains` did not close.)
#[tactic(auto, unfolding(crate::specs::Bounds::within))]
pub fn within(least: f32, most: f32, x: f32) -> bool
    ensures { result ≡ within least most x }
{
    x >= least && x <= most
}
