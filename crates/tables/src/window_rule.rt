//! Document 01's rule of the comparator's window, of every middle and swing (specs/Rule.antt): the contract of a function
//! that does nothing.
ghost use Rattle.std.specs.Prelude.{◌≡◌, ◌↔◌, ◌⊎◌, ℕ, Float, None, Some};
ghost use Rattle.tables.specs.declared.window.Side.TheVariants.{Upper, Lower};
ghost use Rattle.tables.specs.Window.{cmp_window};
ghost use Rattle.tables.specs.Rule.{NoEntryServes, Pair};

/// "`cmp_window` answers none exactly when no upper entry clears the middle by M = 0.006 and lies below it plus 0.9 of the
/// swing, or no lower entry does so downward, in binary32; otherwise the nearest pair".
#[tactic(auto, using(crate::proofs::WindowRule::none_exactly, crate::proofs::WindowRule::otherwise_nearest))]
pub fn window_rule_holds()
    ensures none_exactly { (c a : Float) → (cmp_window c a ≡ None) ↔ (NoEntryServes Upper c a ⊎ NoEntryServes Lower c a) }
    ensures otherwise_nearest { (c a : Float) (w : ℕ) → (cmp_window c a ≡ Some w) ↔ Pair c a w }
{}
