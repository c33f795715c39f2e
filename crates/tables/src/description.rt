//! What a meter is told of its hardware.
ghost use Rattle.std.specs.Prelude.{◌≡◌};
ghost use Rattle.std.specs.List.{list_all};
ghost use Rattle.tables.specs.Description.{in_bounds, check_description};

use crate::bounds::within;
use refusals::Refusal;

/// Six numbers, and `a_auto`. The two arrays have different indices, and a C host keeps the struct as it lies.
#[derive(Clone, Copy)]
#[repr(C)]
pub struct Description {
    /// the source's `MV_DIV`, by gain index
    pub mv_div: [f32; 2],
    /// the source's `SHUNT`, by current unit; it is not `SHUNT_OHM`
    pub shunt: [f32; 3],
    /// the source's `over()`
    pub over: f32,
    /// whether `a_auto` is 1
    pub a_auto: bool,
}

impl Description {
    /// Six numbers of 1.0, and `a_auto` no.
    pub const PLAIN: Description = Description {
        mv_div: [1.0; 2],
        shunt: [1.0; 3],
        over: 1.0,
        a_auto: false,
    };
}

const LEAST: f32 = 1.0 / 1_048_576.0;

const MOST: f32 = 1_048_576.0;

// From 2^-20 to 2^20, ends allowed, and so no NaN.
#[tactic(auto, unfolding(crate::specs::Description::in_bounds))]
fn in_bounds(x: f32) -> bool
    ensures { result ≡ in_bounds x }
{
    within(LEAST, MOST, x)
}

// Whether each number of a list is in bounds.
fn all_in_bounds(xs: &[f32]) -> bool
    ensures { result ≡ list_all in_bounds xs.now }
{
    xs.iter().all(|&x| in_bounds(x))
}

/// Refusal 7 unless each of the six numbers is in bounds.
#[tactic(auto, unfolding(crate::specs::Description::check_description))]
pub fn check_description(d: Description) -> Result<(), Refusal>
    ensures { result ≡ check_description d }
{
    if all_in_bounds(&d.mv_div) && all_in_bounds(&d.shunt) && in_bounds(d.over) {
        Ok(())
    } else {
        Err(Refusal::Description)
    }
}
