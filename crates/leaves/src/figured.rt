//! The leaf functions of module 3. The accumulator's lent add and its watt hours are in libpw.a.
//! C is handed plain structs of numbers, so `refusal` stands beside a value in `NumberedSum` and `NumberedTally`.
ghost use Rattle.std.specs.Prelude.{◌≡◌};
ghost use Rattle.figures.specs.Load.{totals};
ghost use Rattle.figures.specs.Smoothing.{ema, ema_rel};
ghost use Rattle.figures.specs.Acc.{acc_step, add_to};
ghost use Rattle.figures.specs.Tally.{fresh_tally, accounting_step};
ghost use Rattle.leaves.specs.Host.{numbered_sum, numbered_tally};

use figures::acc::{Acc, Sum};
use figures::load::Figures;
use figures::tally::Tally;
use refusals::{Refusal, told_number};

/// `struct leaf_added`
#[derive(Clone, Copy)]
#[repr(C)]
pub struct NumberedSum {
    pub refusal: u8,
    pub acc: Acc,
    pub whole: i64,
}

/// `struct leaf_accounted`
#[derive(Clone, Copy)]
#[repr(C)]
pub struct NumberedTally {
    pub refusal: u8,
    pub tally: Tally,
    pub whole: i64,
}

#[unsafe(no_mangle)]
pub extern "C" fn leaf_totals(
    p_ac: f32,
    v_ac: f32,
    v_dc: f32,
    i_ac: f32,
    i_dc: f32,
    r: f32,
) -> Figures
    ensures { result ≡ totals p_ac v_ac v_dc i_ac i_dc r }
{
    figures::load::totals(p_ac, v_ac, v_dc, i_ac, i_dc, r)
}

#[unsafe(no_mangle)]
pub extern "C" fn leaf_ema(win: f32, a: f32, x: f32, y: f32) -> f32
    ensures { result ≡ ema win a x y }
{
    figures::smoothing::ema(win, a, x, y)
}

#[unsafe(no_mangle)]
pub extern "C" fn leaf_ema_rel(a: f32, floor: f32, x: f32, y: f32) -> f32
    ensures { result ≡ ema_rel a floor x y }
{
    figures::smoothing::ema_rel(a, floor, x, y)
}

// The answer of an add to a, as a struct.
fn numbered_sum(a: Acc, answer: Result<Sum, Refusal>) -> NumberedSum
    ensures { result ≡ numbered_sum a answer }
{
    let refusal = told_number(&answer);
    match answer {
        Ok(sum) => NumberedSum {
            refusal,
            acc: sum.acc,
            whole: sum.gained,
        },
        Err(_) => NumberedSum {
            refusal,
            acc: a,
            whole: 0,
        },
    }
}

#[unsafe(no_mangle)]
pub extern "C" fn leaf_acc_step(a: Acc, millijoules: f32) -> NumberedSum
    ensures { result ≡ numbered_sum a (acc_step a millijoules) }
{
    numbered_sum(a, figures::acc::step(a, millijoules))
}

#[unsafe(no_mangle)]
pub extern "C" fn leaf_add_to(a: Acc, joules: f32) -> NumberedSum
    ensures { result ≡ numbered_sum a (add_to a joules) }
{
    numbered_sum(a, figures::acc::add_to(a, joules))
}

#[unsafe(no_mangle)]
pub extern "C" fn leaf_fresh_tally() -> Tally
    ensures { result ≡ fresh_tally }
{
    Tally::ZERO
}

#[unsafe(no_mangle)]
pub extern "C" fn leaf_accounting_step(
    t: Tally,
    dt: u64,
    p: f32,
    s: f32,
    active: bool,
) -> NumberedTally
    ensures { result ≡ numbered_tally t (accounting_step t dt p s active) }
{
    let answer = figures::tally::accounting_step(t, dt, p, s, active);
    let refusal = told_number(&answer);
    match answer {
        Ok(counted) => NumberedTally {
            refusal,
            tally: counted.tally,
            whole: counted.gained,
        },
        Err(_) => NumberedTally {
            refusal,
            tally: t,
            whole: 0,
        },
    }
}
