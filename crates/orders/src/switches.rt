//! The orders on, off, method, coupling and re-apply. `method` and `coupling` have one shape, an order that first ends a
//! job: what they share is `ending_job`, and what is left is what each does.
ghost use Rattle.std.specs.Prelude.{◌≡◌};
ghost use Rattle.orders.specs.Answer.{told};
ghost use Rattle.orders.specs.Switches.{switched_on, switched_off, method_set, takes_force, coupling_set, on, off, method, coupling, reapply};

use crate::answer::{Step, done, in_time, told};
use crate::apply::{applied, applied_if_on, ending_job};
use ranging::apply::Keep;
use refusals::Refusal;
use state::{Mode, Pw};
use tables::constants::{COUP_DC, JR_ABORT};
use tables::ranges::coup_of;

// The meter is on, with DC coupling in force where it is the one asked for.
#[tactic(auto, unfolding(crate::specs::Switches::switched_on))]
fn switched_on(before: Pw, time: u64) -> Step
    ensures { result ≡ switched_on before time }
{
    let mut after = before;
    after.mode.on = true;
    after.mode.dc = before.mode.coup == COUP_DC;
    applied(Keep::Nothing, after, time)
}

// The meter is off; nothing else changes. (`set_run` has the same shape and another field: one function for both would
// take a closure that sets the field, and a definition of that closure.)
#[tactic(auto, unfolding(crate::specs::Switches::switched_off))]
fn switched_off(before: Pw) -> Step
    ensures { result ≡ switched_off before }
{
    let mut after = before;
    after.mode.on = false;
    done(after)
}

// The alternating method, or method B.
#[tactic(auto, unfolding(crate::specs::Switches::method_set))]
fn method_set(before: Pw, time: u64, alt: bool) -> Step
    ensures { result ≡ method_set before time alt }
{
    let mut after = before;
    after.mode.alt = alt;
    applied_if_on(after, time)
}

// Whether the coupling is put in force at once: while on, where that changes, and, whatever it is, where
// the last job's result is JR_ABORT.
#[tactic(auto, unfolding(crate::specs::Switches::takes_force))]
fn takes_force(dc: bool, mode: Mode, job_res: u8) -> bool
    ensures { result ≡ takes_force dc mode job_res }
{
    mode.on && (dc != mode.dc || job_res == JR_ABORT)
}

// The coupling asked for. While off it is only noted.
#[tactic(auto, unfolding(crate::specs::Switches::coupling_set))]
fn coupling_set(before: Pw, time: u64, asked: u8) -> Step
    ensures { result ≡ coupling_set before time asked }
{
    let coup = coup_of(u32::from(asked));
    let dc = coup == COUP_DC;
    let mut after = before;
    after.mode.coup = coup;
    if takes_force(dc, before.mode, before.job.job_res) {
        after.mode.dc = dc;
        return applied(Keep::Nothing, after, time);
    }
    done(after)
}

/// On, whatever it was: a running job ends first.
#[tactic(auto, unfolding(crate::specs::Switches::on))]
pub fn on(before: Pw, time: u64) -> Step
    ensures { result ≡ on before time }
{
    ending_job(before, time, |meter| switched_on(meter, time))
}

/// Off: a running job ends first, while the meter is still on.
#[tactic(auto, unfolding(crate::specs::Switches::off))]
pub fn off(before: Pw, time: u64) -> Step
    ensures { result ≡ off before time }
{
    ending_job(before, time, switched_off)
}

/// The alternating method where `alt`, else method B: a running job ends first.
#[tactic(auto, unfolding(crate::specs::Switches::method))]
pub fn method(before: Pw, time: u64, alt: bool) -> Step
    ensures { result ≡ method before time alt }
{
    ending_job(before, time, |meter| method_set(meter, time, alt))
}

/// The coupling by its number, of which the low two bits count: a running job ends first.
#[tactic(auto, unfolding(crate::specs::Switches::coupling))]
pub fn coupling(before: Pw, time: u64, asked: u8) -> Step
    ensures { result ≡ coupling before time asked }
{
    ending_job(before, time, |meter| coupling_set(meter, time, asked))
}

// A re-apply, or its refusal.
#[tactic(auto, unfolding(crate::specs::Switches::reapply))]
fn try_reapply(before: Pw, time: u64) -> Result<Step, Refusal>
    ensures { told result before ≡ reapply before time }
{
    in_time(time)?;
    if before.job.job != 0 {
        return Err(Refusal::Busy);
    }
    let mut after = before;
    after.mode.cal_req = false;
    Ok(applied(Keep::Nothing, after, time))
}

/// The row is to be written again, on or off; `cal_req` is cleared.
pub fn reapply(before: Pw, time: u64) -> Step
    ensures { result ≡ reapply before time }
{
    told(try_reapply(before, time), before)
}
