//! What several orders do: an apply on a whole meter, and the end of a running job before an order acts.
ghost use Rattle.std.specs.Prelude.{◌≡◌};
ghost use Rattle.std.specs.Bool.{MatchBool};
ghost use Rattle.orders.specs.Answer.{late, refused_with};
ghost use Rattle.orders.specs.Apply.{applied, applied_if_on, aborted};

use crate::answer::{Step, done, in_time, marked, refused_with};
use jobs::whole::job_end;
use ranging::apply::{Keep, apply};
use refusals::Refusal;
use state::Pw;
use tables::constants::JR_ABORT;

/// The source's `pw_apply`: the host writes the row at once, and goes on at the deadline.
#[tactic(auto, unfolding(crate::specs::Apply::applied))]
pub(crate) fn applied(keep: Keep, before: Pw, time: u64) -> Step
    ensures { result ≡ applied keep before time }
{
    let anew = apply(
        keep,
        before.mode,
        before.ranges.vr,
        before.cycle,
        before.comparator,
        time,
    );
    let mut after = before;
    after.cycle = anew.cycle;
    after.comparator = anew.comparator;
    marked(after, Some(anew.deadline))
}

/// An apply with nothing kept, while on.
#[tactic(auto, unfolding(crate::specs::Apply::applied_if_on))]
pub(crate) fn applied_if_on(before: Pw, time: u64) -> Step
    ensures { result ≡ applied_if_on before time }
{
    if before.mode.on {
        return applied(Keep::Nothing, before, time);
    }
    done(before)
}

// A job that runs ends with JR_ABORT: its ranges and automatic marks are put back before the order acts.
#[tactic(auto, unfolding(crate::specs::Apply::aborted))]
fn aborted(before: Pw) -> Pw
    ensures { result ≡ aborted before }
{
    job_end(before, JR_ABORT)
}

/// An order that first ends a running job, and then acts on the meter that it leaves; late, it does neither.
pub(crate) fn ending_job<F: FnOnce(Pw) -> Step>(before: Pw, time: u64, act: F) -> Step
    requires { F.pre act (aborted before) }
    ensures { MatchBool (late time) (result ≡ refused_with Refusal.Late before) (F.post act (aborted before) result) }
{
    if let Err(refusal) = in_time(time) {
        return refused_with(refusal, before);
    }
    act(aborted(before))
}
