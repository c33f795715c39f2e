//! What a call leaves, and what it answers.
ghost use Rattle.std.specs.Prelude.{◌≡◌};
ghost use Rattle.orders.specs.Answer.{late, refused_if, refused_with, told, marked, done};

use readouts::readings::Readouts;
use refusals::Refusal;
use state::Pw;
use values::power_vals::PowerVals;

/// What a frame shows, the source's `Reading`: the readouts, and the values that they are of.
#[derive(Clone, Copy)]
pub struct Reading {
    pub readouts: Readouts,
    pub vals: PowerVals,
}

/// What a call that is done answers: the mark to the host, where there is one, as its deadline; how many ready frames
/// the job has used, 0 for a call that is no frame in a job; and the reading, where there is one.
#[derive(Clone, Copy)]
pub struct Answer {
    pub mark: Option<u64>,
    pub used: u8,
    pub reading: Option<Reading>,
}

/// The meter after a call, and its answer; a refused call's is its refusal alone.
#[derive(Clone, Copy)]
pub struct Step {
    pub pw: Pw,
    pub answer: Result<Answer, Refusal>,
}

// The first time that is refused, 2^48 ms.
const LATE: u64 = 1 << 48;

/// Refuses a call whose time is too late for it, with 5.
#[tactic(auto, unfolding(crate::specs::Answer::late))]
pub fn in_time(time: u64) -> Result<(), Refusal>
    ensures { result ≡ refused_if (late time) Refusal.Late }
{
    if time >= LATE {
        return Err(Refusal::Late);
    }
    Ok(())
}

/// A refused call: its refusal alone.
#[tactic(auto, unfolding(crate::specs::Answer::refused_with))]
pub fn refused_with(refusal: Refusal, pw: Pw) -> Step
    ensures { result ≡ refused_with refusal pw }
{
    Step {
        pw,
        answer: Err(refusal),
    }
}

/// The step of a call that is carried out; one that is refused leaves the meter as it was before.
pub(crate) fn told(outcome: Result<Step, Refusal>, before: Pw) -> Step
    ensures { result ≡ told outcome before }
{
    match outcome {
        Ok(step) => step,
        Err(refusal) => refused_with(refusal, before),
    }
}

/// A call that is done, with this mark; outside a job, and with no reading.
#[tactic(auto, unfolding(crate::specs::Answer::marked))]
pub fn marked(pw: Pw, mark: Option<u64>) -> Step
    ensures { result ≡ marked pw mark }
{
    let answer = Answer {
        mark,
        used: 0,
        reading: None,
    };
    Step {
        pw,
        answer: Ok(answer),
    }
}

/// The same with no mark.
#[tactic(auto, unfolding(crate::specs::Answer::done))]
pub fn done(pw: Pw) -> Step
    ensures { result ≡ done pw }
{
    marked(pw, None)
}
