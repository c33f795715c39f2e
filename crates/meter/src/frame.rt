//! The frame call: refusals, then a frame in a job, or one that is measured, and accounted where it gives a
//! reading.
ghost use Rattle.std.specs.Prelude.{◌≡◌};
ghost use Rattle.meter.specs.Frame.{measured, in_job, poll};
ghost use Rattle.meter.specs.Divided.{read_entry, entry, basis_after, ledger_after, measurement, measured_answer, after_measurement, open_with, open_frame};

use accounting::{Ledger, posted};
use codes::{Frame, decode};
use jobs::whole::job_poll;
use orders::answer::{Answer, Reading, Step, in_time, refused_with};
use paths::measuring::{Measuring, Setup};
use paths::ring::ring_after;
use paths::whole::with_measuring;
use readouts::readings::reading_vals;
use refusals::Refusal;
use state::{Clock, Pw};
use values::methods::{alternating, measured};
use values::vals::Basis;

// What a frame outside a job enters in the ledger, and the reading that it gives. (`Measurement` names these two again:
// with an `Entered` in it a meter would be put together from `made.measuring` and `made.entered.ledger`, and its answer
// from `made.mark` and `made.entered.reading`.)
#[derive(Clone, Copy)]
struct Entered {
    ledger: Ledger,
    reading: Option<Reading>,
}

/// What a frame outside a job comes to: what its path and its accounting change, the mark, the reading, whether
/// an AD1 result was taken. (No `Outcome` in it: whether that goes on to the values says nothing once they are entered.)
#[derive(Clone, Copy)]
pub struct Measurement {
    pub measuring: Measuring,
    pub ledger: Ledger,
    pub mark: Option<u64>,
    pub reading: Option<Reading>,
    pub ad1_taken: bool,
}

impl Measurement {
    /// What the frame answers: outside a job none is used.
    pub fn answer(&self) -> Answer
        ensures { result ≡ measured_answer self.now }
    {
        Answer {
            mark: self.mark,
            used: 0,
            reading: self.reading,
        }
    }
}

// A frame with values: they are accounted, and what is shown is worked out after that.
#[tactic(auto, unfolding(crate::specs::Divided::read_entry))]
fn read_entry(basis: Basis, before: Ledger, time: u64) -> Result<Entered, Refusal>
    ensures { result ≡ read_entry basis before time }
{
    let load = basis.load();
    let active = !alternating(basis.mode);
    let ledger = posted(before, active, basis.settings.i_cont, load, time)?;
    let vals = basis.values(load, ledger.into());
    let readouts = reading_vals(vals);
    Ok(Entered {
        ledger,
        reading: Some(Reading { readouts, vals }),
    })
}

// A frame that the source takes on to `pw_vals` is read, where that has values. (`to_values` is tested here, with whether
// there are values: tested in `measure`, the ledger with nothing entered would be written in both functions.)
#[tactic(auto, unfolding(crate::specs::Divided::entry))]
fn entry(to_values: bool, basis: Basis, before: Ledger, time: u64) -> Result<Entered, Refusal>
    ensures { result ≡ entry to_values basis before time }
{
    if to_values && measured(basis.mode, basis.seen) {
        return read_entry(basis, before, time);
    }
    Ok(Entered {
        ledger: before,
        reading: None,
    })
}

// What the values are worked out from after the path.
#[tactic(auto, unfolding(crate::specs::Divided::basis_after, values::specs::Divided::basis_in))]
fn basis_after(before: Pw, measuring: Measuring) -> Basis
    ensures { result ≡ basis_after before measuring }
{
    Basis {
        ranges: measuring.ranges,
        parts: measuring.parts,
        seen: measuring.cycle.seen,
        comparator: measuring.comparator,
        ..Basis::from(before)
    }
}

// What the accounting changes, after the path; the frame's time is the last frame's. (No `Ledger::from(Pw)` with an
// update: it would have this one caller, which gives two of the six fields anew.)
#[tactic(auto, unfolding(crate::specs::Divided::ledger_after))]
fn ledger_after(before: Pw, measuring: Measuring, time: u64) -> Ledger
    ensures { result ≡ ledger_after before measuring time }
{
    Ledger {
        tally: before.tally,
        clock: Clock {
            t_poll: time,
            ..before.clock
        },
        powers: before.powers,
        over_t0: before.over_t0,
        phase_cal: measuring.phase_cal,
        cal_req: before.mode.cal_req,
    }
}

/// A frame outside a job up to where the meter is put together; `Err(Full)` where the accounting is full.
#[tactic(auto, unfolding(crate::specs::Divided::measurement))]
pub fn measure(before: Pw, frame: Frame) -> Result<Measurement, Refusal>
    ensures { result ≡ measurement before frame }
{
    let setup = Setup::from(before);
    let found = Measuring::from(before);
    let outcome = paths::frame::frame(&setup, frame, found);
    let basis = basis_after(before, outcome.measuring);
    let unposted = ledger_after(before, outcome.measuring, frame.now);
    let entered = entry(outcome.to_values, basis, unposted, frame.now)?;
    Ok(Measurement {
        measuring: outcome.measuring,
        ledger: entered.ledger,
        mark: outcome.mark,
        reading: entered.reading,
        ad1_taken: outcome.ad1_taken,
    })
}

/// The meter after it, with what the ring notes. (The ledger's fields one by one: a C host keeps the meter in the source's
/// groups of fields, so there is no `Ledger` in it.)
#[tactic(auto, unfolding(crate::specs::Divided::after_measurement))]
pub fn after_measurement(before: Pw, frame: Frame, made: Measurement) -> Pw
    ensures { result ≡ after_measurement before frame made }
{
    let ring = ring_after(
        before.ring,
        before.mode,
        before.cycle,
        frame,
        made.ad1_taken,
    );
    let mut after = with_measuring(before, made.measuring, ring);
    after.tally = made.ledger.tally;
    after.clock = made.ledger.clock;
    after.powers = made.ledger.powers;
    after.over_t0 = made.ledger.over_t0;
    after.phase_cal = made.ledger.phase_cal;
    after.mode.cal_req = made.ledger.cal_req;
    after
}

// A frame outside a job. Where it is refused the whole frame is undone: the meter is `before`.
#[tactic(auto, using(crate::proofs::Entered::measured_by_law))]
fn outside(before: Pw, frame: Frame) -> Step
    ensures { result ≡ measured before frame.now frame.flags frame.codes }
{
    match measure(before, frame) {
        Err(refusal) => refused_with(refusal, before),
        Ok(made) => Step {
            pw: after_measurement(before, frame, made),
            answer: Ok(made.answer()),
        },
    }
}

// A frame in a job: no reading, and the count of ready frames.
#[tactic(auto, unfolding(crate::specs::Frame::in_job))]
fn in_job(before: Pw, frame: Frame) -> Step
    ensures { result ≡ in_job before frame.now frame.flags frame.codes }
{
    let polled = job_poll(before, frame);
    Step {
        pw: polled.pw,
        answer: Ok(Answer {
            mark: polled.mark,
            used: polled.used,
            reading: None,
        }),
    }
}

/// What becomes of a frame that is not refused at once: it serves a job, or is measured outside of one. (No
/// `Result`: neither of the two is an error.)
#[derive(Clone, Copy, Debug, PartialEq, Eq)]
pub enum Opened {
    InJob(Frame),
    Outside(Frame),
}

// A frame of the right length, in time.
fn open_with(on: bool, job: u8, frame: Frame) -> Result<Opened, Refusal>
    ensures { result ≡ open_with on job frame }
{
    if !on {
        return Err(Refusal::Off);
    }
    if job != 0 {
        return Ok(Opened::InJob(frame));
    }
    Ok(Opened::Outside(frame))
}

/// A frame of the flags and these bytes, which are lent and only read, by whether the meter is on and its job. (Time,
/// flags and bytes are three parameters, here and in `poll`: a C host hands them in so, in three arguments of `pw_frame`.)
#[tactic(auto, unfolding(crate::specs::Divided::open_frame))]
pub fn open_frame(on: bool, job: u8, time: u64, flags: u8, bytes: &[u8]) -> Result<Opened, Refusal>
    ensures { result ≡ open_frame on job time flags bytes.now }
{
    in_time(time)?;
    let frame = Frame {
        flags,
        codes: decode(bytes)?,
        now: time,
    };
    open_with(on, job, frame)
}

/// A frame of the flags and these bytes, which are lent and only read.
#[tactic(auto, using(crate::proofs::Entered::poll_opened_law))]
pub fn poll(before: Pw, time: u64, flags: u8, bytes: &[u8]) -> Step
    ensures { result ≡ poll before time flags bytes.now }
{
    match open_frame(before.mode.on, before.job.job, time, flags, bytes) {
        Ok(Opened::InJob(frame)) => in_job(before, frame),
        Ok(Opened::Outside(frame)) => outside(before, frame),
        Err(refusal) => refused_with(refusal, before),
    }
}
