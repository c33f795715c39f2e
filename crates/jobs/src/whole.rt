//! The jobs on a whole meter. Whether a call is refused is module 7's part.
ghost use Rattle.std.specs.Prelude.{◌≡◌};
ghost use Rattle.jobs.specs.Whole.{bench_in, with_bench, job_started, job_turned_away, job_ended, job_polled};

use crate::bench::{Bench, turned_away};
use codes::Frame;
use phase::cal_off;
use state::Pw;
use steps::place::Kind;

/// What a job's start leaves, and the mark to the host: its deadline.
#[derive(Clone, Copy)]
pub struct Started {
    pub pw: Pw,
    pub mark: Option<u64>,
}

/// What a frame in a job leaves, its mark, and the ready frames that the job has used.
#[derive(Clone, Copy)]
pub struct Polled {
    pub pw: Pw,
    pub mark: Option<u64>,
    pub used: u8,
}

/// The part of a meter that a job works on.
// Field by field, here and in `put_into`: the meter has no `Bench` in it, since a C host keeps it in the source's groups.
// Here and below a meter is changed in place: a new one with the rest of the old (`..before`) is copied once more.
impl From<Pw> for Bench {
    ghost from_gives = { λ pw bench. bench ≡ bench_in pw };

    #[tactic(auto, unfolding(crate::specs::Whole::bench_in))]
    fn from(pw: Pw) -> Bench {
        Bench {
            mode: pw.mode,
            ranges: pw.ranges,
            cycle: pw.cycle,
            corrections: pw.corrections,
            job: pw.job,
        }
    }
}

impl Bench {
    // The meter with that changed.
    #[tactic(auto, unfolding(crate::specs::Whole::with_bench))]
    fn put_into(self, before: Pw) -> Pw
        ensures { result ≡ with_bench before self }
    {
        let mut after = before;
        after.mode = self.mode;
        after.ranges = self.ranges;
        after.cycle = self.cycle;
        after.corrections = self.corrections;
        after.job = self.job;
        after
    }
}

/// A job starts, a phase calibration stops.
#[tactic(auto, unfolding(crate::specs::Whole::job_started, crate::specs::Whole::with_bench))]
pub fn job_start(before: Pw, kind: Kind, now: u64) -> Started
    ensures { result ≡ job_started before kind now }
{
    let served = Bench::from(before).begin(now, kind);
    let mut pw = served.bench.put_into(before);
    pw.phase_cal = cal_off(before.phase_cal);
    Started {
        pw,
        mark: served.mark,
    }
}

/// A job's start that is refused with 3.
#[tactic(auto, unfolding(crate::specs::Whole::job_turned_away, crate::specs::Whole::with_bench, crate::specs::Whole::bench_in))]
pub fn job_turned_away(before: Pw, kind: Kind) -> Pw
    ensures { result ≡ job_turned_away before kind }
{
    let mut after = before;
    after.job = turned_away(kind, before.job);
    after
}

/// The running job ends with this result, of any number, as a C host's comparison hands it; where none runs nothing changes.
#[tactic(auto, unfolding(crate::specs::Whole::job_ended, crate::specs::Whole::with_bench, crate::specs::Whole::bench_in, crate::specs::Bench::ended_if_any))]
pub fn job_end(before: Pw, res: u8) -> Pw
    ensures { result ≡ job_ended before res }
{
    if before.job.job == 0 {
        return before;
    }
    Bench::from(before).end_with(res).put_into(before)
}

/// A frame in a job. (Where none runs, it is taken as a gain job's; module 7 calls it only in a job.)
#[tactic(auto, unfolding(crate::specs::Whole::job_polled, crate::specs::Whole::with_bench))]
pub fn job_poll(before: Pw, frame: Frame) -> Polled
    ensures { result ≡ job_polled before frame.now frame.flags frame.codes }
{
    let served = Bench::from(before).job_frame(before.calibration, frame);
    let mut pw = served.bench.put_into(before);
    pw.clock.t_poll = frame.now;
    Polled {
        pw,
        mark: served.mark,
        used: served.bench.job.used,
    }
}
