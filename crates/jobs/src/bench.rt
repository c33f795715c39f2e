//! A job's beginning, the beginning of each of its steps, and its end.
ghost use Rattle.std.specs.Prelude.{◌≡◌};
ghost use Rattle.jobs.specs.Bench.{kind_in, place_in, unmarked, ended, step_at, next, begun, turned_away};

use state::{Corrections, Cycle, Job, Mode, Ranges, count_up, deadline};
use steps::place::{Kind, Place};
use tables::constants::{JR_METHOD, JR_RUN};

/// The part of a meter that a job works on: all that a job may change, but `cal` (by its start) and
/// `t_poll` (by a frame).
#[derive(Clone, Copy)]
pub struct Bench {
    pub mode: Mode,
    pub ranges: Ranges,
    pub cycle: Cycle,
    pub corrections: Corrections,
    pub job: Job,
}

/// What a call leaves of it, and the deadline of its mark to the host, which is there exactly where a step begins.
/// (`Started` and `Polled` have a mark too, but what is left there is a whole meter, and with `Polled` a count: one
/// generic struct for the three would name none of these.)
#[derive(Clone, Copy)]
pub struct Served {
    pub bench: Bench,
    pub mark: Option<u64>,
}

impl Served {
    /// No mark to the host.
    pub(crate) fn unmarked(bench: Bench) -> Served
        ensures { result ≡ unmarked bench }
    {
        Served { bench, mark: None }
    }
}

impl Bench {
    /// The running job's kind.
    #[tactic(auto, unfolding(crate::specs::Bench::kind_in))]
    pub(crate) fn kind(self) -> Kind
        ensures { result ≡ kind_in self.job }
    {
        Kind::from(self.job.job)
    }

    /// What the running job's step measures.
    #[tactic(auto, unfolding(crate::specs::Bench::place_in))]
    pub(crate) fn place(self) -> Place
        ensures { result ≡ place_in self.job }
    {
        Place::of(self.kind(), self.job.job_dc, self.job.job_step)
    }

    /// The running job ends with this result: the ranges and automatic marks found at its start come back, and the host is
    /// to re-apply if the meter is on. What is stored of zeros and gains stays.
    #[tactic(auto, unfolding(crate::specs::Bench::ended))]
    pub(crate) fn end_with(mut self, res: u8) -> Bench
        ensures { result ≡ ended res self }
    {
        self.mode.cal_req = self.mode.on;
        self.ranges = self.job.job_save;
        self.job.job = 0;
        self.job.job_res = res;
        self
    }

    /// Step `step` begins: nothing is counted yet, some ready frames are to be dropped, and the host writes
    /// the row and goes on at the deadline.
    #[tactic(auto, unfolding(crate::specs::Bench::step_at))]
    pub(crate) fn step_at(self, now: u64, step: u8) -> Served
        ensures { result ≡ step_at now step self }
    {
        let begun = Bench {
            job: Job {
                job_step: step,
                job_n: 0,
                job_a: 0.0,
                job_b: 0.0,
                ..self.job
            },
            ..self
        };
        let place = begun.place();
        let at = deadline(now, place.settle_ms());
        Served {
            bench: Bench {
                ranges: begun.kind().step_ranges(step, self.ranges),
                cycle: Cycle {
                    skip: place.drops(),
                    stat: place.stat(),
                    ..self.cycle
                },
                ..begun
            },
            mark: Some(at),
        }
    }

    /// The step after the one that is done begins.
    #[tactic(auto, unfolding(crate::specs::Bench::next))]
    pub(crate) fn next(self, now: u64) -> Served
        ensures { result ≡ next now self }
    {
        self.step_at(now, count_up(self.job.job_step))
    }

    /// A job begins: what it finds is noted, and step 0 begins.
    #[tactic(auto, unfolding(crate::specs::Bench::begun))]
    pub(crate) fn begin(self, now: u64, kind: Kind) -> Served
        ensures { result ≡ begun now kind self }
    {
        let number = u8::from(kind);
        let Corrections { zx, zd, .. } = self.corrections;
        let job = Job {
            job: number,
            job_zx: zx,
            job_zd: zd,
            job_save: self.ranges,
            job_res: JR_RUN,
            job_vr: self.ranges.vr,
            job_last: number,
            used: 0,
            ..self.job
        };
        Bench { job, ..self }.step_at(now, 0)
    }
}

/// A start that the alternating method refuses.
#[tactic(auto, unfolding(crate::specs::Bench::turned_away))]
pub(crate) fn turned_away(kind: Kind, before: Job) -> Job
    ensures { result ≡ turned_away kind before }
{
    Job {
        job_last: u8::from(kind),
        job_res: JR_METHOD,
        ..before
    }
}
