//! What a step's two means do to the job.
ghost use Rattle.std.specs.Prelude.{◌≡◌, ◌/◌};
ghost use Rattle.tables.specs.Bounds.{at_most};
ghost use Rattle.steps.specs.Error.{result_number};
ghost use Rattle.jobs.specs.Bench.{kind_in};
ghost use Rattle.jobs.specs.Step.{ended_unmarked, zero_done, raw_done, judged, ref_done, gain_done, step_done};

use crate::bench::{Bench, Served};
use state::Corrections;
use steps::error::{JobError, result_number};
use steps::place::Kind;
use steps::verdict::{Means, gain_verdict, zero_mean};

// The round that a step of the gain job belongs to.
#[tactic(auto, unfolding(tables::specs::Bounds::at_most))]
fn round_of(step: u8) -> usize
    ensures { result ≡ at_most 1 (step / 2) }
{
    usize::from((step / 2).min(1))
}

impl Bench {
    /// The job has ended so, with no mark.
    pub(crate) fn end_unmarked(self, end: Result<(), JobError>) -> Served
        ensures { result ≡ ended_unmarked (result_number end) self }
    {
        Served::unmarked(self.end_with(result_number(end)))
    }

    // A step of the zero job is done: its zero is kept with the job; after the last step all thirteen are
    // stored at once.
    #[tactic(auto, unfolding(crate::specs::Step::zero_done))]
    fn zero_done(self, now: u64, zero: i16) -> Served
        ensures { result ≡ zero_done now zero self }
    {
        let mut job = self.job;
        match job.job_step {
            step @ 0..=5 => job.job_zx[usize::from(step)] = zero,
            step @ 6..=11 => job.job_zd[usize::from(step - 6)] = zero,
            _ => {
                let corrections = Corrections {
                    zx: job.job_zx,
                    zd: job.job_zd,
                    zy: zero,
                    zero_ok: true,
                    ..self.corrections
                };
                let stored = Bench {
                    corrections,
                    ..self
                };
                return stored.end_unmarked(Ok(()));
            }
        }
        Bench { job, ..self }.next(now)
    }

    // A raw step of the gain job is done: both are noted whatever the verdict.
    #[tactic(auto, using(tables::proofs::Held::at_most_law), unfolding(crate::specs::Step::raw_done))]
    fn raw_done(self, now: u64, dc: bool, means: Means) -> Served
        ensures { result ≡ raw_done now dc means.a means.b self }
    {
        let mut job = self.job;
        job.job_dc = dc;
        job.job_raw[round_of(job.job_step)] = means.part(dc);
        let noted = Bench { job, ..self };
        match means.raw_verdict(dc, self.ranges.vr) {
            Ok(()) => noted.next(now),
            Err(error) => noted.end_unmarked(Err(error)),
        }
    }

    // The gain job ends by the verdict on both rounds: a good gain is stored for the V range in force.
    #[tactic(auto, unfolding(crate::specs::Step::judged, tables::specs::Bounds::at_most))]
    fn judged(self) -> Served
        ensures { result ≡ judged self }
    {
        let [raw0, raw1] = self.job.job_raw;
        let [ref0, ref1] = self.job.job_ref;
        match gain_verdict(raw0, ref0, raw1, ref1) {
            Ok(gain) => {
                let mut corrections = self.corrections;
                corrections.vgain[usize::from(self.ranges.vr.min(3))] = gain;
                let stored = Bench {
                    corrections,
                    ..self
                };
                stored.end_unmarked(Ok(()))
            }
            Err(error) => self.end_unmarked(Err(error)),
        }
    }

    // A reference step of the gain job is done.
    #[tactic(auto, using(tables::proofs::Held::at_most_law), unfolding(crate::specs::Step::ref_done))]
    fn ref_done(self, now: u64, a: f32) -> Served
        ensures { result ≡ ref_done now a self }
    {
        let mut job = self.job;
        job.job_ref[round_of(job.job_step)] = a;
        let noted = Bench { job, ..self };
        if job.job_step < 3 {
            return noted.next(now);
        }
        noted.judged()
    }

    // A step of the gain job is done; step 0 fixes DC or AC.
    #[tactic(auto, unfolding(crate::specs::Step::gain_done))]
    fn gain_done(self, now: u64, means: Means) -> Served
        ensures { result ≡ gain_done now means.a means.b self }
    {
        match self.job.job_step {
            0 => self.raw_done(now, means.is_dc(), means),
            step if step % 2 == 0 => self.raw_done(now, self.job.job_dc, means),
            _ => self.ref_done(now, means.a),
        }
    }

    /// A step is done, with these means.
    pub(crate) fn step_done(self, now: u64, means: Means) -> Served
        ensures { result ≡ step_done now (kind_in self.job) means.a means.b self }
    {
        match self.kind() {
            Kind::Zero => self.zero_done(now, zero_mean(means.a)),
            Kind::Gain => self.gain_done(now, means),
        }
    }
}
