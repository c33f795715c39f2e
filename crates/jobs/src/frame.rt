//! A frame in a job.
ghost use Rattle.std.specs.Prelude.{◌≡◌};
ghost use Rattle.jobs.specs.Frame.{counted, by_reading, served, job_frame};

use crate::bench::{Bench, Served};
use codes::{Codes, Frame};
use state::{Cycle, Job, count_up};
use steps::error::JobError;
use steps::reading::{Reading, counted_reading};
use steps::verdict::Means;
use tables::calibration::Calibration;
use tables::constants::JOB_N;

impl Bench {
    // A reading is counted; the third ends its step.
    #[tactic(auto, unfolding(crate::specs::Frame::counted))]
    fn count(self, now: u64, reading: Reading) -> Served
        ensures { result ≡ counted now reading self }
    {
        let job = Job {
            job_n: count_up(self.job.job_n),
            job_a: self.job.job_a + reading.x,
            job_b: self.job.job_b + reading.y,
            ..self.job
        };
        let after = Bench { job, ..self };
        if job.job_n < JOB_N {
            return Served::unmarked(after);
        }
        let means = Means {
            a: job.job_a / 3.0,
            b: job.job_b / 3.0,
        };
        after.step_done(now, means)
    }

    // Of a frame that is not dropped: its reading is counted, or its error ends the job.
    fn count_or_end(self, now: u64, reading: Result<Reading, JobError>) -> Served
        ensures { result ≡ by_reading now reading self }
    {
        match reading {
            Ok(reading) => self.count(now, reading),
            Err(error) => self.end_unmarked(Err(error)),
        }
    }

    // A ready frame at its step: dropped, or the end where it is a signal and none may be, or counted.
    #[tactic(auto, using(crate::proofs::Reading::by_signal), unfolding(crate::specs::Frame::served, crate::specs::Frame::served_by))]
    fn serve(self, now: u64, calibration: Calibration, codes: Codes) -> Served
        ensures { result ≡ served now calibration codes self }
    {
        if self.cycle.skip > 0 {
            let cycle = Cycle {
                skip: self.cycle.skip - 1,
                ..self.cycle
            };
            return Served::unmarked(Bench { cycle, ..self });
        }
        let reading = counted_reading(
            self.place(),
            self.job.job_step,
            calibration,
            self.ranges.vr,
            self.corrections,
            codes,
        );
        self.count_or_end(now, reading)
    }

    /// A frame in a job; one that is not ready changes nothing.
    #[tactic(auto, unfolding(crate::specs::Frame::job_frame))]
    pub(crate) fn job_frame(self, calibration: Calibration, frame: Frame) -> Served
        ensures { result ≡ job_frame frame.now calibration frame.flags frame.codes self }
    {
        if !self.place().is_ready(frame.flags) {
            return Served::unmarked(self);
        }
        let job = Job {
            used: count_up(self.job.used),
            ..self.job
        };
        Bench { job, ..self }.serve(frame.now, calibration, frame.codes)
    }
}
