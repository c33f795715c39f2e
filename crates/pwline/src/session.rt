//! The input of `pwline`, byte by byte: lines are kept, and each is answered at its end.
ghost use Rattle.std.specs.Prelude.{◌≡◌};
ghost use Rattle.pwline.specs.Obeyed.{told_by, obeyed};
ghost use Rattle.pwline.specs.Divided.{started, ended, ended_answer, fed, fed_answer, last_answer};

use crate::text::Answer;
use arrayvec::ArrayVec;
use lines::{Line, parse};
use meter::frame::poll;
use meter::making::plain_meter;
use orders::answer::Step;
use orders::starts::zero_job;
use orders::switches::on;
use refusals::told_number;
use state::Pw;
use tables::calibration::Calibration;
use tables::description::Description;

// How many bytes of a line are kept. No spelling has more than 90, so a longer line is another one
// whatever follows.
const KEPT: usize = 128;

/// The meter after a line, and its refusal number if the line spells an order or a frame. (A number, as in `Answer`: it is
/// what is written, and done, 0, is no `Refusal`.)
#[derive(Clone, Copy)]
pub struct Reply {
    pub pw: Pw,
    pub refusal: Option<u8>,
}

/// The meter, the number of the line that is being read, and the first bytes of it.
#[derive(Clone, Drop)]
pub struct Session {
    pub pw: Pw,
    pub number: u64,
    pub kept: ArrayVec<u8, KEPT>,
}

// The meter's answer to an order or a frame.
#[tactic(auto, unfolding(crate::specs::Obeyed::told_by))]
fn told_by(step: Step) -> Reply
    ensures { result ≡ told_by step }
{
    Reply {
        pw: step.pw,
        refusal: Some(told_number(&step.answer)),
    }
}

// A whole line, without its line feed.
#[tactic(auto, unfolding(crate::specs::Obeyed::obeyed, crate::specs::Obeyed::not_told))]
fn obey(pw: Pw, line: &[u8]) -> Reply
    ensures { result ≡ obeyed pw line.now }
{
    match parse(line) {
        Some(Line::On(time)) => told_by(on(pw, time)),
        Some(Line::Zero(time)) => told_by(zero_job(pw, time)),
        Some(Line::Poll { time, flags, bytes }) => {
            told_by(poll(pw, time, flags, bytes.as_slice()))
        }
        None => Reply { pw, refusal: None },
    }
}

impl Session {
    /// Document 01's meter, and nothing read yet.
    #[tactic(auto, unfolding(crate::specs::Divided::started))]
    pub fn new() -> Session
        ensures { result ≡ started }
    {
        Session {
            pw: plain_meter(),
            number: 1,
            kept: ArrayVec::new(),
        }
    }

    // The end of a line: it is answered.
    #[tactic(auto, unfolding(crate::specs::Divided::ended, crate::specs::Divided::ended_answer))]
    fn end(&mut self) -> Answer
        ensures session { self.new ≡ ended self.old }
        ensures answer { result ≡ ended_answer self.old }
    {
        let reply = obey(self.pw, &self.kept);
        let answer = Answer {
            number: self.number,
            refusal: reply.refusal,
            job_res: reply.pw.job.job_res,
        };
        self.pw = reply.pw;
        self.number = self.number.wrapping_add(1);
        self.kept.clear();
        answer
    }

    /// A byte of the input, and the answer to the line that it ends.
    #[tactic(auto, unfolding(crate::specs::Divided::fed, crate::specs::Divided::fed_answer, crate::specs::Divided::noted))]
    pub fn feed(&mut self, b: u8) -> Option<Answer>
        ensures session { self.new ≡ fed self.old b }
        ensures answer { result ≡ fed_answer self.old b }
    {
        if b == b'\n' {
            return Some(self.end());
        }
        // A byte for which there is no room changes nothing.
        let _ = self.kept.try_push(b);
        None
    }

    /// The end of the input: a last line without a line feed is answered.
    #[tactic(auto, unfolding(crate::specs::Divided::last_answer))]
    pub fn finish(mut self) -> Option<Answer>
        ensures { result ≡ last_answer self }
    {
        if self.kept.is_empty() {
            return None;
        }
        Some(self.end())
    }
}
