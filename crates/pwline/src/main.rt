//! Document 01's program `pwline`: it reads standard input, one bracketed form a line, and answers each
//! line.
//!
//! Proved: what each byte of the input does to the session, and the answer that is due for it
//! (`Session::feed`, `Session::finish`); an answer's text (`Answer::text`); that a part of the input
//! leaves the session that all its bytes do, in their order (`feed_all`); that the texts for a whole
//! input, one behind the other, are document 01's answers to its lines (`whole` in proofs/Stated.antt);
//! and that the program is safe and ends. No contract can say what is read and written: that the reads
//! give the input, that the texts are written and in which order, is seen in `write`, `feed_all`,
//! `take_some` and `main`, and tested.
#![tactic(auto)]

mod session;
mod text;

ghost use Rattle.std.specs.Prelude.{◌≡◌};
ghost use Rattle.pwline.specs.Divided.{fed_all, FedSome};

use session::Session;
use std::io::Read;
use text::Answer;

// The answer that is due, if one is. A write that fails is passed over.
fn write(rt: &impl Print, answer: Option<Answer>) {
    if let Some(answer) = answer {
        let _ = rt.write_all(&answer.text());
    }
}

// A part of the input, byte by byte; what is due is written.
#[tactic(auto, using(crate::proofs::Feeding::fed_next, crate::proofs::Feeding::fed_end))]
fn feed_all(rt: &impl Print, session: &mut Session, part: &[u8])
    ensures { session.new ≡ fed_all session.old part.now }
{
    for &b in part {
        write(rt, session.feed(b));
    }
}

// One read, and whether more may come. It is the last at the end of the input, and where it fails.
fn take_some(rt: &impl Print, input: &mut impl Read, session: &mut Session) -> bool
    ensures { FedSome session.old session.new }
{
    let mut part = [0; 4096];
    let n = input.read(&mut part).unwrap_or(0);
    feed_all(rt, session, &part[..n]);
    0 < n
}

// A proved loop has to end, and nothing says that an input does. So the loop counts its turns, to a
// number that no run reaches.
fn main(rt: HostRuntime) {
    let mut input = rt.stdin();
    let mut session = Session::new();
    for _ in 0..u64::MAX {
        if !take_some(&rt, &mut input, &mut session) {
            break;
        }
    }
    write(&rt, session.finish());
}
