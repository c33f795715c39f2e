//! The text of an answer, `(N R J)` and a line feed.
ghost use Rattle.std.specs.Prelude.{◌≡◌, ◌+◌, ◌≤◌, ◌++◌, length, decimal};
ghost use Rattle.pwline.specs.Text.{refusal_text, answer_text};

use arrayvec::ArrayVec;

// Three numbers of 20 digits and what stands around them have room.
const ROOM: usize = 72;

/// The answer to a line: its number, the refusal number where the line spells an order or a frame, `job_res`. (A number,
/// since it is what is written, and done, 0, is no `Refusal`.)
#[derive(Clone, Copy, Debug)]
pub struct Answer {
    pub number: u64,
    pub refusal: Option<u8>,
    pub job_res: u8,
}

// The number behind the text, in decimal.
fn put_number(text: &mut ArrayVec<u8, ROOM>, n: u64)
    requires { length text.old.items + 20 ≤ 72 }
    ensures text { text.new.items ≡ text.old.items ++ decimal n }
    ensures few { length text.new.items ≤ length text.old.items + 20 }
{
    let mut digits = itoa::Buffer::new();
    let _ = text.try_extend_from_slice(digits.format(n).as_bytes());
}

// The refusal number behind the text, or `-`.
fn put_refusal(text: &mut ArrayVec<u8, ROOM>, refusal: Option<u8>)
    requires { length text.old.items + 20 ≤ 72 }
    ensures text { text.new.items ≡ text.old.items ++ refusal_text refusal }
    ensures few { length text.new.items ≤ length text.old.items + 20 }
{
    match refusal {
        Some(refusal) => put_number(text, u64::from(refusal)),
        None => text.push(b'-'),
    }
}

impl Answer {
    /// `(N R J)` and a line feed. (No `Display`, whose contract says nothing of a text that its body gives up: this one
    /// cannot fail.)
    pub fn text(&self) -> ArrayVec<u8, ROOM>
        ensures { result.items ≡ answer_text self.now }
    {
        let mut text = ArrayVec::new();
        text.push(b'(');
        put_number(&mut text, self.number);
        text.push(b' ');
        put_refusal(&mut text, self.refusal);
        text.push(b' ');
        put_number(&mut text, u64::from(self.job_res));
        text.push(b')');
        text.push(b'\n');
        text
    }
}
