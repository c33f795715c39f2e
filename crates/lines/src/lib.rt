//! A line of document 01's `pwline`: the order or the frame that it spells, if it spells one.
#![tactic(auto)]

ghost use Rattle.std.specs.Prelude.{◌≡◌, ◌<◌, ◌≤◌, length, IfSome};
ghost use Rattle.std.specs.List.{position};
ghost use Rattle.lines.specs.Digits.{digit_in, number_in, byte_in};
ghost use Rattle.lines.specs.Spelling.{is_space, item_of, rest_of, time_in, flags_in, frame_in, poll_line, form_of, line_of};

mod brought;

use arrayvec::ArrayVec;
pub use brought::FrameBytes;

/// An order or a frame, as a line spells it: three forms; a line of none of them is a `None`. Times are in ms.
#[derive(Clone, Copy, Debug)]
pub enum Line {
    On(u64),
    Zero(u64),
    Poll {
        time: u64,
        flags: u8,
        bytes: FrameBytes,
    },
}

// The value of a digit of base 10 or 16, of either case.
fn digit(b: u8, base: u32) -> Option<u8>
    requires least { 10 ≤ base }
    requires greatest { base ≤ 16 }
    ensures value { result ≡ digit_in base b }
    ensures below_base { IfSome result (λ d. d < base) }
{
    Some(char::from(b).to_digit(base)? as u8)
}

// The number that at most 15 decimal digits spell: a time, a number that is read, not one that stands for a kind.
#[tactic(auto, using(crate::proofs::Digits::pow_most, crate::proofs::Digits::a_digit, crate::proofs::Digits::grows, crate::proofs::Digits::read_digit, crate::proofs::Digits::read_other, crate::proofs::Digits::read_end))]
fn number(digits: &[u8]) -> Option<u64>
    requires { length digits.now ≤ 15 }
    ensures { result ≡ number_in 10 digits.now }
{
    let mut number = 0;
    for &b in digits {
        number = number * 10 + u64::from(digit(b, 10)?);
    }
    Some(number)
}

// The byte that two hex digits spell.
fn byte(high: u8, low: u8) -> Option<u8>
    ensures { result ≡ byte_in high low }
{
    Some(digit(high, 16)? * 16 + digit(low, 16)?)
}

// Where the first space stands.
fn space(s: &[u8]) -> Option<usize>
    ensures { result ≡ position is_space s.now }
{
    s.iter().position(|&b| b == b' ')
}

// The first item, and what stands behind the first space.
#[tactic(auto, using(crate::proofs::Items::in_front, crate::proofs::Items::behind, crate::proofs::Items::no_front, crate::proofs::Items::no_more))]
fn split_item(s: &[u8]) -> (&[u8], &[u8])
    ensures item { result.0.now ≡ item_of s.now }
    ensures rest { result.1.now ≡ rest_of s.now }
{
    match space(s) {
        Some(space) => (&s[..space], &s[space + 1..]),
        None => (s, &[]),
    }
}

// 1 to 15 decimal digits.
#[tactic(auto, unfolding(crate::specs::Spelling::is_time))]
fn time(t: &[u8]) -> Option<u64>
    ensures { result ≡ time_in t.now }
{
    if t.is_empty() || 15 < t.len() {
        return None;
    }
    number(t)
}

// Two hex digits.
#[tactic(auto, unfolding(crate::specs::Spelling::is_flags))]
fn flags(f: &[u8]) -> Option<u8>
    ensures { result ≡ flags_in f.now }
{
    let &[high, low] = f else {
        return None;
    };
    byte(high, low)
}

// 2 to 64 hex digits, even in number.
#[tactic(auto, using(crate::proofs::Pairs::first, crate::proofs::Pairs::read_pair, crate::proofs::Pairs::read_none, crate::proofs::Pairs::read_all), unfolding(crate::specs::Spelling::is_frame))]
fn frame(h: &[u8]) -> Option<ArrayVec<u8, 32>>
    ensures { result ≡ frame_in h.now }
{
    if h.len() < 2 || 64 < h.len() || h.len() % 2 != 0 {
        return None;
    }
    let mut bytes = ArrayVec::new();
    for pair in h.chunks_exact(2) {
        bytes.push(byte(pair[0], pair[1])?);
    }
    Some(bytes)
}

// A frame: its time, its flags, and its bytes.
#[tactic(auto, unfolding(crate::specs::Spelling::poll_line))]
fn poll(items: &[u8]) -> Option<Line>
    ensures { result ≡ poll_line (item_of items.now) (item_of (rest_of items.now)) (rest_of (rest_of items.now)) }
{
    let (t, rest) = split_item(items);
    let (f, h) = split_item(rest);
    Some(Line::Poll {
        time: time(t)?,
        flags: flags(f)?,
        bytes: FrameBytes::padded(&frame(h)?),
    })
}

// What stands between the brackets.
#[tactic(auto, unfolding(crate::specs::Spelling::form_of, crate::specs::Spelling::timed_line))]
fn form(s: &[u8]) -> Option<Line>
    ensures { result ≡ form_of s.now }
{
    let (word, items) = split_item(s);
    match word {
        b"on" => Some(Line::On(time(items)?)),
        b"zero" => Some(Line::Zero(time(items)?)),
        b"poll" => poll(items),
        _ => None,
    }
}

/// A line of any length, without its line feed; `None` where it is of another spelling.
#[tactic(auto, unfolding(crate::specs::Spelling::line_of, crate::specs::Spelling::bracketed))]
pub fn parse(line: &[u8]) -> Option<Line>
    ensures { result ≡ line_of line.now }
{
    let [b'(', between @ .., b')'] = line else {
        return None;
    };
    form(between)
}
