//! The comparator's window: the two tables of thresholds, and one rule over both.
ghost use Rattle.std.specs.Prelude.{◌≡◌, length};
ghost use Rattle.tables.specs.Window.{away, clears, nearer, picked, walk, nearest, inside, FourBits, joined, cmp_window};

// Codes and levels in two tables a side, where the source has one of pairs: document 01 makes "arrays of pairs two arrays".
// `walk` goes over both at once.

// The upper thresholds: code, and volts above the comparator's zero.
const CMP_RH_CODE: [u8; 12] = [0xF, 0xE, 0xD, 0xC, 0xB, 0xA, 0x9, 0x8, 0x1, 0x0, 0x5, 0x6];

const CMP_RH_LEVEL: [f32; 12] = [
    -0.0208, 0.0, 0.0208, 0.0417, 0.0625, 0.1042, 0.2083, 0.4167, 0.8, 1.6, -0.2, -0.4,
];

// The lower thresholds.
const CMP_RL_CODE: [u8; 12] = [0x8, 0x9, 0xA, 0xB, 0xC, 0xD, 0xE, 0xF, 0x1, 0x0, 0x5, 0x6];

const CMP_RL_LEVEL: [f32; 12] = [
    -0.4167, -0.2083, -0.1042, -0.0625, -0.0417, -0.0208, 0.0, 0.0208, -0.8, -1.6, 0.2, 0.4,
];

// How far a threshold clears the middle.
const M: f32 = 0.006;

/// The two sides of the middle.
#[derive(Clone, Copy, Debug, PartialEq, Eq)]
pub enum Side {
    Upper,
    Lower,
}

/// A threshold: its code, and its level in volts above the comparator's zero.
#[derive(Clone, Copy)]
pub struct Entry {
    pub code: u8,
    pub level: f32,
}

// The middle c moved outward by d: up for the upper side, down for the lower.
#[tactic(auto, unfolding(crate::specs::Window::away))]
fn away(side: Side, c: f32, d: f32) -> f32
    ensures { result ≡ away side c d }
{
    match side {
        Side::Upper => c + d,
        Side::Lower => c - d,
    }
}

// Whether a level lies at the limit or beyond it, outward.
#[tactic(auto, unfolding(crate::specs::Window::clears))]
fn clears(side: Side, limit: f32, v: f32) -> bool
    ensures { result ≡ clears side limit v }
{
    match side {
        Side::Upper => v >= limit,
        Side::Lower => v <= limit,
    }
}

// Whether of two levels beyond the middle on this side v is the nearer one.
#[tactic(auto, unfolding(crate::specs::Window::nearer))]
fn nearer(side: Side, v: f32, w: f32) -> bool
    ensures { result ≡ nearer side v w }
{
    match side {
        Side::Upper => v < w,
        Side::Lower => v > w,
    }
}

// The nearest entry once one more is met.
#[tactic(auto, unfolding(crate::specs::Window::picked))]
fn picked(side: Side, limit: f32, best: Option<Entry>, entry: Entry) -> Option<Entry>
    ensures { result ≡ picked side limit best entry }
{
    if !clears(side, limit, entry.level) {
        return best;
    }
    match best {
        Some(before) if !nearer(side, entry.level, before.level) => best,
        _ => Some(entry),
    }
}

// The nearest entry of a table that clears the limit.
#[tactic(auto, unfolding(crate::specs::Window::walk))]
fn walk(side: Side, limit: f32, codes: &[u8], levels: &[f32]) -> Option<Entry>
    requires { length codes.now ≡ length levels.now }
    ensures { result ≡ walk side limit codes.now levels.now (length levels.now) }
{
    let mut best = None;
    for (&code, &level) in codes.iter().zip(levels) {
        best = picked(side, limit, best, Entry { code, level });
    }
    best
}

// Whether level v lies short of the middle c moved outward by 0.9 of the swing a.
#[tactic(auto, unfolding(crate::specs::Window::inside))]
fn inside(side: Side, c: f32, a: f32, v: f32) -> bool
    ensures { result ≡ inside side c a v }
{
    nearer(side, v, away(side, c, 0.9 * a))
}

// R21 of two picks: none where a side has no entry, or one that is not inside the swing.
#[tactic(auto, unfolding(crate::specs::Window::joined, crate::specs::Window::FourBits))]
fn joined(c: f32, a: f32, up: Option<Entry>, down: Option<Entry>) -> Option<u8>
    requires { FourBits up × FourBits down }
    ensures { result ≡ joined c a up down }
{
    let high = up?;
    let low = down?;
    let both = inside(Side::Upper, c, a, high.level) && inside(Side::Lower, c, a, low.level);
    both.then_some(high.code * 16 + low.code)
}

// The nearest entry of a side's table that clears the middle c.
#[tactic(auto, using(crate::proofs::Tables::upper_codes, crate::proofs::Tables::lower_codes, crate::proofs::Tables::upper_levels, crate::proofs::Tables::lower_levels, crate::proofs::Walk::four_bits))]
fn nearest(side: Side, c: f32) -> Option<Entry>
    ensures picked { result ≡ nearest side c }
    ensures four_bits { FourBits result }
{
    let limit = away(side, c, M);
    match side {
        Side::Upper => walk(side, limit, &CMP_RH_CODE, &CMP_RH_LEVEL),
        Side::Lower => walk(side, limit, &CMP_RL_CODE, &CMP_RL_LEVEL),
    }
}

/// R21 for a comparator whose input has its middle (its DC part) at c volts and swings by a volts (the
/// AC part's RMS): the nearest threshold on each side that clears the middle, where both lie within
/// 0.9 of the swing.
#[tactic(auto, unfolding(crate::specs::Window::cmp_window))]
pub fn cmp_window(c: f32, a: f32) -> Option<u8>
    ensures { result ≡ cmp_window c a }
{
    joined(c, a, nearest(Side::Upper, c), nearest(Side::Lower, c))
}
