//! The ring: the sixteen latest conversions, by `ring_k` modulo 16.
ghost use Rattle.std.specs.Prelude.{◌≡◌};
ghost use Rattle.paths.specs.Ring.{held_dt, noted, note_result, note_current, result_stat, is_dropped, ring_after};

use codes::{Codes, Frame, holds_rms_lpf};
use state::{Cycle, Mode, Ring, elapsed};

/// One conversion: which result it was, whether it was dropped, its codes, and the ms since the last RMS and
/// LPF result, held to 65535, which are 0 for AD1.
#[derive(Clone, Copy)]
pub struct Raw {
    pub stat: u8,
    pub disc: bool,
    pub rms: i64,
    pub lpf: i32,
    pub dt: u16,
}

// The ms since the last RMS and LPF result, held to 65535.
#[tactic(auto, unfolding(crate::specs::Ring::held_dt))]
fn held_dt(now: u64, t_res: u64) -> u16
    ensures { result ≡ held_dt now t_res }
{
    elapsed(now, t_res).min(65535) as u16
}

// The ring with a conversion at `ring_k` modulo 16, which once sixteen are in is the oldest one's place.
#[tactic(auto, unfolding(crate::specs::Ring::noted))]
fn noted(before: Ring, raw: Raw) -> Ring
    ensures { result ≡ noted before raw }
{
    let k = (before.ring_k % 16) as usize;
    let mut after = before;
    after.stat[k] = raw.stat;
    after.disc[k] = raw.disc;
    after.rms[k] = raw.rms;
    after.lpf[k] = raw.lpf;
    after.dt[k] = raw.dt;
    after.ring_k = before.ring_k.wrapping_add(1);
    after
}

// An RMS and LPF result at the time `now`. Which one is a number: R34, or 1 to 3, as the ring that a C host keeps has it.
#[tactic(auto, unfolding(crate::specs::Ring::note_result))]
fn note_result(before: Ring, now: u64, stat: u8, disc: bool, codes: Codes) -> Ring
    ensures { result ≡ note_result before now stat disc codes }
{
    let raw = Raw {
        stat,
        disc,
        rms: codes.rms,
        lpf: codes.lpf,
        dt: held_dt(now, before.t_res),
    };
    let mut after = noted(before, raw);
    after.t_res = now;
    after
}

// An AD1 result of the DC row: it stands in the place of the LPF's code, and no time goes with it.
#[tactic(auto, unfolding(crate::specs::Ring::note_current))]
fn note_current(before: Ring, ad1: i32) -> Ring
    ensures { result ≡ note_current before ad1 }
{
    let raw = Raw {
        stat: 4,
        disc: false,
        rms: 0,
        lpf: ad1,
        dt: 0,
    };
    noted(before, raw)
}

// The number of an RMS and LPF result: 3 in DC coupling, 1 and 2 in the alternating method, R34 in method B.
#[tactic(auto, unfolding(crate::specs::Ring::result_stat))]
fn result_stat(mode: Mode, cycle: Cycle) -> u8
    ensures { result ≡ result_stat mode cycle }
{
    if mode.dc {
        3
    } else if mode.alt {
        1 + cycle.phase % 2
    } else {
        cycle.stat
    }
}

// Whether an RMS and LPF result is dropped.
#[tactic(auto, unfolding(crate::specs::Ring::is_dropped))]
fn is_dropped(mode: Mode, cycle: Cycle) -> bool
    ensures { result ≡ is_dropped mode cycle }
{
    if mode.dc {
        cycle.skip_y > 0
    } else {
        cycle.skip > 0
    }
}

/// The ring after a frame that came upon this cycle: an RMS and LPF result is noted in any case, one of AD1
/// where it was taken. (`ad1_taken` is the outcome's yes or no, which says at the call what it stands for.)
#[tactic(auto, unfolding(crate::specs::Ring::ring_after))]
pub fn ring_after(before: Ring, mode: Mode, cycle: Cycle, frame: Frame, ad1_taken: bool) -> Ring
    ensures { result ≡ ring_after before mode cycle frame ad1_taken }
{
    let stat = result_stat(mode, cycle);
    let first = if holds_rms_lpf(frame.flags) {
        note_result(
            before,
            frame.now,
            stat,
            is_dropped(mode, cycle),
            frame.codes,
        )
    } else {
        before
    };
    if ad1_taken {
        note_current(first, frame.codes.ad1)
    } else {
        first
    }
}
