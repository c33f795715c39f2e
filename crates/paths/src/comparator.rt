//! The comparator's source and window after a voltage or current result (the source's
//! `pw_cmp_select`).
ghost use Rattle.std.specs.Prelude.{◌≡◌};
ghost use Rattle.paths.specs.Comparator.{tap_scale, op_volts, chosen, cmp_select};

use crate::measuring::Measuring;
use state::{Comparator, both_seen};
use tables::constants::{R20_PB4, R20_SENSE, R21_DEFAULT};
use tables::lookups::{kv, shunt_ohm};
use tables::ranges::iu_ir;
use tables::window::cmp_window;
use takes::scales::Instrument;

// Functions, and no methods of `Instrument`: that is a type of another crate, `takes`.

// Volts at the jack for a volt at the V tap.
#[tactic(auto, unfolding(crate::specs::Comparator::tap_scale))]
fn tap_scale(with: &Instrument, vr: u8) -> f32
    ensures { result ≡ tap_scale with.now vr }
{
    kv(vr) * with.gain(vr)
}

// AC volts at the current's amplifier.
#[tactic(auto, unfolding(crate::specs::Comparator::op_volts))]
fn op_volts(with: &Instrument, ik: u8, i_ac: f32) -> f32
    ensures { result ≡ op_volts with.now.description ik i_ac }
{
    i_ac * shunt_ohm(iu_ir(ik).iu) * with.mv_div(ik)
}

// The V tap with a window; else the current with the default one where its AC volts reach 25 mV; else
// what was chosen before, and no frequency.
#[tactic(auto, unfolding(crate::specs::Comparator::chosen))]
fn chosen(window: Option<u8>, op: f32, before: Comparator) -> Comparator
    ensures { result ≡ chosen window op before }
{
    match window {
        Some(w) => Comparator {
            r20: R20_SENSE,
            r21: w,
            f_ok: true,
            ..before
        },
        None if op >= 0.025 => Comparator {
            r20: R20_PB4,
            r21: R21_DEFAULT,
            f_ok: true,
            ..before
        },
        None => Comparator {
            f_ok: false,
            ..before
        },
    }
}

/// The choice, once voltage and current are marked as measured; before that nothing changes.
#[tactic(auto, unfolding(crate::specs::Comparator::cmp_select))]
pub(crate) fn cmp_select(with: &Instrument, before: &Measuring) -> Comparator
    ensures { result ≡ cmp_select with.now before.now.ranges before.now.cycle.seen before.now.parts before.now.comparator }
{
    if !both_seen(before.cycle.seen) {
        return before.comparator;
    }
    let k = tap_scale(with, before.ranges.vr);
    let window = cmp_window(before.parts.v_dc / k, before.parts.v_ac / k);
    let op = op_volts(with, before.ranges.ik, before.parts.i_ac);
    chosen(window, op, before.comparator)
}
