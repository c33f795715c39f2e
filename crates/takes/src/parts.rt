//! The smoothed values after a result: a value is stored as it is while its quantity is not marked in
//! `seen`, else smoothed by `ema`. Each function changes only the parts that it names.
ghost use Rattle.std.specs.Prelude.{◌≡◌};
ghost use Rattle.takes.specs.Parts.{smoothed, volts, amps, smoothed_power, xy_parts, i_parts, v_parts, alt_v_parts, dc_v_parts, dc_i_parts};

use crate::scales::i_win;
use crate::take::Measured;
use figures::smoothing::{ema, ema_rel};
use state::{Parts, Quantity, Ranges, has_seen};
use tables::lookups::{acv_win, i_lim, v_lim};

// The smoothed value after x, where y was the one before: x itself while its quantity is not marked. (The marks, the
// weight, the new value and the old one go one by one: the weight is a constant of the source, the new value has just
// been worked out, and the old one is one field of the parts.)
#[tactic(auto, unfolding(crate::specs::Parts::smoothed))]
fn smoothed(seen: u8, quantity: Quantity, win: f32, a: f32, x: f32, y: f32) -> f32
    ensures { result ≡ smoothed seen quantity win a x y }
{
    if has_seen(seen, quantity) {
        ema(win, a, x, y)
    } else {
        x
    }
}

// `volts` and `amps` each name one quantity with the window of its range, so that no caller pairs them.

// A voltage's.
#[tactic(auto, unfolding(crate::specs::Parts::volts))]
fn volts(vr: u8, seen: u8, a: f32, x: f32, y: f32) -> f32
    ensures { result ≡ volts vr seen a x y }
{
    smoothed(seen, Quantity::Voltage, acv_win(vr), a, x, y)
}

// A current's.
#[tactic(auto, unfolding(crate::specs::Parts::amps))]
fn amps(ik: u8, seen: u8, a: f32, x: f32, y: f32) -> f32
    ensures { result ≡ amps ik seen a x y }
{
    smoothed(seen, Quantity::Current, i_win(ik), a, x, y)
}

// `ema_rel` for the power, whose window goes by its size and the ranges.
#[tactic(auto, unfolding(crate::specs::Parts::smoothed_power))]
fn smoothed_power(ranges: Ranges, seen: u8, x: f32, y: f32) -> f32
    ensures { result ≡ smoothed_power ranges seen x y }
{
    if has_seen(seen, Quantity::Power) {
        ema_rel(0.25, 0.01 * v_lim(ranges.vr) * i_lim(ranges.ik), x, y)
    } else {
        x
    }
}

impl Measured {
    /// After XY: the AC power, and the DC current.
    #[tactic(auto, unfolding(crate::specs::Parts::xy_parts))]
    pub(crate) fn xy_parts(&self, ranges: Ranges, p: f32, i_dc: f32) -> Parts
        ensures { result ≡ xy_parts ranges self.now.seen p i_dc self.now.parts }
    {
        Parts {
            p_ac: smoothed_power(ranges, self.seen, p, self.parts.p_ac),
            i_dc: amps(ranges.ik, self.seen, 0.35, i_dc, self.parts.i_dc),
            ..self.parts
        }
    }

    // `i_parts` and `v_parts` change other fields, and by other parts of the way.

    /// After XX or the alternating method's current: both parts of the current.
    #[tactic(auto, unfolding(crate::specs::Parts::i_parts))]
    pub(crate) fn i_parts(&self, ik: u8, i_ac: f32, i_dc: f32) -> Parts
        ensures { result ≡ i_parts ik self.now.seen i_ac i_dc self.now.parts }
    {
        Parts {
            i_ac: amps(ik, self.seen, 0.15, i_ac, self.parts.i_ac),
            i_dc: amps(ik, self.seen, 0.35, i_dc, self.parts.i_dc),
            ..self.parts
        }
    }

    /// After YY: both parts of the voltage.
    #[tactic(auto, unfolding(crate::specs::Parts::v_parts))]
    pub(crate) fn v_parts(&self, vr: u8, v_ac: f32, v_dc: f32) -> Parts
        ensures { result ≡ v_parts vr self.now.seen v_ac v_dc self.now.parts }
    {
        Parts {
            v_ac: volts(vr, self.seen, 0.25, v_ac, self.parts.v_ac),
            v_dc: volts(vr, self.seen, 0.25, v_dc, self.parts.v_dc),
            ..self.parts
        }
    }

    /// After the alternating method's voltage: the AC part; the DC part becomes 0.
    #[tactic(auto, unfolding(crate::specs::Parts::alt_v_parts))]
    pub(crate) fn alt_v_parts(&self, vr: u8, v_ac: f32) -> Parts
        ensures { result ≡ alt_v_parts vr self.now.seen v_ac self.now.parts }
    {
        Parts {
            v_ac: volts(vr, self.seen, 0.25, v_ac, self.parts.v_ac),
            v_dc: 0.0,
            ..self.parts
        }
    }

    /// After the DC row's voltage: the DC part, and its AC volts in `vac_dc`; the AC part becomes 0.
    #[tactic(auto, unfolding(crate::specs::Parts::dc_v_parts))]
    pub(crate) fn dc_v_parts(&self, vr: u8, v_dc: f32, vac_dc: f32) -> Parts
        ensures { result ≡ dc_v_parts vr self.now.seen v_dc vac_dc self.now.parts }
    {
        Parts {
            v_ac: 0.0,
            v_dc: volts(vr, self.seen, 0.5, v_dc, self.parts.v_dc),
            vac_dc: volts(vr, self.seen, 0.25, vac_dc, self.parts.vac_dc),
            ..self.parts
        }
    }

    /// After the DC row's current: the DC part; the AC part and the AC power become 0.
    #[tactic(auto, unfolding(crate::specs::Parts::dc_i_parts))]
    pub(crate) fn dc_i_parts(&self, ik: u8, i_dc: f32) -> Parts
        ensures { result ≡ dc_i_parts ik self.now.seen i_dc self.now.parts }
    {
        Parts {
            p_ac: 0.0,
            i_ac: 0.0,
            i_dc: amps(ik, self.seen, 0.5, i_dc, self.parts.i_dc),
            ..self.parts
        }
    }
}
