//! One result of each kind: turned down and nothing changes, or taken.
ghost use Rattle.std.specs.Prelude.{◌≡◌};
ghost use Rattle.takes.specs.Take.{xy_too_large, root_too_large, root_within, phase_counted, take_xy, take_xx, take_yy, take, take_alt_v, take_alt_i, take_alt, dc_v_taken, seen_with_power, dc_i_taken};

use crate::scales::{Instrument, rms_root};
use codes::Codes;
use state::{Parts, PhaseCal, Quantity, Ranges, also_seen, both_seen, count_up};
use tables::constants::{R34_XX, R34_XY, R34_YY};

/// What a result may change.
#[derive(Clone, Copy)]
pub struct Measured {
    pub parts: Parts,
    pub seen: u8,
    pub phase_cal: PhaseCal,
}

// Whether |RMS| is above 2^36.
#[tactic(auto, unfolding(crate::specs::Take::xy_too_large))]
fn xy_too_large(rms: i64) -> bool
    ensures { result ≡ xy_too_large rms }
{
    rms.unsigned_abs() > 1 << 36
}

// Whether the root is above 262,144.
#[tactic(auto, unfolding(crate::specs::Take::root_too_large))]
fn root_too_large(root: f32) -> bool
    ensures { result ≡ root_too_large root }
{
    root > 262144.0
}

// The root of the RMS code, where it is not above that.
#[tactic(auto, unfolding(crate::specs::Take::root_within))]
fn root_within(rms: i64) -> Option<f32>
    ensures { result ≡ root_within rms }
{
    let root = rms_root(rms);
    if root_too_large(root) {
        None
    } else {
        Some(root)
    }
}

// The phase calibration's sum and count after a power p: one more while it runs, voltage and current
// are marked, and their AC parts' product is above zero.
#[tactic(auto, unfolding(crate::specs::Take::phase_counted))]
fn phase_counted(before: PhaseCal, p: f32, seen: u8, parts: Parts) -> PhaseCal
    ensures { result ≡ phase_counted before p seen parts }
{
    let s = parts.v_ac * parts.i_ac;
    if before.cal != 0 && both_seen(seen) && s > 0.0 {
        PhaseCal {
            cal_n: count_up(before.cal_n),
            cal_acc: before.cal_acc + p / s,
            ..before
        }
    } else {
        before
    }
}

// With voltage and current marked the power is marked too.
#[tactic(auto, unfolding(crate::specs::Take::seen_with_power))]
fn seen_with_power(seen: u8) -> u8
    ensures { result ≡ seen_with_power seen }
{
    if both_seen(seen) {
        also_seen(seen, Quantity::Power)
    } else {
        seen
    }
}

// The takes of a voltage and of a current stay apart, here as in each path: they read by other scales, words and
// zeros and into other parts, and one for both would take all of that as parameters. Nor do the ranges, the codes and
// what was before make one struct: the codes come with the frame, the other two are of the meter, and only XY and the
// two that choose a take need both ranges.
impl Instrument {
    // XY: the power.
    #[tactic(auto, unfolding(crate::specs::Take::take_xy))]
    fn take_xy(&self, ranges: Ranges, codes: Codes, before: Measured) -> Option<Measured>
        ensures { result ≡ take_xy self.now ranges codes before }
    {
        if xy_too_large(codes.rms) {
            return None;
        }
        let p = self.power(ranges, codes.rms);
        let i_dc = self.dc_amps(ranges.ik, codes.lpf);
        let parts = before.xy_parts(ranges, p, i_dc);
        let seen = also_seen(before.seen, Quantity::Power);
        Some(Measured {
            parts,
            seen,
            phase_cal: phase_counted(before.phase_cal, p, seen, parts),
        })
    }

    // XX: the current.
    #[tactic(auto, unfolding(crate::specs::Take::take_xx, crate::specs::Take::root_within))]
    fn take_xx(&self, ik: u8, codes: Codes, before: Measured) -> Option<Measured>
        ensures { result ≡ take_xx self.now ik codes before }
    {
        let root = root_within(codes.rms)?;
        let i_ac = self.ac_amps(ik, root);
        let i_dc = self.dc_amps(ik, codes.lpf);
        Some(Measured {
            parts: before.i_parts(ik, i_ac, i_dc),
            seen: also_seen(before.seen, Quantity::Current),
            ..before
        })
    }

    // YY: the voltage.
    #[tactic(auto, unfolding(crate::specs::Take::take_yy, crate::specs::Take::root_within))]
    fn take_yy(&self, vr: u8, codes: Codes, before: Measured) -> Option<Measured>
        ensures { result ≡ take_yy self.now vr codes before }
    {
        let root = root_within(codes.rms)?;
        let v_ac = self.ac_volts(vr, root);
        let v_dc = self.dc_volts(vr, codes.lpf);
        Some(Measured {
            parts: before.v_parts(vr, v_ac, v_dc),
            seen: also_seen(before.seen, Quantity::Voltage),
            ..before
        })
    }

    /// Method B: one result, by R34. None: it is turned down, as any other R34 is, and nothing changes.
    // R34 is a number and no enum: it is the chip's register, which a C host keeps in the state.
    #[tactic(auto, unfolding(crate::specs::Take::take))]
    pub fn take(&self, ranges: Ranges, stat: u8, codes: Codes, before: Measured) -> Option<Measured>
        ensures { result ≡ take self.now ranges stat codes before }
    {
        match stat {
            R34_XY => self.take_xy(ranges, codes, before),
            R34_XX => self.take_xx(ranges.ik, codes, before),
            R34_YY => self.take_yy(ranges.vr, codes, before),
            _ => None,
        }
    }

    // The alternating method's voltage.
    #[tactic(auto, unfolding(crate::specs::Take::take_alt_v))]
    fn take_alt_v(&self, vr: u8, root: f32, before: Measured) -> Measured
        ensures { result ≡ take_alt_v self.now vr root before }
    {
        let v_ac = self.alt_volts(vr, root);
        Measured {
            parts: before.alt_v_parts(vr, v_ac),
            seen: also_seen(before.seen, Quantity::Voltage),
            ..before
        }
    }

    // The alternating method's current.
    #[tactic(auto, unfolding(crate::specs::Take::take_alt_i))]
    fn take_alt_i(&self, ik: u8, root: f32, lpf: i32, before: Measured) -> Measured
        ensures { result ≡ take_alt_i self.now ik root lpf before }
    {
        let i_ac = self.alt_amps(ik, root);
        let i_dc = self.alt_dc_amps(ik, lpf);
        Measured {
            parts: before.i_parts(ik, i_ac, i_dc),
            seen: also_seen(before.seen, Quantity::Current),
            ..before
        }
    }

    /// The alternating method: voltage in even phases, current in odd ones. None: the result is turned
    /// down, and nothing changes.
    #[tactic(auto, unfolding(crate::specs::Take::take_alt, crate::specs::Take::root_within))]
    pub fn take_alt(
        &self,
        ranges: Ranges,
        phase: u8,
        codes: Codes,
        before: Measured,
    ) -> Option<Measured>
        ensures { result ≡ take_alt self.now ranges phase codes before }
    {
        let root = root_within(codes.rms)?;
        Some(if phase % 2 == 0 {
            self.take_alt_v(ranges.vr, root, before)
        } else {
            self.take_alt_i(ranges.ik, root, codes.lpf, before)
        })
    }

    /// The DC row's voltage. Nothing is turned down.
    #[tactic(auto, unfolding(crate::specs::Take::dc_v_taken))]
    pub fn dc_v_taken(&self, vr: u8, codes: Codes, before: Measured) -> Measured
        ensures { result ≡ dc_v_taken self.now vr codes before }
    {
        let v_dc = self.dc_volts(vr, codes.lpf);
        let vac_dc = self.ac_volts(vr, rms_root(codes.rms));
        Measured {
            parts: before.dc_v_parts(vr, v_dc, vac_dc),
            seen: also_seen(before.seen, Quantity::Voltage),
            ..before
        }
    }

    /// The DC row's current, of AD1.
    #[tactic(auto, unfolding(crate::specs::Take::dc_i_taken))]
    pub fn dc_i_taken(&self, ik: u8, codes: Codes, before: Measured) -> Measured
        ensures { result ≡ dc_i_taken self.now ik codes before }
    {
        let i_dc = self.ad1_amps(ik, codes.ad1);
        Measured {
            parts: before.dc_i_parts(ik, i_dc),
            seen: seen_with_power(also_seen(before.seen, Quantity::Current)),
            ..before
        }
    }
}
