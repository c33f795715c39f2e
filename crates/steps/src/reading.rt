//! What a ready frame says at its step, and whether it is a signal where the zero job wants none.
ghost use Rattle.std.specs.Prelude.{◌≡◌};
ghost use Rattle.steps.specs.Reading.{zeros_in, old_of, alone, raw_reading, ad1_volts, dc_reference, ac_reference, reading_of, distance, lpf_signal, signal, counted_reading};

use crate::error::JobError;
use crate::place::Place;
use codes::Codes;
use state::Corrections;
use tables::calibration::Calibration;
use tables::constants::{CODE, ZERO_MAX_AD1, ZERO_MAX_LPF, ZERO_MAX_RMS};
use tables::decided::AD1_DIV;
use tables::lookups::{dcv_negk, k_acv, kv};
use takes::scales::{code_less, rms_root, zero_y};

/// The main value and the second value of a frame.
#[derive(Clone, Copy, Debug, PartialEq)]
pub struct Reading {
    pub x: f32,
    pub y: f32,
}

impl Reading {
    // The reading of a step that has one value alone.
    fn alone(x: f32) -> Reading
        ensures { result ≡ alone x }
    {
        Reading { x, y: 0.0 }
    }
}

/// The stored zero of a step of the zero job, 0 while none is stored.
#[tactic(auto, unfolding(crate::specs::Reading::zeros_in))]
pub fn old_zero(corrections: Corrections, step: u8) -> i16
    ensures { result ≡ old_of (zeros_in corrections) step }
{
    if !corrections.zero_ok {
        return 0;
    }
    match step {
        0..=5 => corrections.zx[usize::from(step)],
        6..=11 => corrections.zd[usize::from(step - 6)],
        _ => corrections.zy,
    }
}

// Volts of the V channel, AC and DC, with this zero and no gain.
#[tactic(auto, unfolding(crate::specs::Reading::raw_reading))]
fn raw_reading(vr: u8, zero: i16, codes: Codes) -> Reading
    ensures { result ≡ raw_reading vr zero codes }
{
    let k = kv(vr);
    let x = rms_root(codes.rms) * CODE * k;
    let y = code_less(codes.lpf, zero) * CODE * k;
    Reading { x, y }
}

// The calibration goes beside the V range, the corrections and the codes, and not in takes' `Instrument`, which holds
// words and corrections: that brings the description too, which no step reads, and which the part of a meter that a job
// works on does not have.

// Volts of the AD1 code by the factory's DC V words.
#[tactic(auto, unfolding(crate::specs::Reading::ad1_volts, tables::specs::Bounds::at_most))]
fn ad1_volts(calibration: Calibration, vr: u8, ad1: i32) -> f32
    ensures { result ≡ ad1_volts calibration vr ad1 }
{
    let k = u32::from(vr.min(3));
    let code = code_less(ad1, 0);
    let g = calibration.factor(0x04 + 4 * k);
    let off = calibration.offset(0x14 + 4 * k);
    code * k_acv(vr) * (1.25 / 0.9) / AD1_DIV * g - off
}

// The DC reference: what is below zero has a factor of its own.
#[tactic(auto, unfolding(crate::specs::Reading::dc_reference))]
fn dc_reference(calibration: Calibration, vr: u8, ad1: i32) -> f32
    ensures { result ≡ dc_reference calibration vr ad1 }
{
    let v = ad1_volts(calibration, vr, ad1);
    let k = dcv_negk(vr);
    if v < 0.0 { v * k } else { v }
}

// The AC reference by the factory's AC V words. (takes' `alt_volts` is the same but for the order of the products:
// the source brackets `K_ACV * CODE` there and not here, so that the floats differ.)
#[tactic(auto, unfolding(crate::specs::Reading::ac_reference, tables::specs::Bounds::at_most))]
fn ac_reference(calibration: Calibration, vr: u8, root: f32) -> f32
    ensures { result ≡ ac_reference calibration vr root }
{
    let k = u32::from(vr.min(3));
    let g = calibration.factor(0x34 + 4 * k);
    let off = calibration.offset(0x44 + 4 * k);
    numbers::max(root * k_acv(vr) * CODE * g - off, 0.0)
}

/// The reading of a frame at a step, in the V range `vr`.
#[tactic(auto, using(crate::proofs::Zeros::same_zero), unfolding(crate::specs::Reading::reading_of))]
pub fn reading_of(
    place: Place,
    calibration: Calibration,
    vr: u8,
    corrections: Corrections,
    codes: Codes,
) -> Reading
    ensures { result ≡ reading_of place calibration vr (zeros_in corrections) codes }
{
    match place {
        Place::ZeroX | Place::ZeroY => Reading::alone(code_less(codes.lpf, 0)),
        Place::ZeroD => Reading::alone(code_less(codes.ad1, 0)),
        Place::Raw => raw_reading(vr, zero_y(corrections), codes),
        Place::RefDc => Reading::alone(dc_reference(calibration, vr, codes.ad1)),
        Place::RefAc => Reading::alone(ac_reference(calibration, vr, rms_root(codes.rms))),
    }
}

// How far a code lies from the old zero.
#[tactic(auto, unfolding(crate::specs::Reading::distance))]
fn distance(code: i32, old: i16) -> u32
    ensures { result ≡ distance code old }
{
    code.abs_diff(i32::from(old))
}

// Whether the root or the LPF code is a signal where a zero is measured.
#[tactic(auto, unfolding(crate::specs::Reading::lpf_signal))]
fn lpf_signal(old: i16, codes: Codes) -> bool
    ensures { result ≡ lpf_signal old codes }
{
    rms_root(codes.rms) > ZERO_MAX_RMS || distance(codes.lpf, old) > ZERO_MAX_LPF.unsigned_abs()
}

/// Whether a frame is a signal where the zero job wants none; the gain job has no such test.
#[tactic(auto, unfolding(crate::specs::Reading::signal))]
pub fn is_signal(place: Place, old: i16, codes: Codes) -> bool
    ensures { result ≡ signal place old codes }
{
    match place {
        Place::ZeroX | Place::ZeroY => lpf_signal(old, codes),
        Place::ZeroD => distance(codes.ad1, old) > ZERO_MAX_AD1.unsigned_abs(),
        Place::Raw | Place::RefDc | Place::RefAc => false,
    }
}

/// What a ready frame counts for at step `step`: its reading, but where it is a signal and none may be: then
/// `Signal`.
pub fn counted_reading(
    place: Place,
    step: u8,
    calibration: Calibration,
    vr: u8,
    corrections: Corrections,
    codes: Codes,
) -> Result<Reading, JobError>
    ensures { result ≡ counted_reading place step calibration vr (zeros_in corrections) codes }
{
    if is_signal(place, old_zero(corrections, step), codes) {
        return Err(JobError::Signal);
    }
    Ok(reading_of(place, calibration, vr, corrections, codes))
}
