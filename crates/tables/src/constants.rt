//! The source's constants, under its names. `float_constants`, `chip_constants` and `state_constants`
//! list the constants themselves, so their contracts say the value of each; tests/constants.sh
//! compares them with the published text.
ghost use Rattle.std.specs.Prelude.{◌≡◌};
ghost use Rattle.tables.specs.Constants.{float_constants, chip_constants, state_constants};

use crate::decided::{AD1_DIV, FLOOR_V};

// ---- ranges and scales

/// The V ranges, in volts.
pub const V_LIM: [f32; 4] = [6.0, 60.0, 600.0, 1000.0];

/// The I ranges, low to high, in amperes.
pub const I_LIM: [f32; 6] = [600e-6, 6e-3, 0.06, 0.6, 6.0, 10.0];

/// The shunt of each current unit (A, mA, uA), in ohms. It is not the description's `shunt`.
pub const SHUNT_OHM: [f32; 3] = [0.01, 0.5, 47.5];

/// Volts at the jack for a volt at the V channel's converter, by V range.
pub const KV: [f32; 4] = [10.0, 100.0, 1000.0, 10_000.0];

/// Volts of one RMS root or LPF code.
pub const CODE: f32 = 1.25 / 262_144.0;

// ---- the chip's registers

/// R34: the sum of X * Y, of X * X, of Y * Y.
pub const R34_XY: u8 = 0x88;

pub const R34_XX: u8 = 0x80;

pub const R34_YY: u8 = 0x8C;

/// R34 by phase in the simultaneous method.
pub const CYCLE: [u8; 4] = [R34_XY, R34_YY, R34_XY, R34_XX];

/// R20, the comparator's source: the V tap, the current.
pub const R20_SENSE: u8 = 0x10;

pub const R20_PB4: u8 = 0xF0;

/// R21, the comparator's window where none was chosen.
pub const R21_DEFAULT: u8 = 0xDD;

// ---- times in ms, and results dropped or counted

pub const SETTLE_MS: u64 = 550;

pub const ALT_V_SETTLE_MS: u64 = 600;

pub const VCAL_AC_SETTLE_MS: u64 = 2000;

/// The DC reference's; the source has the number without a name.
pub const VCAL_DC_SETTLE_MS: u64 = 450;

pub const DISC_DEFAULT: u8 = 2;

pub const ALT_N: u8 = 2;

pub const ALT_V_SKIP: u8 = 4;

pub const DC_SKIP: u8 = 1;

pub const JOB_SKIP: u8 = 1;

pub const JOB_N: u8 = 3;

pub const RING_N: usize = 16;

// ---- the continuous current's limit: amperes, seconds

pub const I_CONT_DEFAULT: f32 = 6.0;

pub const T_LIM_DEFAULT: u16 = 30;

// ---- floors and noise: amperes, then fractions of a range

pub const I_FLOOR: f32 = 50e-6;

pub const FLOOR_I: f32 = 0.005;

pub const NOISE_V: f32 = 0.001;

pub const NOISE_I: f32 = 0.0025;

// ---- the coupling, the main readout and the hints, as numbers

pub const COUP_ACDC: u8 = 0;

pub const COUP_DC: u8 = 1;

pub const COUP_AC: u8 = 3;

pub const MAIN_P: u8 = 0;

pub const MAIN_WH: u8 = 1;

pub const MAIN_VAH: u8 = 2;

pub const HINT_NO_AC: u8 = 1;

pub const HINT_AC: u8 = 2;

// ---- jobs: the kinds, the results, the bounds

pub const JOB_ZERO: u8 = 1;

pub const JOB_VCAL: u8 = 2;

pub const JR_NONE: u8 = 0;

pub const JR_RUN: u8 = 1;

pub const JR_OK: u8 = 2;

pub const JR_SIGNAL: u8 = 3;

pub const JR_SMALL: u8 = 4;

pub const JR_BIG: u8 = 5;

pub const JR_UNSTABLE: u8 = 6;

pub const JR_RANGE: u8 = 7;

pub const JR_ABORT: u8 = 8;

pub const JR_METHOD: u8 = 9;

pub const ZERO_MAX_RMS: f32 = 400.0;

pub const ZERO_MAX_LPF: i32 = 4000;

pub const ZERO_MAX_AD1: i32 = 20_000;

pub const VCAL_MIN: f32 = 0.1;

pub const VCAL_MAX_AC: f32 = 0.7;

pub const VCAL_MAX_DC: f32 = 1.0;

pub const VCAL_PEAK_MAX: f32 = 1.0;

pub const VCAL_SPREAD: f32 = 0.003;

// ---- the phase calibration: its results, its bound

pub const CAL_NONE: u8 = 0;

pub const CAL_RUN: u8 = 1;

pub const CAL_OK: u8 = 2;

pub const CAL_FLAT: u8 = 3;

pub const CAL_NOT_REACTIVE: u8 = 4;

pub const CAL_RANGE: u8 = 5;

pub const CAL_PF_MAX: f32 = 0.32;

// ---- every constant that is one number, in the order above; std has no `From` of a usize or an i32 for u64

/// The floats, the two decided ones last.
#[tactic(auto, using(crate::proofs::Nearest::named))]
pub fn float_constants() -> [f32; 15]
    ensures { result ≡ float_constants }
{
    [
        CODE,
        I_CONT_DEFAULT,
        I_FLOOR,
        FLOOR_I,
        NOISE_V,
        NOISE_I,
        ZERO_MAX_RMS,
        VCAL_MIN,
        VCAL_MAX_AC,
        VCAL_MAX_DC,
        VCAL_PEAK_MAX,
        VCAL_SPREAD,
        CAL_PF_MAX,
        AD1_DIV,
        FLOOR_V,
    ]
}

/// The whole numbers that have to do with the chip: registers, times, counts, the limit's seconds.
#[tactic(auto, unfolding(crate::specs::Constants::chip_constants))]
pub fn chip_constants() -> [u64; 18]
    ensures { result ≡ chip_constants }
{
    [
        u64::from(R34_XY),
        u64::from(R34_XX),
        u64::from(R34_YY),
        u64::from(R20_SENSE),
        u64::from(R20_PB4),
        u64::from(R21_DEFAULT),
        SETTLE_MS,
        ALT_V_SETTLE_MS,
        VCAL_AC_SETTLE_MS,
        VCAL_DC_SETTLE_MS,
        u64::from(DISC_DEFAULT),
        u64::from(ALT_N),
        u64::from(ALT_V_SKIP),
        u64::from(DC_SKIP),
        u64::from(JOB_SKIP),
        u64::from(JOB_N),
        RING_N as u64,
        u64::from(T_LIM_DEFAULT),
    ]
}

/// Those that the meter's state holds, with the zero job's bounds.
#[tactic(auto, unfolding(crate::specs::Constants::state_constants))]
pub fn state_constants() -> [u64; 28]
    ensures { result ≡ state_constants }
{
    [
        u64::from(COUP_ACDC),
        u64::from(COUP_DC),
        u64::from(COUP_AC),
        u64::from(MAIN_P),
        u64::from(MAIN_WH),
        u64::from(MAIN_VAH),
        u64::from(HINT_NO_AC),
        u64::from(HINT_AC),
        u64::from(JOB_ZERO),
        u64::from(JOB_VCAL),
        u64::from(JR_NONE),
        u64::from(JR_RUN),
        u64::from(JR_OK),
        u64::from(JR_SIGNAL),
        u64::from(JR_SMALL),
        u64::from(JR_BIG),
        u64::from(JR_UNSTABLE),
        u64::from(JR_RANGE),
        u64::from(JR_ABORT),
        u64::from(JR_METHOD),
        ZERO_MAX_LPF as u64,
        ZERO_MAX_AD1 as u64,
        u64::from(CAL_NONE),
        u64::from(CAL_RUN),
        u64::from(CAL_OK),
        u64::from(CAL_FLAT),
        u64::from(CAL_NOT_REACTIVE),
        u64::from(CAL_RANGE),
    ]
}
