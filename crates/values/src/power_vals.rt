//! The values of a reading: the source's `PowerVals`, in one struct for each group of them. Kinds stay numbers and
//! marks here: a C host is handed these structs as they are.
ghost use Rattle.std.specs.Prelude.{◌≡◌};

use figures::load::Figures;
use state::Ranges;
use tables::constants::{COUP_DC, MAIN_P};

/// Watt hours, volt ampere hours, the seconds counted, and the mean power in W: a NaN for none.
#[derive(Clone, Copy)]
#[repr(C)]
pub struct Energies {
    pub e_wh: f32,
    pub vah: f32,
    pub secs: u32,
    pub p_avg: f32,
}

/// What the meter works by: the alternating method and DC coupling in force, the coupling asked for,
/// whether the path's drop is taken off, whether energy is counted, the phase steps in force, and the main
/// readout asked for.
#[derive(Clone, Copy)]
#[repr(C)]
pub struct InForce {
    pub alt: bool,
    pub dc: bool,
    pub coup: u8,
    pub comp: bool,
    pub run: bool,
    pub sph: i8,
    pub main: u8,
}

/// Voltage and current over their ranges; the countdown at the continuous current's limit: 0 none (also
/// without a limit), 1 with `over_left` seconds to go, 2 expired.
#[derive(Clone, Copy)]
#[repr(C)]
pub struct Limits {
    pub v_ol: bool,
    pub i_ol: bool,
    pub over: u8,
    pub over_left: u16,
}

/// The source's `vp`, `ip` and `pp`: DC and AC parts of volts, amperes and watts, at the load where `comp`,
/// else in front of the path, with AC parts below their floors counted as 0. They are shown in AC+DC
/// coupling of the simultaneous method; else all are 0.
#[derive(Clone, Copy)]
#[repr(C)]
pub struct Split {
    pub v_dc: f32,
    pub v_ac: f32,
    pub i_dc: f32,
    pub i_ac: f32,
    pub p_dc: f32,
    pub p_ac: f32,
}

/// `load` has p, s, q, pf, v and i: at the load where `comp`, else in front of the path, as always in the
/// alternating method. In that method p, q and pf are NaN; in AC coupling of the simultaneous method s, q
/// and pf are, where an AC part does not reach its floor. `vdc` and `idc` are the DC parts as measured, in
/// front of the path: NaN in AC coupling, `vdc` in the alternating method too. `f_ok` is whether a frequency
/// is to be had, `burden_v` the drop in the meter's own path, `hint` 0, HINT_NO_AC or HINT_AC.
#[derive(Clone, Copy)]
#[repr(C)]
pub struct PowerVals {
    pub load: Figures,
    pub vdc: f32,
    pub idc: f32,
    pub f_ok: bool,
    pub burden_v: f32,
    pub energies: Energies,
    pub ranges: Ranges,
    pub in_force: InForce,
    pub limits: Limits,
    pub hint: u8,
    pub split: Split,
}

impl Split {
    /// No part of any.
    pub const ZERO: Split = Split {
        v_dc: 0.0,
        v_ac: 0.0,
        i_dc: 0.0,
        i_ac: 0.0,
        p_dc: 0.0,
        p_ac: 0.0,
    };
}

impl PowerVals {
    /// The source's `PowerVals::ZERO`, with `f_ok` no.
    pub const ZERO: PowerVals = PowerVals {
        load: Figures {
            p: 0.0,
            s: 0.0,
            q: 0.0,
            pf: 0.0,
            v: 0.0,
            i: 0.0,
        },
        vdc: 0.0,
        idc: 0.0,
        f_ok: false,
        burden_v: 0.0,
        energies: Energies {
            e_wh: 0.0,
            vah: 0.0,
            secs: 0,
            p_avg: f32::NAN,
        },
        ranges: Ranges::NEW,
        in_force: InForce {
            alt: false,
            dc: false,
            coup: COUP_DC,
            comp: false,
            run: true,
            sph: 0,
            main: MAIN_P,
        },
        limits: Limits {
            v_ol: false,
            i_ol: false,
            over: 0,
            over_left: 0,
        },
        hint: 0,
        split: Split::ZERO,
    };
}

/// What there is with nothing measured.
impl Default for PowerVals {
    ghost use Rattle.values.specs.PowerVals.{zero_vals};

    ghost is_default = { λ vals. vals ≡ zero_vals };

    #[tactic(auto, using(numbers::proofs::NoNumber::nan_is), unfolding(crate::specs::PowerVals::zero_vals))]
    fn default() -> PowerVals {
        PowerVals::ZERO
    }
}
