//! `pw_vals`, `pw_state` and `integrating` of the source: what a whole meter shows.
ghost use Rattle.std.specs.Prelude.{◌≡◌, if◌then◌else◌};
ghost use Rattle.std.specs.Float.{nan};
ghost use Rattle.values.specs.Vals.{values, pw_vals, state_only, pw_state, integrating};

use crate::energy::energies;
use crate::floors::kept_if;
use crate::marks::{hint_shown, over_limit};
use crate::methods::{ac_only, alternating, measured};
use crate::power_vals::{InForce, PowerVals};
use figures::load::Figures;
use figures::tally::Tally;
use state::{
    Clock, Comparator, Mode, Parts, PhaseCal, Pw, Quantity, Ranges, Settings, Stamp, has_seen,
};
use tables::constants::I_FLOOR;

/// What the values are worked out from and a frame's accounting leaves: `over` is the description's, `seen` the
/// cycle's; of the mode `cal_req` is not looked at.
#[derive(Clone, Copy)]
pub struct Basis {
    pub mode: Mode,
    pub ranges: Ranges,
    pub parts: Parts,
    pub seen: u8,
    pub comparator: Comparator,
    pub settings: Settings,
    pub over: f32,
}

/// Of what a frame's accounting changes, that which the values show: what is counted, the clock, since when the
/// current is above its limit, and the phase steps.
#[derive(Clone, Copy)]
pub struct Changing {
    pub tally: Tally,
    pub clock: Clock,
    pub over_t0: Stamp,
    pub phase_cal: PhaseCal,
}

// Field by field, here and below: the meter has neither of the two in it, since a C host keeps it in the source's groups.
impl From<Pw> for Basis {
    ghost use Rattle.values.specs.Divided.{basis_in};

    ghost from_gives = { λ pw basis. basis ≡ basis_in pw };

    #[tactic(auto, unfolding(crate::specs::Divided::basis_in))]
    fn from(pw: Pw) -> Basis {
        Basis {
            mode: pw.mode,
            ranges: pw.ranges,
            parts: pw.parts,
            seen: pw.cycle.seen,
            comparator: pw.comparator,
            settings: pw.settings,
            over: pw.description.over,
        }
    }
}

/// Of a whole meter. (`accounting` takes the same four fields of a ledger, since a frame's values are worked out while what
/// it changes is still a ledger and no meter: two structs, so two conversions.)
impl From<Pw> for Changing {
    ghost use Rattle.values.specs.Divided.{changing_in};

    ghost from_gives = { λ pw changing. changing ≡ changing_in pw };

    #[tactic(auto, unfolding(crate::specs::Divided::changing_in))]
    fn from(pw: Pw) -> Changing {
        Changing {
            tally: pw.tally,
            clock: pw.clock,
            over_t0: pw.over_t0,
            phase_cal: pw.phase_cal,
        }
    }
}

// x, or a NaN where it is not to be had: an `if` that two values write alike.
#[tactic(auto, using(numbers::proofs::NoNumber::nan_is))]
fn nan_if(hidden: bool, x: f32) -> f32
    ensures { result ≡ (if hidden then nan else x) }
{
    if hidden { f32::NAN } else { x }
}

impl Basis {
    ghost use Rattle.values.specs.Divided.{in_force_of, load_of, values_of};

    #[tactic(auto, unfolding(crate::specs::Divided::in_force_of))]
    fn in_force(self, run: bool, phase_cal: PhaseCal) -> InForce
        ensures { result ≡ in_force_of self run phase_cal }
    {
        InForce {
            alt: alternating(self.mode),
            dc: self.mode.dc,
            coup: self.mode.coup,
            comp: self.settings.comp,
            run,
            sph: phase_cal.sph,
            main: self.settings.main,
        }
    }

    /// The figures of the load: power, apparent and reactive power, power factor, volts and amperes.
    #[tactic(auto, unfolding(crate::specs::Divided::load_of))]
    pub fn load(self) -> Figures
        ensures { result ≡ load_of self }
    {
        let reached = self.reached();
        let used = self.used_parts(reached);
        let r = kept_if(self.settings.comp, self.path_ohms());
        self.load_figures(reached, used, r)
    }

    /// All values, with these figures of the load.
    #[tactic(auto, unfolding(crate::specs::Divided::values_of, crate::specs::Vals::dc_volts, crate::specs::Vals::dc_amperes))]
    pub fn values(self, load: Figures, changing: Changing) -> PowerVals
        ensures { result ≡ values_of self load changing }
    {
        let reached = self.reached();
        let used = self.used_parts(reached);
        let ohms = self.path_ohms();
        let alt = alternating(self.mode);
        let ac = ac_only(self.mode);
        let count = over_limit(changing.over_t0, self.settings.t_lim, changing.clock.t_poll);
        PowerVals {
            load,
            vdc: nan_if(alt || ac, self.parts.v_dc),
            idc: nan_if(ac, self.parts.i_dc),
            f_ok: self.frequency(reached),
            burden_v: load.i * ohms,
            energies: energies(!alt, changing.tally),
            ranges: self.ranges,
            in_force: self.in_force(changing.clock.run, changing.phase_cal),
            limits: self.limits(count),
            hint: hint_shown(self.hint(reached)),
            split: self.split(used, kept_if(self.settings.comp, ohms)),
        }
    }
}

// All values, of a meter that has measured what its method needs.
#[tactic(auto, unfolding(crate::specs::Vals::values, crate::specs::Divided::basis_in, crate::specs::Divided::changing_in, crate::specs::Vals::in_force, crate::specs::Divided::in_force_of, crate::specs::Divided::load_of, crate::specs::Divided::values_of, crate::specs::Marks::limits, crate::specs::Marks::limits_of))]
fn values(pw: Pw) -> PowerVals
    ensures { result ≡ values pw }
{
    let basis = Basis::from(pw);
    basis.values(basis.load(), Changing::from(pw))
}

/// The values, once voltage and current and what else the method needs are measured, while on.
#[tactic(auto, unfolding(crate::specs::Vals::pw_vals))]
pub fn pw_vals(pw: Pw) -> Option<PowerVals>
    ensures { result ≡ pw_vals pw }
{
    measured(pw.mode, pw.cycle.seen).then(|| values(pw))
}

// The ranges, what is in force and the energies, with no mean, beside zeros.
#[tactic(auto, unfolding(crate::specs::Vals::state_only, crate::specs::Divided::basis_in, crate::specs::Divided::in_force_of, crate::specs::Vals::in_force))]
fn state_only(pw: Pw) -> PowerVals
    ensures { result ≡ state_only pw }
{
    PowerVals {
        energies: energies(false, pw.tally),
        ranges: pw.ranges,
        in_force: Basis::from(pw).in_force(pw.clock.run, pw.phase_cal),
        ..PowerVals::ZERO
    }
}

/// The values; where there are none, what is known without them.
#[tactic(auto, unfolding(crate::specs::Vals::pw_state))]
pub fn pw_state(pw: Pw) -> PowerVals
    ensures { result ≡ pw_state pw }
{
    // (No `unwrap_or_else`: its closure would hold the meter, which is copied into it.)
    match pw_vals(pw) {
        Some(vals) => vals,
        None => state_only(pw),
    }
}

/// Whether energy is being counted with a current above I_FLOOR.
#[tactic(auto, unfolding(crate::specs::Vals::integrating))]
pub fn integrating(pw: Pw) -> bool
    ensures { result ≡ integrating pw }
{
    pw.mode.on
        && pw.clock.run
        && has_seen(pw.cycle.seen, Quantity::Current)
        && pw.parts.amperes() > I_FLOOR
}
