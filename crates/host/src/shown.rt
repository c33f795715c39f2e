//! What a screen shows. C is handed structs, which include/pw.h lays out, and has no `Option`: so the marks `measured`
//! and `with_volts` stand beside the values. So does `over`: where a range is passed the number is 0.0, and decimals and
//! unit are handed over all the same.
ghost use Rattle.std.specs.Prelude.{◌≡◌};

use formats::readout::Val;
use readouts::partial::Partial;
use readouts::readings::Readouts;
use values::power_vals::PowerVals;

/// `struct pw_vals`
#[derive(Clone, Copy)]
#[repr(C)]
pub struct HostVals {
    pub measured: bool,
    pub vals: PowerVals,
}

/// `struct pw_val`: the unit by its number.
#[derive(Clone, Copy)]
#[repr(C)]
pub struct HostVal {
    pub number: f32,
    pub decimals: u8,
    pub unit: u8,
    pub over: bool,
}

/// What stands for a readout where there is none.
pub const NO_VAL: HostVal = HostVal {
    number: 0.0,
    decimals: 0,
    unit: 0,
    over: false,
};

/// `struct pw_readouts`
#[derive(Clone, Copy)]
#[repr(C)]
pub struct HostReadouts {
    pub main: HostVal,
    pub v: HostVal,
    pub i: HostVal,
    pub si: f32,
}

/// `struct pw_partial`: the text by its number.
#[derive(Clone, Copy)]
#[repr(C)]
pub struct HostPartial {
    pub text: u8,
    pub with_volts: bool,
    pub volts: HostVal,
}

/// The values; `PowerVals::ZERO` where there are none.
impl From<Option<PowerVals>> for HostVals {
    ghost use Rattle.host.specs.Shown.{host_vals};

    ghost from_gives = { λ answer shown. shown ≡ host_vals answer };

    #[tactic(auto, unfolding(crate::specs::Shown::host_vals))]
    fn from(answer: Option<PowerVals>) -> HostVals {
        match answer {
            Some(vals) => HostVals {
                measured: true,
                vals,
            },
            None => HostVals {
                measured: false,
                vals: PowerVals::default(),
            },
        }
    }
}

/// One readout, its unit by the number.
impl From<Val> for HostVal {
    ghost use Rattle.host.specs.Shown.{host_val};

    ghost from_gives = { λ val shown. shown ≡ host_val val };

    #[tactic(auto, unfolding(crate::specs::Shown::host_val))]
    fn from(val: Val) -> HostVal {
        HostVal {
            number: val.number,
            decimals: val.decimals,
            unit: u8::from(val.unit),
            over: val.over,
        }
    }
}

/// The readouts of a reading, each unit by its number.
impl From<Readouts> for HostReadouts {
    ghost use Rattle.host.specs.Shown.{host_readouts};

    ghost from_gives = { λ readouts shown. shown ≡ host_readouts readouts };

    #[tactic(auto, unfolding(crate::specs::Shown::host_readouts))]
    fn from(readouts: Readouts) -> HostReadouts {
        HostReadouts {
            main: HostVal::from(readouts.main),
            v: HostVal::from(readouts.v),
            i: HostVal::from(readouts.i),
            si: readouts.si,
        }
    }
}

/// What is shown in place of a reading: the text by its number, and the volts where there are any.
impl From<Partial> for HostPartial {
    ghost use Rattle.host.specs.Shown.{host_partial};

    ghost from_gives = { λ partial shown. shown ≡ host_partial partial };

    #[tactic(auto, unfolding(crate::specs::Shown::host_partial, crate::specs::Shown::text_only))]
    fn from(partial: Partial) -> HostPartial {
        let text = u8::from(partial);
        match partial {
            Partial::Ranging(Some(volts)) => HostPartial {
                text,
                with_volts: true,
                volts: HostVal::from(volts),
            },
            _ => HostPartial {
                text,
                with_volts: false,
                volts: NO_VAL,
            },
        }
    }
}
