//! The source's unit strings as numbered units.
ghost use Rattle.std.specs.Prelude.{◌≡◌};

/// A unit of the source's.
#[derive(Clone, Copy, Debug, PartialEq, Eq)]
pub enum Unit {
    Volt = 0,
    Ampere = 1,
    Milliampere = 2,
    Microampere = 3,
    Watt = 4,
    Milliwatt = 5,
    Kilowatt = 6,
    VoltAmpere = 7,
    MillivoltAmpere = 8,
    KilovoltAmpere = 9,
    WattHour = 10,
    MilliwattHour = 11,
    KilowattHour = 12,
    VoltAmpereHour = 13,
    KilovoltAmpereHour = 14,
    Millivolt = 15,
}

/// The number by which a host knows a unit.
impl From<Unit> for u8 {
    ghost use Rattle.formats.specs.Units.{unit_number};

    ghost from_gives = { λ unit number. number ≡ unit_number unit };

    #[tactic(auto, unfolding(crate::specs::Units::unit_number))]
    fn from(unit: Unit) -> u8 {
        unit as u8
    }
}
