//! One conversion of the ring. C is handed a struct, which include/pw.h lays out, and has no `Option`: so the mark `found`
//! stands beside the values.
ghost use Rattle.std.specs.Prelude.{◌≡◌};
ghost use Rattle.host.specs.Ring.{conversion};

use state::Ring;

/// `struct pw_conversion`: `stat` is R34 in method B, 1 and 2 the alternating voltage and current, 3 and 4 the DC row's.
#[derive(Clone, Copy)]
#[repr(C)]
pub struct HostConversion {
    pub found: bool,
    pub stat: u8,
    pub disc: bool,
    pub rms: i64,
    pub lpf: i32,
    pub dt: u16,
}

impl HostConversion {
    const NONE: HostConversion = HostConversion {
        found: false,
        stat: 0,
        disc: false,
        rms: 0,
        lpf: 0,
        dt: 0,
    };
}

/// The conversion of this age, the latest being of age 0. None is found of an age of 16 or more, and of one
/// of `ring_k` or more.
#[tactic(auto, unfolding(crate::specs::Ring::conversion))]
pub fn conversion(ring: Ring, age: u8) -> HostConversion
    ensures { result ≡ conversion ring age }
{
    match ring.ring_k.checked_sub(u32::from(age) + 1) {
        Some(number) if age < 16 => {
            let k = (number % 16) as usize;
            HostConversion {
                found: true,
                stat: ring.stat[k],
                disc: ring.disc[k],
                rms: ring.rms[k],
                lpf: ring.lpf[k],
                dt: ring.dt[k],
            }
        }
        _ => HostConversion::NONE,
    }
}
