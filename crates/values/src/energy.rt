//! The energies and the time counted, as they are shown.
ghost use Rattle.std.specs.Prelude.{◌≡◌};
ghost use Rattle.values.specs.Energy.{mean_power, energies};

use crate::power_vals::Energies;
use figures::acc::Acc;
use figures::tally::Tally;

// The mean power in W over the time counted; a NaN before any is counted, and where the active
// energy is not (`active`, the source's `!alt || dc`). `active` is a yes or no, here and in `energies`, and no mode is
// handed in: `state_only` shows no mean whatever the mode is, and says so with a no.
#[tactic(auto, using(numbers::proofs::NoNumber::nan_is), unfolding(crate::specs::Energy::mean_power))]
fn mean_power(active: bool, wh: f32, t_int: u64) -> f32
    ensures { result ≡ mean_power active wh t_int }
{
    if t_int > 0 && active {
        wh * 3.6e6 / numbers::u64_to_f32(t_int)
    } else {
        f32::NAN
    }
}

/// Both energies, the seconds, of which the low 32 bits count, and the mean power.
#[tactic(auto, unfolding(crate::specs::Energy::energies))]
pub(crate) fn energies(active: bool, tally: Tally) -> Energies
    ensures { result ≡ energies active tally }
{
    let e_wh = Acc::wh(tally.e);
    Energies {
        e_wh,
        vah: Acc::wh(tally.va),
        secs: (tally.t_int / 1000 % 4294967296) as u32,
        p_avg: mean_power(active, e_wh, tally.t_int),
    }
}
