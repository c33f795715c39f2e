//! The tables by index. An index past the end is held to the last entry; only CYCLE goes round.
ghost use Rattle.std.specs.Prelude.{◌≡◌, ◌<◌, length};
ghost use Rattle.std.specs.Float.{nan};
ghost use Rattle.tables.specs.Bounds.{entry_at};
ghost use Rattle.tables.specs.Constants.{v_lim, i_lim, shunt_ohm, kv, cycle_at};
ghost use Rattle.tables.specs.Decided.{k_acv, dcv_negk, acv_win, aca_win};

use crate::constants::{CYCLE, I_LIM, KV, SHUNT_OHM, V_LIM};
use crate::decided::{ACA_WIN, ACV_WIN, DCV_NEGK, K_ACV};

// Entry k of a table, or its last one.
#[tactic(auto, unfolding(crate::specs::Bounds::entry_at, crate::specs::Bounds::at_most))]
fn entry(table: &[f32], k: u8) -> f32
    requires { 0 < length table.now }
    ensures { result ≡ entry_at nan table.now k }
{
    table[usize::from(k).min(table.len() - 1)]
}

// One line each over `entry`: the source's names, by which the definitions and C programs ask.

/// The volts of a V range.
#[tactic(auto, using(crate::proofs::Tables::v_lim_is))]
pub fn v_lim(vr: u8) -> f32
    ensures { result ≡ entry_at nan v_lim vr }
{
    entry(&V_LIM, vr)
}

/// The amperes of an I range.
#[tactic(auto, using(crate::proofs::Tables::i_lim_is))]
pub fn i_lim(ik: u8) -> f32
    ensures { result ≡ entry_at nan i_lim ik }
{
    entry(&I_LIM, ik)
}

/// The ohms of the shunt of a current unit.
#[tactic(auto, using(crate::proofs::Tables::shunt_ohm_is))]
pub fn shunt_ohm(iu: u8) -> f32
    ensures { result ≡ entry_at nan shunt_ohm iu }
{
    entry(&SHUNT_OHM, iu)
}

/// Volts at the jack for a volt at the V channel's converter.
#[tactic(auto, using(crate::proofs::Tables::kv_is))]
pub fn kv(vr: u8) -> f32
    ensures { result ≡ entry_at nan kv vr }
{
    entry(&KV, vr)
}

/// The same in the AC V rows.
#[tactic(auto, using(crate::proofs::Tables::k_acv_is))]
pub fn k_acv(vr: u8) -> f32
    ensures { result ≡ entry_at nan k_acv vr }
{
    entry(&K_ACV, vr)
}

/// What a negative DC voltage is multiplied by.
#[tactic(auto, using(crate::proofs::Tables::dcv_negk_is))]
pub fn dcv_negk(vr: u8) -> f32
    ensures { result ≡ entry_at nan dcv_negk vr }
{
    entry(&DCV_NEGK, vr)
}

/// The jump window of a V range's smoothing, in volts.
#[tactic(auto, using(crate::proofs::Tables::acv_win_is))]
pub fn acv_win(vr: u8) -> f32
    ensures { result ≡ entry_at nan acv_win vr }
{
    entry(&ACV_WIN, vr)
}

/// The jump window of a current's smoothing, in A, mA or uA: by calibration index, not by range.
#[tactic(auto, using(crate::proofs::Tables::aca_win_is))]
pub fn aca_win(ci: u8) -> f32
    ensures { result ≡ entry_at nan aca_win ci }
{
    entry(&ACA_WIN, ci)
}

/// R34 in a phase of the simultaneous method.
#[tactic(auto, unfolding(crate::specs::Constants::cycle, crate::specs::Constants::cycle_at))]
pub fn cycle(phase: u8) -> u8
    ensures { result ≡ cycle_at phase }
{
    CYCLE[usize::from(phase % 4)]
}
