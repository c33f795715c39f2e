//! The accounting of a reading, the source's `pw_account`: the interval up to it is counted at the powers
//! of the reading before, and it gives the powers of the next.
#![tactic(auto)]

ghost use Rattle.std.specs.Prelude.{◌≡◌};
ghost use Rattle.accounting.specs.Account.{last_time, finite_or_zero, powers_of, over_since};
ghost use Rattle.accounting.specs.Divided.{counted_of, posted};

use figures::load::Figures;
use figures::tally::{Counted, Tally, accounting_step};
use phase::cal_account;
use refusals::Refusal;
use state::{Clock, PhaseCal, Powers, Stamp, elapsed};
use values::vals::Changing;

/// What the accounting changes.
#[derive(Clone, Copy)]
pub struct Ledger {
    pub tally: Tally,
    pub clock: Clock,
    pub powers: Powers,
    pub over_t0: Stamp,
    pub phase_cal: PhaseCal,
    pub cal_req: bool,
}

/// What the values take of the ledger. (Of a whole meter `values` takes the same four: two structs, so two conversions.)
impl From<Ledger> for Changing {
    ghost use Rattle.accounting.specs.Divided.{changing};

    ghost from_gives = { λ ledger taken. taken ≡ changing ledger };

    #[tactic(auto, unfolding(crate::specs::Divided::changing))]
    fn from(ledger: Ledger) -> Changing {
        Changing {
            tally: ledger.tally,
            clock: ledger.clock,
            over_t0: ledger.over_t0,
            phase_cal: ledger.phase_cal,
        }
    }
}

// The tally after the interval from the last accounted frame. While stopped, and where there was no such
// frame, nothing is counted. `active`, here and in `posted`, is whether the active energy counts: a yes or no, as
// `accounting_step` takes it, and handed in, since it hangs on the mode, of which a ledger has `cal_req` alone.
#[tactic(auto, unfolding(crate::specs::Divided::counted_of))]
fn counted(before: Ledger, active: bool, time: u64) -> Result<Counted, Refusal>
    ensures { result ≡ counted_of before active time }
{
    match Option::<u64>::from(before.clock.t_last) {
        Some(t_last) if before.clock.run => {
            let dt = elapsed(time, t_last);
            let Powers { p_tot, s_last } = before.powers;
            accounting_step(before.tally, dt, p_tot, s_last, active)
        }
        _ => Ok(Counted {
            tally: before.tally,
            gained: 0,
        }),
    }
}

// The last accounted frame's time: this one's, and none while stopped.
#[tactic(auto, unfolding(crate::specs::Account::last_time))]
fn last_time(run: bool, time: u64) -> Stamp
    ensures { result ≡ last_time run time }
{
    if run {
        Stamp::at_time(time)
    } else {
        Stamp::NONE
    }
}

// x, or 0.0 for a NaN or an infinity.
#[tactic(auto, unfolding(crate::specs::Account::finite_or_zero))]
fn finite_or_zero(x: f32) -> f32
    ensures { result ≡ finite_or_zero x }
{
    if numbers::is_finite(x) { x } else { 0.0 }
}

// The powers of the next interval: this reading's.
#[tactic(auto, unfolding(crate::specs::Account::powers_of))]
fn powers_of(load: Figures) -> Powers
    ensures { result ≡ powers_of load }
{
    Powers {
        p_tot: finite_or_zero(load.p),
        s_last: finite_or_zero(load.s),
    }
}

// Since when the current is above `i_cont`: from the first reading above it until one below 0.95 of it.
#[tactic(auto, unfolding(crate::specs::Account::over_since))]
fn over_since(before: Stamp, i: f32, i_cont: f32, time: u64) -> Stamp
    ensures { result ≡ over_since before i i_cont time }
{
    if i > i_cont {
        Stamp::at_time(Option::<u64>::from(before).unwrap_or(time))
    } else if i < 0.95 * i_cont {
        Stamp::NONE
    } else {
        before
    }
}

/// The ledger after a reading with these figures; or full, which refuses the frame. `active` is whether
/// the active energy counts.
#[tactic(auto, unfolding(crate::specs::Divided::posted))]
pub fn posted(
    before: Ledger,
    active: bool,
    i_cont: f32,
    load: Figures,
    time: u64,
) -> Result<Ledger, Refusal>
    ensures { result ≡ posted before active i_cont load time }
{
    let interval = counted(before, active, time)?;
    let mut clock = before.clock;
    clock.t_last = last_time(clock.run, time);
    let step = cal_account(before.phase_cal, before.cal_req);
    Ok(Ledger {
        tally: interval.tally,
        clock,
        powers: powers_of(load),
        over_t0: over_since(before.over_t0, load.i, i_cont, time),
        phase_cal: step.phase_cal,
        cal_req: step.cal_req,
    })
}
