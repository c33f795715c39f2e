//! The energy accumulator: whole millijoules, and a fraction of one, so that a small energy still
//! counts beside a large total.
ghost use Rattle.std.specs.Prelude.{◌≡◌};
ghost use Rattle.refusals.specs.Number.{told_number};
ghost use Rattle.figures.specs.Acc.{sum_in_range, acc_step, thousand, add_to, add_answer, added_acc, watt_hours};
ghost use Rattle.figures.specs.Exact.{Exact, ExactAfter};
ghost use Rattle.numbers.specs.Binary32.{◌*f◌};

use refusals::Refusal;

/// The source's `Acc`: whole millijoules, and a fraction of one.
#[derive(Clone, Copy)]
#[repr(C)]
pub struct Acc {
    pub mj: i64,
    pub frac: f32,
}

/// What an add gives: the new record, and the whole millijoules that its count gained.
// `Counted` of tally differs from it in the type of one field. In one generic struct that field would
// have one name, and neither `sum.acc` nor `counted.tally` would say any more what stands there.
#[derive(Clone, Copy)]
pub struct Sum {
    pub acc: Acc,
    pub gained: i64,
}

impl Acc {
    /// Nothing added.
    pub const ZERO: Acc = Acc { mj: 0, frac: 0.0 };

    /// Adds to the caller's own record; where that is full, the record is as it was.
    #[tactic(auto, using(crate::proofs::Exactly::exactly_added, crate::proofs::Exactly::exactly_refused))]
    pub fn add(&mut self, joules: f32) -> Result<(), Refusal>
        ensures is { result ≡ add_answer (add_to self.old joules) }
        ensures left { self.new ≡ added_acc self.old (add_to self.old joules) }
        ensures exact { ExactAfter self.old joules (told_number result) self.new }
    {
        let sum = add_to(*self, joules)?;
        *self = sum.acc;
        Ok(())
    }

    /// Watt hours.
    #[tactic(auto, unfolding(crate::specs::Acc::watt_hours))]
    pub fn wh(self) -> f32
        ensures { result ≡ watt_hours self }
    {
        let mj = numbers::i64_to_f64(self.mj);
        let frac = numbers::f32_to_f64(self.frac);
        numbers::f64_to_f32((mj + frac) / 3.6e6)
    }
}

// -2^63 <= x < 2^63, which a NaN is not.
#[tactic(auto, unfolding(crate::specs::Acc::sum_in_range))]
fn sum_in_range(x: f32) -> bool
    ensures { result ≡ sum_in_range x }
{
    x >= -9223372036854775808.0 && x < 9223372036854775808.0
}

/// The accumulator's own step: millijoules join the fraction, and the sum's whole part moves over to
/// the count. Full where the sum or the new count is out of range.
// Inlined, as `add_to`: a sum that a call hands back goes through memory, and a host's add waits for it there.
#[inline]
#[tactic(auto, using(crate::proofs::Step::out_case, crate::proofs::Step::full_case, crate::proofs::Step::sum_case, crate::proofs::Exactly::exact_of))]
pub fn step(a: Acc, millijoules: f32) -> Result<Sum, Refusal>
    ensures is { result ≡ acc_step a millijoules }
    ensures exact { Exact a millijoules result }
{
    let x = a.frac + millijoules;
    if !sum_in_range(x) {
        return Err(Refusal::Full);
    }
    let gained = numbers::f32_to_i64(x);
    let mj = a.mj.checked_add(gained).ok_or(Refusal::Full)?;
    let frac = x - numbers::i64_to_f32(gained);
    Ok(Sum {
        acc: Acc { mj, frac },
        gained,
    })
}

/// The source's `Acc::add`, by value.
#[inline]
#[tactic(auto, unfolding(crate::specs::Acc::add_to))]
pub fn add_to(a: Acc, joules: f32) -> Result<Sum, Refusal>
    ensures is { result ≡ add_to a joules }
    ensures exact { Exact a (joules *f thousand) result }
{
    step(a, joules * 1000.0)
}
