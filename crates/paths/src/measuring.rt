//! What the path of a frame outside a job reads, what it may change, and what it answers.
ghost use Rattle.std.specs.Prelude.{◌≡◌};
ghost use Rattle.paths.specs.Measuring.{ends, goes_on, drops, measured_in, with_measured, ranging_in, ranged_to, autorange};

use ranging::autorange::{Channel, Ranged, Ranging};
use state::{Comparator, Cycle, Mode, Parts, PhaseCal, Ranges};
use takes::scales::Instrument;
use takes::take::Measured;

// The setup, the frame or its time, and the measuring go one by one from function to function: the setup is what a
// path reads, the frame what came, and the measuring is another one after each step of the way, so that a struct of
// the three would be made anew at each step for the one that changed.

/// What a path reads and never changes: what readings are worked out with, and what the meter does.
#[derive(Clone, Copy)]
pub struct Setup {
    pub with: Instrument,
    pub mode: Mode,
}

/// The meter's fields that the path of a frame outside a job may change, but for the ring. What the accounting
/// changes is not a path's.
#[derive(Clone, Copy)]
pub struct Measuring {
    pub ranges: Ranges,
    pub barred: u8,
    pub cycle: Cycle,
    pub parts: Parts,
    pub phase_cal: PhaseCal,
    pub comparator: Comparator,
}

/// What stands after the path, and the mark to the host, where there is one: its deadline. Whether the source goes on
/// to `pw_vals`, which may still answer none (not all of `seen` marked), and then nothing is accounted. Whether an AD1
/// result was taken, which the ring notes.
#[derive(Clone, Copy)]
pub struct Outcome {
    pub measuring: Measuring,
    pub mark: Option<u64>,
    pub to_values: bool,
    pub ad1_taken: bool,
}

// Fields are copied by name from one record into another: a C host keeps the meter in the source's groups of fields,
// and each function here is handed those alone that it may change.
impl Measuring {
    // `ends` and `goes_on` are two makers, and not one that takes `to_values`: a bare true or false would not say at a
    // call what becomes of the frame.
    /// The frame ends: no mark, no values.
    #[tactic(auto, unfolding(crate::specs::Measuring::ends))]
    pub(crate) fn ends(self) -> Outcome
        ensures { result ≡ ends self }
    {
        Outcome {
            measuring: self,
            mark: None,
            to_values: false,
            ad1_taken: false,
        }
    }

    /// No mark; the frame goes on to the values.
    #[tactic(auto, unfolding(crate::specs::Measuring::goes_on))]
    pub(crate) fn goes_on(self) -> Outcome
        ensures { result ≡ goes_on self }
    {
        Outcome {
            measuring: self,
            mark: None,
            to_values: true,
            ad1_taken: false,
        }
    }

    /// A dropped result: the frame ends, with one less to drop.
    #[tactic(auto, unfolding(crate::specs::Measuring::drops))]
    pub(crate) fn drops(self) -> Outcome
        ensures { result ≡ drops self }
    {
        let mut dropped = self;
        dropped.cycle.skip = self.cycle.skip.saturating_sub(1);
        dropped.ends()
    }

    /// What the takes may change.
    #[tactic(auto, unfolding(crate::specs::Measuring::measured_in))]
    pub(crate) fn measured(&self) -> Measured
        ensures { result ≡ measured_in self.now }
    {
        Measured {
            parts: self.parts,
            seen: self.cycle.seen,
            phase_cal: self.phase_cal,
        }
    }

    #[tactic(auto, unfolding(crate::specs::Measuring::with_measured))]
    pub(crate) fn with_measured(self, measured: Measured) -> Measuring
        ensures { result ≡ with_measured self measured }
    {
        Measuring {
            parts: measured.parts,
            phase_cal: measured.phase_cal,
            cycle: Cycle {
                seen: measured.seen,
                ..self.cycle
            },
            ..self
        }
    }

    // What an autorange may change. (`Changing::from` of a `Ledger` has its shape, and no field in common.)
    #[tactic(auto, unfolding(crate::specs::Measuring::ranging_in))]
    fn ranging(&self) -> Ranging
        ensures { result ≡ ranging_in self.now }
    {
        Ranging {
            ranges: self.ranges,
            barred: self.barred,
            cycle: self.cycle,
            comparator: self.comparator,
        }
    }

    /// A range was applied: its mark, and no values.
    #[tactic(auto, unfolding(crate::specs::Measuring::ranged_to))]
    pub(crate) fn ranged_to(self, ranged: Ranged) -> Outcome
        ensures { result ≡ ranged_to self ranged }
    {
        Outcome {
            measuring: Measuring {
                ranges: ranged.ranging.ranges,
                barred: ranged.ranging.barred,
                cycle: ranged.ranging.cycle,
                comparator: ranged.ranging.comparator,
                ..self
            },
            mark: Some(ranged.deadline),
            to_values: false,
            ad1_taken: false,
        }
    }

    /// The autorange of a channel (the source's `pw_autorange`).
    #[tactic(auto, unfolding(crate::specs::Measuring::autorange))]
    pub(crate) fn autorange(&self, setup: &Setup, channel: Channel, now: u64) -> Option<Ranged>
        ensures { result ≡ autorange setup.now channel now self.now }
    {
        ranging::autorange::autorange(
            channel,
            setup.with.description,
            setup.mode,
            self.parts,
            self.ranging(),
            now,
        )
    }
}
