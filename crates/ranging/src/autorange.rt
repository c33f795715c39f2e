//! Autorange (the source's `pw_autorange` and `pw_ovl_trip`): a range that changes is applied at once,
//! and the other channel's parts are kept.
ghost use Rattle.std.specs.Prelude.{◌≡◌};
ghost use Rattle.ranging.specs.Autorange.{other_than, applied, asked_v, asked_i, asked, autorange};

use crate::apply::{Keep, apply};
use crate::change::barred_after;
use state::{Comparator, Cycle, Mode, Parts, Ranges};
use tables::description::Description;

/// The channel that a result is of, by its name, which a mark would not say.
#[derive(Clone, Copy, Debug, PartialEq, Eq)]
pub enum Channel {
    Voltage,
    Current,
}

/// What an autorange may change.
#[derive(Clone, Copy)]
pub struct Ranging {
    pub ranges: Ranges,
    pub barred: u8,
    pub cycle: Cycle,
    pub comparator: Comparator,
}

/// What a range that was applied leaves, and when the host goes on.
#[derive(Clone, Copy)]
pub struct Ranged {
    pub ranging: Ranging,
    pub deadline: u64,
}

impl Channel {
    // What an apply keeps where this channel's range changes: the other channel's parts. (A method and no `From`:
    // what comes out names the channel that is kept, which is the other one, and not this one in another type.)
    #[tactic(auto, unfolding(crate::specs::Autorange::other_than))]
    fn other(self) -> Keep
        ensures { result ≡ other_than self }
    {
        match self {
            Channel::Voltage => Keep::Current,
            Channel::Current => Keep::Voltage,
        }
    }
}

// The description and the parts go to the methods below, and to those of change.rt, one by one: the description is
// what the meter was made with, the parts what it has measured, and no struct of the state holds both without the
// rest.
impl Ranging {
    // The ranges asked for are applied.
    #[tactic(auto, unfolding(crate::specs::Autorange::applied))]
    fn applied(self, keep: Keep, mode: Mode, now: u64) -> Ranged
        ensures { result ≡ applied keep mode self now }
    {
        let applied = apply(keep, mode, self.ranges.vr, self.cycle, self.comparator, now);
        Ranged {
            ranging: Ranging {
                cycle: applied.cycle,
                comparator: applied.comparator,
                ..self
            },
            deadline: applied.deadline,
        }
    }

    // The V range asked for after a V result, if another.
    #[tactic(auto, unfolding(crate::specs::Autorange::asked_v))]
    fn asked_v(self, description: Description, parts: Parts) -> Option<Ranging>
        ensures { result ≡ asked_v description parts self }
    {
        let vr = self.v_change(description, parts)?;
        Some(Ranging {
            ranges: Ranges { vr, ..self.ranges },
            ..self
        })
    }

    // The current range asked for after a current result, if another. A trip bars the unit and goes to 10 A.
    #[tactic(auto, unfolding(crate::specs::Autorange::asked_i))]
    fn asked_i(self, description: Description, parts: Parts) -> Option<Ranging>
        ensures { result ≡ asked_i description parts self }
    {
        if self.trips(description, parts) {
            return Some(Ranging {
                ranges: Ranges {
                    ik: 5,
                    ..self.ranges
                },
                barred: barred_after(self.barred, self.ranges.ik),
                ..self
            });
        }
        let ik = self.i_change(description, parts)?;
        Some(Ranging {
            ranges: Ranges { ik, ..self.ranges },
            ..self
        })
    }

    // The ranges asked for after a result of this channel, if others.
    #[tactic(auto, unfolding(crate::specs::Autorange::asked))]
    fn asked(self, channel: Channel, description: Description, parts: Parts) -> Option<Ranging>
        ensures { result ≡ asked channel description parts self }
    {
        match channel {
            Channel::Voltage => self.asked_v(description, parts),
            Channel::Current => self.asked_i(description, parts),
        }
    }
}

/// After a result of this channel: the range that it asks for is applied, or the ranges stay.
#[tactic(auto, unfolding(crate::specs::Autorange::autorange))]
pub fn autorange(
    channel: Channel,
    description: Description,
    mode: Mode,
    parts: Parts,
    before: Ranging,
    now: u64,
) -> Option<Ranged>
    ensures { result ≡ autorange channel description mode parts before now }
{
    let asked = before.asked(channel, description, parts)?;
    Some(asked.applied(channel.other(), mode, now))
}
