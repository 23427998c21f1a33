ghost use Rattle.std.specs.Prelude.{◌≡◌};
ghost use Rattle.totem_evs.specs.SpecNo.{spec_text};

use std::fmt;

/// A specification that a run may break, in the order in which faults are listed.
#[derive(Clone, Copy, Debug, PartialEq, Eq, PartialOrd, Ord, Hash)]
pub enum SpecNo {
    /// 1.1: an event precedes itself.
    Cycle,
    /// 1.3: a delivery of a message that was not sent for its configuration.
    Unsent,
    /// 1.4: a message sent twice, or delivered twice in one log, or sent in a transitional configuration.
    Twice,
    /// 2.1: a quiet log that ends in a configuration in which another member neither ends nor may still arrive.
    End,
    /// 2.2: an entry in a place where it is not allowed.
    Misplaced,
    /// 2.3: one configuration in two forms, twice in one log, or without the process that changes to it.
    Configuration,
    /// 2.4: regular and transitional configurations that do not alternate, or do not fit together.
    Turns,
    /// 3: a sender that neither delivers its own message, nor failed nor is open there.
    OwnDelivery,
    /// 4: processes that move on together and have delivered different messages.
    Atomicity,
    /// 5: a message delivered without one whose send precedes its own.
    Causality,
    /// 6.1: deliveries in different orders.
    Order,
    /// 6.3: a gap in the order of deliveries, though the sender is still a member.
    Gap,
    /// 7.1: a safe message that a member does not deliver.
    Safety,
    /// 7.2: a safe message delivered in a configuration to which a member never changed.
    Installed,
}

impl SpecNo {
    /// Returns the number of the specification as text, such as `1.4`.
    pub fn as_str(self) -> &'static str
        ensures { result.now ≡ spec_text self }
    {
        match self {
            SpecNo::Cycle => "1.1",
            SpecNo::Unsent => "1.3",
            SpecNo::Twice => "1.4",
            SpecNo::End => "2.1",
            SpecNo::Misplaced => "2.2",
            SpecNo::Configuration => "2.3",
            SpecNo::Turns => "2.4",
            SpecNo::OwnDelivery => "3",
            SpecNo::Atomicity => "4",
            SpecNo::Causality => "5",
            SpecNo::Order => "6.1",
            SpecNo::Gap => "6.3",
            SpecNo::Safety => "7.1",
            SpecNo::Installed => "7.2",
        }
    }
}

impl fmt::Display for SpecNo {
    ghost use Rattle.std.specs.Prelude.{Some};

    ghost output = { λ s. Some (spec_text s) };

    fn fmt<W: fmt::Write>(&self, f: &mut fmt::Formatter<W>) -> fmt::Result {
        f.write_str(self.as_str())
    }
}
