ghost use Rattle.std.specs.Prelude.{◌≡◌};
ghost use Rattle.totem_verdicts.specs.Endings.{outcome_status};

/// How a call that writes a report or a run ended.
#[derive(Clone, Copy, Debug, PartialEq, Eq)]
pub enum Outcome {
    /// The run meets the specifications.
    Yes,
    /// The run breaks at least one specification.
    No,
    /// A run was made.
    Made,
}

impl Outcome {
    /// Returns the status with which the program ends after this outcome.
    pub fn status(self) -> u8
        ensures { result ≡ outcome_status self }
    {
        match self {
            Outcome::Yes => 0,
            Outcome::No => 1,
            Outcome::Made => 0,
        }
    }
}
