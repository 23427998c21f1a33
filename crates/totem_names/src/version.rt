ghost use Rattle.std.specs.Prelude.{◌≡◌};
ghost use Rattle.totem_names.specs.Processes.{writes_lives};

/// The version of a text: what it can say.
#[derive(Clone, Copy, Debug, PartialEq, Eq, PartialOrd, Ord, Hash)]
pub enum Version {
    /// Each process has life 1, and no life is written.
    One,
    /// Each process is written with its life.
    Two,
    /// As `Two`, and a log may also be closed as quiet.
    Three,
}

impl Version {
    /// Returns whether texts of this version write the lives of processes.
    pub fn lives(self) -> bool
        ensures { result ≡ writes_lives self }
    {
        match self {
            Version::One => false,
            Version::Two | Version::Three => true,
        }
    }
}
