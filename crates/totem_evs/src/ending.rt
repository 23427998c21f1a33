ghost use Rattle.std.specs.Prelude.{◌≡◌};
ghost use Rattle.totem_evs.specs.Endings.{writes_quiet};

use totem_names::Version;

/// How a log ends.
#[derive(Clone, Copy, Debug, PartialEq, Eq, PartialOrd, Ord, Hash)]
pub enum Ending {
    /// `open`: more may have followed.
    Standing,
    /// `failed`: the last entry is a failure.
    Failed,
    /// `quiet`: nothing more was to come. Texts of runs can write it from version 3 on.
    Quiet,
}

/// Returns whether a text of this version can close a log as quiet.
pub(crate) fn may_be_quiet(version: Version) -> bool
    ensures { result ≡ writes_quiet version }
{
    match version {
        Version::One | Version::Two => false,
        Version::Three => true,
    }
}
