//! The version of a script.
ghost use Rattle.std.specs.Prelude.{◌≡◌};
ghost use Rattle.totem_script.specs.Versions.{version_in, version_of};

use totem_names::Version;

/// The version of a script: which commands there are.
#[derive(Clone, Copy, Debug, PartialEq, Eq)]
pub enum ScriptVersion {
    /// A process has one life.
    One,
    /// A process that has crashed may return: there is the command `return`.
    Two,
}

impl ScriptVersion {
    /// Returns the version that a script's first line names, if it names one.
    pub fn of(line: &[u8]) -> Option<ScriptVersion>
        ensures { result ≡ version_in line.now }
    {
        if line == b"totem-script 1".as_slice() {
            Some(ScriptVersion::One)
        } else if line == b"totem-script 2".as_slice() {
            Some(ScriptVersion::Two)
        } else {
            None
        }
    }

    /// Returns the version of the runs that scripts of this version make.
    pub fn of_runs(self) -> Version
        ensures { result ≡ version_of self }
    {
        match self {
            ScriptVersion::One => Version::One,
            ScriptVersion::Two => Version::Two,
        }
    }
}
