//! How far a run has been read.
ghost use Rattle.std.specs.Prelude.{◌≡◌, ◌==◌, ◌≤◌, nat_lt, not};

use crate::entry::Entry;
use totem_names::{Proc, Version};

/// How many entries a log may have at most.
const MOST_ENTRIES: u32 = 1_000_000;

/// How far a run has been read: what the rules for the text that follows need to know.
#[derive(Clone, Copy, Debug, PartialEq, Eq)]
pub struct Stage {
    /// The version of the text.
    pub version: Version,
    /// How many logs have begun.
    pub logs: u32,
    /// The rank of the process of the last of these logs, or 0 before the first.
    pub last: u32,
    /// The log that has begun and not ended.
    pub log: Option<OpenLog>,
}

/// A log that has not ended.
#[derive(Clone, Copy, Debug, PartialEq, Eq)]
pub struct OpenLog {
    /// The number of its entries.
    pub entries: u32,
    /// Whether the last of them is a failure.
    pub failed: bool,
}

impl OpenLog {
    /// Returns whether it has no entry yet.
    pub(crate) fn is_empty(self) -> bool
        ensures { result ≡ not (nat_lt 0 self.entries) }
    {
        self.entries == 0
    }

    /// Returns whether no further entry may follow.
    pub(crate) fn is_full(self) -> bool
        ensures { result ≡ (self.entries == 1000000) }
    {
        self.entries == MOST_ENTRIES
    }
}

impl Stage {
    ghost use Rattle.std.specs.Option.{ForSome};
    ghost use Rattle.totem_evs.specs.declared.ending.Ending.{Ending};
    ghost use Rattle.totem_evs.specs.declared.part.Part.TheVariants as parts;
    ghost use Rattle.totem_evs.specs.Parts.{first_stage, next_stage};

    /// Returns the stage after the first line of a run of this version.
    pub fn first(version: Version) -> Stage
        ensures { result ≡ first_stage version }
    {
        Stage {
            version,
            logs: 0,
            last: 0,
            log: None,
        }
    }

    /// Returns the stage after the first line of a log of this process.
    pub fn with_log(self, proc: Proc) -> Stage
        requires { self.logs ≤ 32 }
        ensures { result ≡ next_stage self (parts.Log proc) }
    {
        Stage {
            version: self.version,
            logs: self.logs + 1,
            last: proc.rank(),
            log: Some(OpenLog {
                entries: 0,
                failed: false,
            }),
        }
    }

    /// Goes on to the stage after this entry.
    pub fn pass_entry(&mut self, entry: &Entry)
        requires { ForSome self.old.log (λ log. log.entries ≤ 1000000) }
        ensures { self.new ≡ next_stage self.old (parts.Entry entry.now) }
    {
        if let Some(log) = &mut self.log {
            log.entries += 1;
            log.failed = entry.is_failure();
        }
    }

    /// Returns the stage after the end of the log.
    pub fn without_log(self) -> Stage
        ensures { (ending : Ending) → result ≡ next_stage self (parts.Close ending) }
    {
        Stage {
            version: self.version,
            logs: self.logs,
            last: self.last,
            log: None,
        }
    }
}
