//! Looks for an entry that passes a test.
ghost use Rattle.std.specs.Prelude.{◌↔◌, IsTrue};
ghost use Rattle.totem_evs.specs.declared.entry.Entry.{Entry};
ghost use Rattle.totem_search.specs.Entries.{HasOne, SomeLog};

use totem_evs::{Entry, Run};

/// A test for entries, which need not know where they are.
pub trait EntryTest {
    ghost holds: { Self → Entry → Type 0 };

    fn test(&self, entry: &Entry) -> bool
        ensures { IsTrue result ↔ holds self.now entry.now };
}

/// Returns whether an entry of the log passes the test.
pub fn some_entry<T: EntryTest>(test: &T, log: &[Entry]) -> bool
    ensures { IsTrue result ↔ HasOne (T.holds test.now) log.now }
{
    log.iter().any(|entry| test.test(entry))
}

/// Returns whether an entry of the run passes the test.
pub fn some_event<T: EntryTest>(test: &T, run: &Run) -> bool
    ensures { IsTrue result ↔ SomeLog (T.holds test.now) run.now.logs }
{
    for log in run.logs.as_slice() {
        if some_entry(test, log.entries.as_slice()) {
            return true;
        }
    }
    false
}
