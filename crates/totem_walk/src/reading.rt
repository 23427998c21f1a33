//! Reading the entries of a run, and counting the reads.
ghost use Rattle.std.specs.Prelude.{◌≡◌, ◌+◌, ◌<◌, ◌≤◌, ◌^◌, Some, slice_get, length};
ghost use Rattle.totem_evs.specs.Events.{log_of};

use totem_evs::{Entry, Run};
use totem_names::Proc;

/// Returns all entries of this process. A process without a log has none.
pub fn entries_of(run: &Run, proc: Proc) -> &[Entry]
    ensures entries { result.now ≡ log_of run.now.logs proc }
    ensures few { length result.now ≤ 1000000 }
{
    for log in run.logs.as_slice() {
        if log.proc == proc {
            return log.entries.as_slice();
        }
    }
    &[]
}

/// Returns the entry at this index. Every entry is read through this function, so that `looks` counts the reads.
pub fn read<'l>(log: &'l [Entry], at: usize, looks: &mut u64) -> &'l Entry
    requires within { at < length log.now }
    requires room { looks.old + 1 < 2 ^ 64 }
    ensures entry { slice_get log.now at ≡ Some result.now }
    ensures counted { looks.new ≡ looks.old + 1 }
{
    *looks += 1;
    &log[at]
}
