ghost use Rattle.std.specs.Prelude.{◌≡◌, map, IfOk, IfSome, IfNone};
ghost use Rattle.totem_evs.specs.Runs.{IsRun};
ghost use Rattle.totem_cert.specs.Progress.{IsSound, IsFirstLeft, IsFull, empty_line};

use std::alloc::{AllocError, Global};
use totem_certificate::OpenLine;
use totem_evs::{Log, Run};

/// Returns for each log a line without numbers, with space for all of its numbers.
pub fn started(alloc: Global, logs: &[Log]) -> Result<Vec<OpenLine>, AllocError>
    ensures { IfOk result (λ lines. lines.items ≡ map empty_line logs.now) }
{
    let mut lines = Vec::with_capacity(alloc, logs.len())?;
    for log in logs {
        let room = log.entries.as_slice().len();
        lines.push(OpenLine::with_room(alloc, log.proc, room)?)?;
    }
    Ok(lines)
}

/// Returns the index of the first log that has an entry without a number.
pub fn first_left(run: &Run, lines: &[OpenLine]) -> Option<usize>
    requires { IsSound run.now.logs lines.now }
    ensures found { IfSome result (λ k. IsFirstLeft run.now.logs lines.now k) }
    ensures none { IfNone result (IsFull run.now.logs lines.now) }
    ensures run { IsRun run.now.logs }
{
    for (k, log) in run.logs.as_slice().iter().enumerate() {
        if lines[k].numbers().len() < log.entries.as_slice().len() {
            return Some(k);
        }
    }
    None
}
