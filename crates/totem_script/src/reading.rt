//! Reads the command of a line.
ghost use Rattle.std.specs.Prelude.{◌≡◌, ◌≤◌, IfOk};
ghost use Rattle.totem_names.specs.Texts.{IsUpTo};
ghost use Rattle.totem_script.specs.Numbers.{only};
ghost use Rattle.totem_script.specs.Commands.{number_words, process_words, cut_words, words_of, command_of};
ghost use Rattle.totem_script.specs.Parsed.{Gives};

use crate::command::Command;
use crate::cutting::{groups, ring};
use crate::fault::LineFault;
use crate::keyword::Keyword;
use crate::numbers::{number, process};
use crate::parts::Parts;
use crate::script_version::ScriptVersion;
use crate::submitting::submit;
use std::alloc::Global;
use totem_names::ProcId;

/// The greatest number in `run`, `drop` and `repeat`.
const MOST: u32 = 100_000;

/// Reads a number with nothing after it.
fn count(words: &mut Parts<'_>) -> Result<u32, LineFault>
    ensures { result ≡ number_words words.old }
{
    let Some(word) = words.next() else {
        return Err(LineFault::Word);
    };
    let number = number(word, MOST)?;
    if !words.is_empty() {
        return Err(LineFault::Word);
    }
    Ok(number)
}

/// Reads a process with nothing after it.
fn one_process(words: &mut Parts<'_>) -> Result<ProcId, LineFault>
    ensures { result ≡ process_words words.old }
{
    let Some(word) = words.next() else {
        return Err(LineFault::Word);
    };
    let proc = process(word)?;
    if !words.is_empty() {
        return Err(LineFault::Word);
    }
    Ok(proc)
}

/// Returns the command if no word is left after it.
fn alone(command: Command, words: &Parts<'_>) -> Result<Command, LineFault>
    ensures { result ≡ only command words.now }
{
    if words.is_empty() {
        Ok(command)
    } else {
        Err(LineFault::Word)
    }
}

/// Returns the command of a line, given without its end, in a script of this version. A fault is that of its first
/// unexpected byte.
pub fn read_command(
    alloc: Global,
    version: ScriptVersion,
    line: &[u8],
) -> Result<Command, LineFault>
    ensures { Gives result (command_of version line.now) }
{
    let mut words = Parts::new(line, b' ');
    let Some(name) = words.next() else {
        return Err(LineFault::Word);
    };
    let Some(keyword) = Keyword::of(version, name) else {
        return Err(LineFault::Word);
    };
    match keyword {
        Keyword::Ring => ring(alloc, &mut words),
        Keyword::Submit => submit(alloc, &mut words),
        Keyword::Run => Ok(Command::Run {
            times: count(&mut words)?,
        }),
        Keyword::Drop => Ok(Command::Drop {
            place: count(&mut words)?,
        }),
        Keyword::Repeat => Ok(Command::Repeat {
            place: count(&mut words)?,
        }),
        Keyword::Cut => Ok(Command::Cut {
            groups: groups(alloc, &mut words)?,
        }),
        Keyword::Join => alone(Command::Join, &words),
        Keyword::Timer => Ok(Command::Timer {
            proc: one_process(&mut words)?,
        }),
        Keyword::Crash => Ok(Command::Crash {
            proc: one_process(&mut words)?,
        }),
        Keyword::Return => Ok(Command::Return {
            proc: one_process(&mut words)?,
        }),
        Keyword::End => alone(Command::End, &words),
    }
}
