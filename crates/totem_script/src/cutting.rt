//! Reads lists of processes: the members of a ring, and the groups of a cut.
ghost use Rattle.std.specs.Prelude.{◌≡◌, []};
ghost use Rattle.totem_script.specs.Commands.{some_processes, group_word, groups_from, ring_words};
ghost use Rattle.totem_script.specs.Parsed.{Gives};

use crate::command::Command;
use crate::fault::LineFault;
use crate::groups::Groups;
use crate::numbers::{process, ring as ring_name};
use crate::parts::Parts;
use crate::process_list::ProcessList;
use std::alloc::Global;
use totem_names::ProcId;

/// Reads at least one process.
#[tactic(auto, unfolding(crate::specs::Commands::processes_from))]
fn processes(alloc: Global, words: &mut Parts<'_>) -> Result<ProcessList, LineFault>
    ensures { Gives result (some_processes words.old) }
{
    let mut list = ProcessList::new(alloc);
    if words.is_empty() {
        return Err(LineFault::Word);
    }
    while let Some(word) = words.next() {
        list.push(process(word)?)?;
    }
    Ok(list)
}

/// Reads the ring and the members of a `ring` line.
pub fn ring(alloc: Global, words: &mut Parts<'_>) -> Result<Command, LineFault>
    ensures { Gives result (ring_words words.old) }
{
    let Some(name) = words.next() else {
        return Err(LineFault::Word);
    };
    let ring = ring_name(name)?;
    let members = processes(alloc, words)?;
    Ok(Command::Ring { ring, members })
}

/// Returns the process that the word spells, or `None` if the word is a stroke.
fn process_or_stroke(word: &[u8]) -> Result<Option<ProcId>, LineFault>
    ensures { result ≡ group_word word.now }
{
    if word == b"/".as_slice() {
        return Ok(None);
    }
    if word.starts_with(b"/".as_slice()) {
        return Err(LineFault::Word);
    }
    Ok(Some(process(word)?))
}

/// Reads the groups of a cut: at least one process in each, and a stroke between two groups.
#[tactic(auto, unfolding(crate::specs::Commands::groups_from))]
pub fn groups(alloc: Global, words: &mut Parts<'_>) -> Result<Groups, LineFault>
    ensures { Gives result (groups_from [] [] words.old) }
{
    let mut groups = Groups::new(alloc);
    let mut group = ProcessList::new(alloc);
    while let Some(word) = words.next() {
        if group.is_empty() {
            group.push(process(word)?)?;
        } else if let Some(proc) = process_or_stroke(word)? {
            group.push(proc)?;
        } else {
            groups.push(group)?;
            group = ProcessList::new(alloc);
        }
    }
    if group.is_empty() {
        return Err(LineFault::Word);
    }
    groups.push(group)?;
    Ok(groups)
}
