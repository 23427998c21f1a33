//! Finds the first entries and sends of each class that have no number, in three passes over the run.
ghost use Rattle.std.specs.Prelude.{◌≡◌, ◌+◌, ◌<◌, ◌^◌, IfOk, Some, slice_get};
ghost use Rattle.totem_table.specs.Tables.{IsTable, kind_of};
ghost use Rattle.totem_cert.specs.Counts.{given_at};
ghost use Rattle.totem_cert.specs.Firsts.{AreFirsts, AreFirstsOf, AreFirstsTo, Notes, class_wanted};

use crate::counts::{class_fed, class_in};
use std::alloc::{AllocError, Global};
use totem_certificate::OpenLine;
use totem_evs::{Entry, Log, Run};
use totem_names::Place;
use totem_table::{Kind, Table};

/// Which entries are looked for.
#[derive(Clone, Copy)]
pub enum Wanted {
    /// Sends without a number, for the class that they feed.
    Sends,
    /// Entries without a number.
    Members,
    /// Entries after an entry without a number.
    Followers,
}

/// The first places of each class that have no number, from which its step is found.
#[derive(Drop)]
pub struct Firsts {
    /// The first send that the class waits for.
    pub sends: Vec<Option<Place>>,
    /// The first entry.
    pub members: Vec<Option<Place>>,
    /// The first entry after an entry without a number.
    pub followers: Vec<Option<Place>>,
}

/// Returns how many entries of the log at this index have a number.
pub fn given_at(lines: &[OpenLine], log: usize) -> usize
    ensures { result ≡ given_at lines.now log }
{
    match lines.get(log) {
        Some(line) => line.numbers().len(),
        None => 0,
    }
}

/// Returns the class for which an entry is wanted, if `given` entries of its log have numbers.
fn class_wanted(
    wanted: Wanted,
    messages: usize,
    given: usize,
    at: usize,
    kind: Kind,
    number: u32,
) -> Option<usize>
    requires { messages < 2 ^ 63 }
    ensures { (entry : Entry) → kind ≡ kind_of entry → result ≡ class_wanted wanted messages given at entry number }
{
    match wanted {
        Wanted::Sends if given <= at => class_fed(kind, number),
        Wanted::Members if given <= at => class_in(messages, kind, number),
        Wanted::Followers if given < at => class_in(messages, kind, number),
        _ => None,
    }
}

/// Notes a place for a class that has none yet.
#[tactic(auto, using(crate::proofs::FirstPlaces::notes_first, crate::proofs::FirstPlaces::notes_later, crate::proofs::FirstPlaces::notes_past, crate::proofs::FirstPlaces::notes_nothing))]
fn note(firsts: &mut [Option<Place>], class: Option<usize>, place: Place)
    ensures { Notes firsts.old firsts.new class place }
{
    let Some(class) = class else {
        return;
    };
    if firsts.len() <= class {
        return;
    }
    if firsts[class].is_none() {
        firsts[class] = Some(place);
    }
}

/// Notes the wanted entries of the k-th log, of which `given` entries have numbers.
fn note_log(
    firsts: &mut [Option<Place>],
    run: &Run,
    table: &Table,
    lines: &[OpenLine],
    wanted: Wanted,
    k: usize,
    log: &Log,
)
    requires table { IsTable run.now.logs table.now }
    requires log { slice_get run.now.logs k ≡ Some log.now }
    requires before { AreFirstsTo run.now.logs table.now lines.now wanted firsts.old k 0 }
    ensures { AreFirstsTo run.now.logs table.now lines.now wanted firsts.new (k + 1) 0 }
{
    let messages = table.messages.len();
    let row = table.rows[k].as_slice();
    let given = given_at(lines, k);
    let kinds = table.kinds[k].as_slice();
    let entries = log.entries.as_slice();
    for at in 0..entries.len() {
        let class = class_wanted(wanted, messages, given, at, kinds[at], row[at]);
        let place = Place {
            proc: log.proc,
            at: (at + 1) as u32,
        };
        note(firsts, class, place);
    }
}

/// Returns for each class the place of its first wanted entry.
fn first_places(
    alloc: Global,
    run: &Run,
    table: &Table,
    lines: &[OpenLine],
    wanted: Wanted,
) -> Result<Vec<Option<Place>>, AllocError>
    requires { IsTable run.now.logs table.now }
    ensures { IfOk result (λ firsts. AreFirsts run.now.logs table.now lines.now wanted firsts.items) }
{
    let classes = table.messages.len() + table.confs.len();
    let mut firsts = vec![in alloc; None; classes]?;
    for (k, log) in run.logs.as_slice().iter().enumerate() {
        note_log(&mut firsts, run, table, lines, wanted, k, log);
    }
    Ok(firsts)
}

impl Firsts {
    /// Finds the first places of all classes of a run.
    pub fn of(
        alloc: Global,
        run: &Run,
        table: &Table,
        lines: &[OpenLine],
    ) -> Result<Firsts, AllocError>
        requires { IsTable run.now.logs table.now }
        ensures { IfOk result (AreFirstsOf run.now.logs table.now lines.now) }
    {
        Ok(Firsts {
            sends: first_places(alloc, run, table, lines, Wanted::Sends)?,
            members: first_places(alloc, run, table, lines, Wanted::Members)?,
            followers: first_places(alloc, run, table, lines, Wanted::Followers)?,
        })
    }
}
