//! The passes of the audit (docs/SPECIFICATIONS.md, "Passes").
ghost use Rattle.std.specs.Prelude.{IfOk};
ghost use Rattle.totem_evs.specs.Answers.{Lists, pass_a, pass_b};
ghost use Rattle.totem_table.specs.Changes.{AreChanges};
ghost use Rattle.totem_pass_ab.specs.Listed.{ListsFirst};

use crate::{configuration_2_3, ends_2_1, misplaced_2_2, succession_2_4, twice_1_4, unsent_1_3};
use std::alloc::{AllocError, Global};
use totem_evs::{Fault, Run, SpecNo};
use totem_search::with_found;
use totem_table::Changes;

/// Pass A: for each of 1.4, 2.1, 2.2, 2.3 and 2.4 that the run breaks, in this order, its least events.
fn pass_a_of(alloc: Global, run: &Run, changes: &Changes) -> Result<Vec<Fault>, AllocError>
    requires { AreChanges run.now.logs changes.now.rows.items }
    ensures { IfOk result (λ faults. Lists run.now.logs pass_a faults.items) }
{
    let once = twice_1_4::find(alloc, run)?;
    let sends = with_found(Vec::new(alloc), SpecNo::Twice, once)?;
    let last = with_found(sends, SpecNo::End, ends_2_1::find(alloc, run)?)?;
    let places = with_found(last, SpecNo::Misplaced, misplaced_2_2::find(alloc, run)?)?;
    let two_forms = configuration_2_3::find(alloc, run, changes)?;
    let forms = with_found(places, SpecNo::Configuration, two_forms)?;
    let turns = succession_2_4::find(alloc, run, changes)?;
    with_found(forms, SpecNo::Turns, turns)
}

/// Pass B: the least event that breaks 1.3, if one does. It is made for runs that have passed A, and judges these in one walk.
fn pass_b_of(alloc: Global, run: &Run, changes: &Changes) -> Result<Vec<Fault>, AllocError>
    requires { AreChanges run.now.logs changes.now.rows.items }
    ensures { IfOk result (λ faults. Lists run.now.logs pass_b faults.items) }
{
    let unsent = unsent_1_3::find(alloc, run, changes)?;
    with_found(Vec::new(alloc), SpecNo::Unsent, unsent)
}

/// Passes A and B: the faults of pass A, or if it has none those of pass B. `Err` means out of memory, and says nothing about the run.
pub fn pass_a_and_b(alloc: Global, run: &Run) -> Result<Vec<Fault>, AllocError>
    ensures { IfOk result (λ faults. ListsFirst run.now.logs faults.items) }
{
    let changes = Changes::of(alloc, run)?;
    let faults = pass_a_of(alloc, run, &changes)?;
    if !faults.is_empty() {
        return Ok(faults);
    }
    pass_b_of(alloc, run, &changes)
}
