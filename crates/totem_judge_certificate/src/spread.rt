//! The numbers of each class, from which the first fault of a certificate is found.
ghost use Rattle.std.specs.Prelude.{◌≡◌, ◌↔◌, ◌+◌, ◌<◌, IfOk, OnOk, IsTrue, Some, length};
ghost use Rattle.std.specs.BTreeMap.{Updates};
ghost use Rattle.totem_evs.specs.Certificates.{Matches};
ghost use Rattle.totem_evs.specs.Runs.{IsRun};
ghost use Rattle.totem_judge_certificate.specs.ClassOf.{class_order};
ghost use Rattle.totem_judge_certificate.specs.Spreads.{least_of, Differs, IsLeastOf, IsEntered, KnowsTo, Knows};

use crate::class::Class;
use std::alloc::{AllocError, Global};
use std::collections::BTreeMap;
use totem_certificate::Line;
use totem_evs::Log;

/// The least number of each class, and whether some class has more than one.
#[derive(Drop)]
pub struct Spread {
    pub least: BTreeMap<Class, u32>,
    pub is_apart: bool,
}

fn differs(known: Option<u32>, number: u32) -> bool
    ensures { IsTrue result ↔ Differs known number }
{
    match known {
        Some(known) => known != number,
        None => false,
    }
}

fn lesser(known: Option<u32>, number: u32) -> u32
    ensures { IsLeastOf known number result }
{
    match known {
        Some(known) => known.min(number),
        None => number,
    }
}

fn put(least: &mut BTreeMap<Class, u32>, class: &Class, number: u32) -> Result<(), AllocError>
    ensures { OnOk result (Updates class_order least.old least.new class.now (Some number)) }
{
    match class {
        Class::Change(conf) => least.insert(Class::Change(*conf), number)?,
        Class::Delivery(message) => least.insert(Class::Delivery(*message), number)?,
    };
    Ok(())
}

impl Spread {
    /// Returns the least number of the class, or `None` if the run has no event of it.
    pub fn least_of(&self, class: &Class) -> Option<u32>
        ensures { result ≡ least_of self.now class.now }
    {
        self.least.get(class).copied()
    }

    fn enter(&mut self, class: &Class, number: u32) -> Result<(), AllocError>
        ensures { OnOk result (IsEntered self.old self.new class.now number) }
    {
        let known = self.least_of(class);
        if differs(known, number) {
            self.is_apart = true;
        }
        put(&mut self.least, class, lesser(known, number))
    }

    /// Enters the events of one log, after those of the logs before it.
    fn enter_log(&mut self, logs: &[Log], lines: &[Line], index: usize) -> Result<(), AllocError>
        requires matches { Matches logs.now lines.now }
        requires run { IsRun logs.now }
        requires within { index < length logs.now }
        requires known { KnowsTo logs.now lines.now self.old index 0 }
        ensures { OnOk result (KnowsTo logs.now lines.now self.new (index + 1) 0) }
    {
        let log = &logs[index];
        let line = &lines[index];
        let entries = log.entries.as_slice();
        let numbers = line.numbers.as_slice();
        for at in 0..entries.len() {
            if let Some(class) = Class::of(&entries[at]) {
                self.enter(&class, numbers[at])?;
            }
        }
        Ok(())
    }

    /// Returns the spread of all classes of a run.
    #[tactic(auto, using(crate::proofs::Spreading::all_known))]
    pub fn of(alloc: Global, logs: &[Log], lines: &[Line]) -> Result<Spread, AllocError>
        requires matches { Matches logs.now lines.now }
        requires run { IsRun logs.now }
        ensures { IfOk result (Knows logs.now lines.now) }
    {
        let mut spread = Spread {
            least: BTreeMap::new(alloc),
            is_apart: false,
        };
        for index in 0..logs.len() {
            spread.enter_log(logs, lines, index)?;
        }
        Ok(spread)
    }
}
