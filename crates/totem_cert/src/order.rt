ghost use Rattle.std.specs.Prelude.{◌≡◌, IfOk};
ghost use Rattle.totem_cert.specs.Answer.{IsOrder};
ghost use Rattle.totem_certificate.specs.Keeping.{certificate_version};
ghost use Rattle.totem_cert.specs.Progress.{IsSound, IsFull};

use crate::closed_list::closed_list;
use crate::counted::number_by_counts;
use crate::numbering::first_left;
use std::alloc::{AllocError, Global};
use totem_certificate::{Certificate, Line, Lines, OpenLine};
use totem_evs::{Fault, Run};
use totem_names::Version;
use totem_table::Table;

/// The positions of a run's events, or the closed list that shows that they have none.
#[derive(Debug, Drop)]
pub enum Order {
    Positions(Certificate),
    Cycle(Fault),
}

impl Order {
    pub fn try_clone(&self, alloc: Global) -> Result<Order, AllocError>
        ensures { IfOk result (λ order. order ≡ self.now) }
    {
        match self {
            Order::Positions(certificate) => Ok(Order::Positions(certificate.try_clone(alloc)?)),
            Order::Cycle(fault) => Ok(Order::Cycle(fault.try_clone(alloc)?)),
        }
    }
}

/// Returns the version of the certificate of a run of this version. A certificate does not say how logs end.
fn certificate_version(version: Version) -> Version
    ensures { result ≡ certificate_version version }
{
    match version {
        Version::One => Version::One,
        Version::Two | Version::Three => Version::Two,
    }
}

/// Makes the certificate from lines in which every entry has its number.
fn certificate(alloc: Global, run: &Run, lines: Vec<OpenLine>) -> Result<Certificate, AllocError>
    requires sound { IsSound run.now.logs lines.items }
    requires full { IsFull run.now.logs lines.items }
    ensures version { IfOk result (λ c. c.version ≡ certificate_version run.now.version) }
    ensures lines { IfOk result (λ c. c.lines ≡ lines.items) }
{
    let _ = run.logs.as_slice();
    let mut list: Vec<Line> = Vec::with_capacity(alloc, lines.len())?;
    for line in lines {
        list.push(line.close())?;
    }
    Ok(Certificate {
        version: certificate_version(run.version),
        lines: Lines::of(list),
    })
}

/// Gives each event a number: the ready class with the least place gets the next number, again and again
/// (docs/SPECIFICATIONS.md, "Positions"). If classes are left and none is ready, returns a closed list instead.
pub fn positions(alloc: Global, run: &Run) -> Result<Order, AllocError>
    ensures { IfOk result (λ order. IsOrder run.now order) }
{
    let table = Table::build(alloc, run)?;
    let lines = number_by_counts(alloc, run, &table)?;
    match first_left(run, &lines) {
        None => Ok(Order::Positions(certificate(alloc, run, lines)?)),
        Some(k) => Ok(Order::Cycle(closed_list(alloc, run, &table, &lines, k)?)),
    }
}
