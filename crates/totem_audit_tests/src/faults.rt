//! The texts of faults.
use crate::values::is_told;
use std::alloc::{AllocError, Global};
use totem_cert::{CertFault, Numbers};
use totem_check::CheckFault;
use totem_evs::{ListFault, Refused, RunFault};
use totem_names::{Proc, ProcId, Version};

/// Returns that the first life of process 3 has no log, as a text of this version says it.
fn missing(version: Version) -> RunFault {
    RunFault::MissingLog(Proc::first(ProcId::of(3)).written(version))
}

fn refused(fault: ListFault) -> Refused<u8> {
    Refused { fault, value: 1 }
}

fn read_told(alloc: Global) -> Result<String, AllocError> {
    format!(in alloc;
        "{}; {}; {}; {}",
        CertFault::Order,
        missing(Version::One),
        missing(Version::Two),
        RunFault::Word
    )
}

fn lists_told(alloc: Global) -> Result<String, AllocError> {
    format!(in alloc;
        "{}; {}; {}; {}; {}",
        refused(ListFault::Empty),
        refused(ListFault::TooMany(32)),
        refused(ListFault::NotRising(2)),
        refused(ListFault::Life(2)),
        refused(ListFault::Silence(2))
    )
}

/// Returns the text of the refusal of a line with the number 0.
fn numbers_told(alloc: Global) -> Result<String, AllocError> {
    match Numbers::new([0].to_vec(alloc)?) {
        Ok(_) => String::from_str(alloc, "taken"),
        Err(refused) => refused.to_string(alloc),
    }
}

/// Faults of texts, lists, numbers and certificates say what is wrong.
#[test]
fn faults_have_their_texts(rt: HostRuntime) -> Result<(), AllocError> {
    is_told(
        &rt,
        &read_told(rt.alloc())?,
        "lines not in ascending order of their processes; process 3 has no log; process 3:1 has no log; unexpected byte",
        "texts",
    );
    is_told(
        &rt,
        &lists_told(rt.alloc())?,
        "the list is empty; more than 32 elements; the element at index 2 is not above the one before; \
        the element at index 2 has or names a life other than 1; the element at index 2 is quiet",
        "lists",
    );
    is_told(
        &rt,
        &numbers_told(rt.alloc())?,
        "the number at index 0 is 0",
        "numbers",
    );
    let shared = CheckFault::SharedPosition.to_string(rt.alloc())?;
    is_told(
        &rt,
        &shared,
        "two entries of different classes share a number",
        "certificates",
    );
    Ok(())
}
