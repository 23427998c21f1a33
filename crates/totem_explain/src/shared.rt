//! Faults that come of the same missing delivery.
use crate::event::place_name;
use crate::lookup::message_at;
use std::alloc::{AllocError, Global};
use totem_evs::{Fault, Run, SpecNo};
use totem_names::{MsgId, Proc, Version};

/// A process and a message that it lacks.
#[derive(Clone, Copy, PartialEq, Eq)]
struct Missing {
    proc: Proc,
    message: MsgId,
}

/// Returns the missing delivery that is a fault of 3, 4, 5 or 6.3, or `None` for any other fault.
fn missing_in(run: &Run, fault: &Fault) -> Option<Missing> {
    let (known, lacking) = match (fault.spec, fault.places.as_slice()) {
        (SpecNo::OwnDelivery, [send, ..]) => (*send, send.proc),
        (SpecNo::Atomicity | SpecNo::Causality | SpecNo::Gap, [known, _, due, ..]) => {
            (*known, due.proc)
        }
        _ => return None,
    };
    Some(Missing {
        proc: lacking,
        message: message_at(run, known)?,
    })
}

/// Returns the line of a fault as in the report.
fn line_of(alloc: Global, version: Version, fault: &Fault) -> Result<String, AllocError> {
    let spec = fault.spec;
    let mut text = format!(in alloc; "fault {spec}")?;
    for place in fault.places.as_slice() {
        text.push_str(" ")?;
        text.push_str(place_name(alloc, version, *place)?.as_str())?;
    }
    Ok(text)
}

/// Returns a line that says which of the earlier faults comes of the same missing delivery as this one, or nothing.
pub fn same_as(
    alloc: Global,
    run: &Run,
    earlier: &[Fault],
    fault: &Fault,
) -> Result<String, AllocError> {
    let this = missing_in(run, fault);
    let mut earlier = earlier.iter();
    let same = earlier.find(|one| this.is_some() && missing_in(run, one) == this);
    let Some(one) = same else {
        return Ok(String::new(alloc));
    };
    let line = line_of(alloc, run.version, one)?;
    format!(in alloc; "  It is the same missing delivery as above, at `{line}`.\n")
}
