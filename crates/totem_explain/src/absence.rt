//! Events that a log lacks where a fault is that they are absent, and where they were due.
use crate::fate::{Fate, course_of, next_of};
use crate::lookup::{
    change_before, delivery_in, entry_at, log_of, message_at, origin_of, place_of,
};
use crate::members::{Member, parted, told_together};
use std::alloc::{AllocError, Global};
use totem_evs::{Entry, Fault, Run, SpecNo};
use totem_names::{ConfId, MsgId, Place, Version};

/// An event that a log lacks.
#[derive(Clone, Copy, Debug, PartialEq, Eq)]
pub enum Lacked {
    Delivery(MsgId),
    /// The change to this configuration.
    Change(ConfId),
    /// The end of the log in this configuration.
    End(ConfId),
}

/// An event that a log lacks, and the place before which it was due at the latest: one behind the log's last entry if that is its end.
#[derive(Clone, Copy, Debug, PartialEq, Eq)]
pub struct Absence {
    pub event: Lacked,
    pub due: Place,
}

impl Lacked {
    /// Returns the text about it that stands among the lines of a log.
    pub fn line(&self, alloc: Global) -> Result<String, AllocError> {
        match self {
            Lacked::Delivery(message) => format!(in alloc; "no dlv {message}"),
            Lacked::Change(conf) => format!(in alloc; "no conf {conf}"),
            Lacked::End(conf) => format!(in alloc; "no end in {conf}"),
        }
    }
}

/// An event that members of a configuration lack, which nothing excuses.
#[derive(Drop)]
pub struct Lack {
    event: Lacked,
    /// What they did not do, unless what happened to them says it.
    missed: String,
    members: Vec<Member>,
}

impl Lack {
    /// Returns lines that say what happened to the members.
    pub fn told(&self, alloc: Global, version: Version) -> Result<String, AllocError> {
        told_together(
            alloc,
            version,
            self.missed.as_str(),
            self.members.as_slice(),
        )
    }

    /// Returns the absence of the event in the log of each member that has one.
    pub fn absences(&self, alloc: Global, run: &Run) -> Result<Vec<Absence>, AllocError> {
        let mut list = Vec::new(alloc);
        for member in &self.members {
            if let Some(log) = log_of(run, member.proc) {
                let end = place_of(log, log.entries.as_slice().len());
                list.push(Absence {
                    event: self.event,
                    due: member.course.place.unwrap_or(end),
                })?;
            }
        }
        Ok(list)
    }
}

/// 3: returns the sender's own delivery, which it lacks.
fn own_delivery(alloc: Global, run: &Run, send: Place) -> Result<Option<Lack>, AllocError> {
    let (Some(log), Some(Entry::Send(message, conf, _))) = (
        log_of(run, send.proc),
        entry_at(run, send),
    ) else {
        return Ok(None);
    };
    let course = next_of(log, conf, send.at);
    let proc = send.proc;
    Ok(Some(Lack {
        event: Lacked::Delivery(*message),
        missed: format!(in alloc; "did not deliver {message} in {conf} or what follows it")?,
        members: vec![in alloc; Member { proc, course }]?,
    }))
}

/// 7.1, 7.2: returns what members of the configuration of a delivery lack: for 7.1 the message, for 7.2 the change to it.
fn lacked_at(
    alloc: Global,
    run: &Run,
    spec: SpecNo,
    delivery: Place,
) -> Result<Option<Lack>, AllocError> {
    let (Some(message), Some(log)) = (message_at(run, delivery), log_of(run, delivery.proc)) else {
        return Ok(None);
    };
    let Some((conf, all)) = change_before(log, delivery.at) else {
        return Ok(None);
    };
    // (7.1 asks for the message in the configuration in which it was sent and in what follows it, wherever others delivered it)
    let (event, missed, wanted) = match spec {
        SpecNo::Safety => (
            Lacked::Delivery(message),
            format!(in alloc; "did not deliver {message}")?,
            origin_of(run, message),
        ),
        _ => (Lacked::Change(conf), String::new(alloc), conf),
    };
    let mut members = Vec::new(alloc);
    for proc in all {
        let course = course_of(run, *proc, &wanted);
        let lacks = match event {
            Lacked::Delivery(_) => {
                let own = log_of(run, *proc).and_then(|log| delivery_in(log, message));
                course.fate.owes() && own.is_none()
            }
            _ => matches!(course.fate, Fate::NeverCame(_, _) | Fate::WithoutLog),
        };
        if lacks {
            members.push(Member {
                proc: *proc,
                course,
            })?;
        }
    }
    Ok(Some(Lack {
        event,
        missed,
        members,
    }))
}

/// 2.1: returns the end in the configuration of a change, which members lack.
fn end(alloc: Global, run: &Run, change: Place) -> Result<Option<Lack>, AllocError> {
    let Some(Entry::Conf(conf, _)) = entry_at(run, change) else {
        return Ok(None);
    };
    Ok(Some(Lack {
        event: Lacked::End(*conf),
        missed: String::new(alloc),
        members: parted(alloc, run, change)?,
    }))
}

/// Returns what members lack by a fault of 2.1, 3, 7.1 or 7.2, or `None` for any other fault.
pub fn lack_of(alloc: Global, run: &Run, fault: &Fault) -> Result<Option<Lack>, AllocError> {
    match (fault.spec, fault.places.as_slice()) {
        (SpecNo::OwnDelivery, [send, ..]) => own_delivery(alloc, run, *send),
        (SpecNo::Safety | SpecNo::Installed, [delivery, ..]) => {
            lacked_at(alloc, run, fault.spec, *delivery)
        }
        (SpecNo::End, [change, ..]) => end(alloc, run, *change),
        _ => Ok(None),
    }
}
