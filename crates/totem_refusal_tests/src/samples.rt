//! Entries as text, and lists that grow.
ghost use Rattle.std.specs.Prelude.{◌≡◌};

use bytes::Bytes;
use std::alloc::{AllocError, Global};
use std::collections::VecDeque;
use std::fmt;
use std::sync::Arc;
use std::test::Fail;
use totem_core::Input;
use totem_evs::{Entry, Members, Refused};
use totem_names::{Proc, ProcId, RingId, Service};
use totem_packets::Packet;

/// Packets on their way, each with its receiver.
pub type Queue = VecDeque<(ProcId, Packet)>;

/// Appends a packet.
pub fn put(queue: &mut Queue, item: (ProcId, Packet)) -> Result<(), AllocError> {
    match queue.push_back(item) {
        Ok(()) => Ok(()),
        Err(back) => Ok(queue.push_back(back.value)?),
    }
}

#[derive(Drop)]
struct Lines<'a>(&'a [Entry]);

impl fmt::Display for Lines<'_> {
    fn fmt<W: fmt::Write>(&self, f: &mut fmt::Formatter<W>) -> fmt::Result {
        for entry in self.0 {
            write!(f, "{entry};")?;
        }
        Ok(())
    }
}

fn once_told(alloc: Global, entries: &[Entry]) -> Result<String, AllocError> {
    format!(in alloc; "{}", Lines(entries))
}

/// Returns the entries as lines of a run's text, with `;` for a line's end.
pub fn told(alloc: Global, entries: &[Entry]) -> Result<String, AllocError> {
    again!(once_told(alloc, entries))
}

pub fn proc(number: u16) -> ProcId {
    ProcId::of(number.max(1))
}

fn once_procs(alloc: Global, last: u16) -> Result<Vec<ProcId>, AllocError> {
    let mut list = Vec::new(alloc);
    for value in 0..last {
        list.push(ProcId::of(value.saturating_add(1)))?;
    }
    Ok(list)
}

/// Returns the processes from 1 to this one.
pub fn procs(alloc: Global, last: u16) -> Result<Vec<ProcId>, AllocError> {
    again!(once_procs(alloc, last))
}

fn once_first_lives(
    alloc: Global,
    procs: &[ProcId],
) -> Result<Result<Members, Refused<Arc<Vec<Proc>>>>, AllocError> {
    let mut list = Vec::new(alloc);
    for proc in procs {
        list.push(Proc::first(*proc))?;
    }
    Ok(Members::new(Arc::new(alloc, list)?))
}

/// Returns the first lives of these processes as members.
pub fn first_lives(alloc: Global, procs: &[ProcId]) -> Result<Members, Fail> {
    Ok(again!(once_first_lives(alloc, procs))??)
}

/// Returns the first lives of the processes from 1 to this one as members.
pub fn first(alloc: Global, last: u16) -> Result<Members, Fail> {
    first_lives(alloc, &procs(alloc, last)?)
}

/// Returns a client's message `x`.
pub fn submit() -> Input {
    Input::Submit {
        service: Service::Agreed,
        payload: Bytes::from_static(b"x"),
    }
}

/// Returns a ring with the representative 1.
pub fn ring(seq: u32) -> RingId {
    RingId {
        seq: seq.max(1),
        rep: ProcId::of(1),
    }
}

/// Returns ring 4.1.
pub fn four() -> RingId
    ensures { result ≡ record { seq = 4; rep = 1 } }
{
    RingId {
        seq: 4,
        rep: ProcId::of(1),
    }
}
