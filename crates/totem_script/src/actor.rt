//! A process of a script.
ghost use Rattle.std.specs.Prelude.{◌≡◌, ◌+◌, ◌<◌, ◌≤◌, ◌∷◌, ◌++◌, [], length, true, IfOk, OnOk};
ghost use Rattle.totem_evs.specs.Members.{IsMembers};
ghost use Rattle.totem_names.specs.Ranks.{id_of};
ghost use Rattle.totem_core.specs.Nodes.{new_node};
ghost use Rattle.totem_core.specs.Replay.{first_change};
ghost use Rattle.totem_script.specs.Actors.{new_actor, actor_step, log_of, log_with, logs_of, may_return, returned, ring_of_return, IsHistory, IsActorStep};

use crate::script_fault::ScriptFault;
use std::alloc::{AllocError, Global};
use std::marker::Model;
use std::mem;
use totem_core::{Input, NodeCore, NodeFault};
use totem_evs::{Entries, Entry, Log};
use totem_names::{Proc, ProcId, RingId, Version, life_fits};
use totem_packets::Packet;
use totem_ring::To;

/// The greatest number of entries of a log.
const MOST: usize = 1_000_000;

/// How far the number of a return's ring is above the greatest ring number of the node that crashed.
const STEP: u32 = 4;

/// A process of a script: its present life, the logs of its earlier lives, its node, and the entries that the node has written.
#[derive(Drop)]
pub struct ActorState {
    proc: Proc,
    earlier: Vec<Log>,
    node: NodeCore,
    entries: Vec<Entry>,
}

impl Model for ActorState {
    ghost use Rattle.std.specs.Prelude.{◌<◌, ◌≤◌, length};
    ghost use Rattle.totem_script.specs.Actors.{Actor, IsHistory};

    ghost Value = { Actor };

    ghost view = { λ a. record { proc = a.proc; earlier = a.earlier.items; node = a.node; entries = a.entries.items } };

    ghost invariant = { λ a. (0 < length a.entries.items) × (length a.entries.items ≤ 1000000) × IsHistory a.proc a.earlier.items };
}

/// Returns a node that starts on this ring, and the list of its entries, which begins with the change to the ring.
fn started(
    alloc: Global,
    proc: Proc,
    ring: RingId,
    members: &[Proc],
) -> Result<(NodeCore, Vec<Entry>), AllocError>
    requires { IsMembers members.now }
    ensures node { IfOk result (λ s. s.0 ≡ new_node proc ring members.now) }
    ensures entries { IfOk result (λ s. s.1.items ≡ first_change ring members.now ∷ []) }
{
    let (node, change) = NodeCore::new(alloc, proc, ring, members)?;
    let mut entries = Vec::new(alloc);
    entries.push(change)?;
    Ok((node, entries))
}

/// Returns the log of a process, from the entries that it has written.
fn log_with(proc: Proc, entries: Vec<Entry>) -> Log
    requires some { 0 < length entries.items }
    requires few { length entries.items ≤ 1000000 }
    ensures { result ≡ log_with proc entries.items }
{
    match Entries::new(entries) {
        Ok(entries) => {
            let ending = entries.ending();
            Log::new(proc, entries, ending)
        }
        Err(_) => unreachable!(),
    }
}

impl ActorState {
    /// Returns a process whose node starts on this ring, with no earlier lives.
    pub fn new(
        alloc: Global,
        proc: Proc,
        ring: RingId,
        members: &[Proc],
    ) -> Result<ActorState, AllocError>
        requires { IsMembers members.now }
        ensures { IfOk result (λ a. a ≡ new_actor proc ring members.now) }
    {
        let (node, entries) = started(alloc, proc, ring, members)?;
        Ok(ActorState {
            proc,
            earlier: Vec::new(alloc),
            node,
            entries,
        })
    }

    /// Returns the identifier of the process.
    pub fn id(&self) -> ProcId
        ensures { result ≡ id_of self.now.proc }
    {
        self.proc.id()
    }

    /// Returns the number of lives that the process has had.
    pub fn lives(&self) -> usize
        ensures { result ≡ length self.now.earlier + 1 }
    {
        self.earlier.len() + 1
    }

    /// Does nothing. The contract says that the lives of the process are ascending.
    pub fn keeps_its_rules(&self)
        ensures { IsHistory self.now.proc self.now.earlier }
    {
        let _ = &self.proc;
    }

    /// Gives the node this input, and returns what the node sends. A step that the node refuses changes nothing.
    /// `TooMany` if the log would have more than 1,000,000 entries.
    pub fn step(&mut self, alloc: Global, input: Input) -> Result<Vec<(To, Packet)>, ScriptFault>
        ensures stepped { IsActorStep result self.new (actor_step self.old input) }
        ensures same { self.new.proc ≡ self.old.proc }
        ensures earlier { self.new.earlier ≡ self.old.earlier }
    {
        let mut out = match self.node.step(alloc, input) {
            Ok(out) => out,
            Err(fault) => {
                if fault == NodeFault::Memory {
                    return Err(ScriptFault::Memory);
                }
                return Ok(Vec::new(alloc));
            }
        };
        if out.entries.len() > MOST - self.entries.len() {
            return Err(ScriptFault::TooMany);
        }
        self.entries.append(&mut out.entries)?;
        Ok(out.packets)
    }

    /// Returns whether the process may return: it has crashed, and numbers are left for its next life and for that life's
    /// ring.
    pub fn may_return(&self) -> bool
        ensures { result ≡ may_return self.now }
    {
        self.node.has_crashed() && self.proc.life() < u16::MAX && self.node.seq() <= u32::MAX - STEP
    }

    /// Begins the next life of the process, and returns the ring on which it is alone. The entries of the life before are
    /// kept as a log.
    pub fn bring_back(&mut self, alloc: Global) -> Result<RingId, AllocError>
        requires { may_return self.old ≡ true }
        ensures done { OnOk result (self.new ≡ returned self.old) }
        ensures ring { IfOk result (λ ring. ring ≡ ring_of_return self.old) }
        ensures same { id_of self.new.proc ≡ id_of self.old.proc }
        ensures lives { length self.new.earlier ≤ length self.old.earlier + 1 }
    {
        let id = self.proc.id();
        let proc = Proc::of(id, self.proc.life() + 1);
        let ring = RingId {
            seq: self.node.seq() + STEP,
            rep: id,
        };
        life_fits(Version::Two, proc);
        let (node, entries) = started(alloc, proc, ring, &[proc])?;
        let ended = mem::replace(&mut self.entries, entries);
        self.earlier.push(log_with(self.proc, ended))?;
        self.proc = proc;
        self.node = node;
        Ok(ring)
    }

    /// Returns the logs of the earlier lives, and that of the present one.
    fn into_lives(self) -> (Vec<Log>, Log)
        ensures earlier { result.0.items ≡ self.earlier }
        ensures present { result.1 ≡ log_of self }
    {
        let ActorState {
            proc,
            earlier,
            node: _,
            entries,
        } = self;
        (earlier, log_with(proc, entries))
    }

    /// Appends a log for each life to these logs.
    pub fn put_logs(self, logs: &mut Vec<Log>) -> Result<(), AllocError>
        ensures { OnOk result (logs.new.items ≡ logs.old.items ++ logs_of self) }
    {
        let (mut earlier, present) = self.into_lives();
        logs.append(&mut earlier)?;
        logs.push(present)?;
        Ok(())
    }
}
