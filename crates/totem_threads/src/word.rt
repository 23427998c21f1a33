//! What the words of a node's three threads ask.
ghost use Rattle.std.specs.Prelude.{◌≡◌, false, IfOk};
ghost use Rattle.totem_core.specs.FirstLives.{IsFirstPacket};
ghost use Rattle.totem_threads.specs.FirstLives.{IsFirstTask};
ghost use Rattle.totem_threads.specs.Words.{names_later_life, packet_task, timer_task, client_task};

use crate::task::Task;
use bytes::Bytes;
use std::alloc::{AllocError, Global};
use totem_core::Input;
use totem_net::{ClientWord, PacketWord, TimerWord};
use totem_packets::{Packet, PacketFault};

/// The payload that a client submits.
const PAYLOAD: &[u8] = b"x";

/// A channel message to a thread of a node.
pub trait Word: Drop + Send {
    ghost use Rattle.totem_threads.specs.declared.task.Task.{Task};

    ghost task_of: { Self → Task };

    /// Returns what the channel message asks. The only fault is out of memory.
    fn task(self, alloc: Global) -> Result<Task, AllocError>
        ensures value { IfOk result (λ task. task ≡ task_of self) }
        ensures first { IfOk result IsFirstTask };
}

/// Returns whether a packet names a life above the first. No node of a run in threads has one.
fn names_later_life(packet: &Packet) -> bool
    ensures value { result ≡ names_later_life packet.now }
    ensures first { result ≡ false → IsFirstPacket packet.now }
{
    let Packet::Commit(token) = packet else {
        return false;
    };
    let _members = token.members.as_slice();
    token.members.has_later_life()
}

impl Word for PacketWord {
    ghost task_of = { packet_task };

    /// Decodes the packet. Bytes that are no packet ask for nothing, and neither does a packet that names a later life.
    fn task(self, alloc: Global) -> Result<Task, AllocError> {
        let PacketWord::Packet(bytes) = self else {
            return Ok(Task::Stop);
        };
        match Packet::decode(alloc, bytes.as_slice()) {
            Ok(packet) if names_later_life(&packet) => Ok(Task::Nothing),
            Ok(packet) => Ok(Task::Input(Input::Packet(packet))),
            Err(PacketFault::Memory) => Err(AllocError),
            Err(_) => Ok(Task::Nothing),
        }
    }
}

impl Word for TimerWord {
    ghost task_of = { timer_task };

    fn task(self, _alloc: Global) -> Result<Task, AllocError> {
        Ok(match self {
            TimerWord::Timer => Task::Input(Input::Timer),
            TimerWord::Stop => Task::Stop,
        })
    }
}

impl Word for ClientWord {
    ghost task_of = { client_task };

    fn task(self, _alloc: Global) -> Result<Task, AllocError> {
        Ok(match self {
            ClientWord::Submit(service) => Task::Input(Input::Submit {
                service,
                payload: Bytes::from_static(PAYLOAD),
            }),
            ClientWord::Stop => Task::Stop,
        })
    }
}
