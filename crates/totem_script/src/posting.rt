//! The packets on their way, and how they are sent.
ghost use Rattle.std.specs.Prelude.{◌≡◌, ◌++◌, ◌==◌, ◌&&◌, not, OnOk};
ghost use Rattle.std.specs.List.{list_any};
ghost use Rattle.totem_packets.specs.Sets.{has};
ghost use Rattle.totem_script.specs.Scenes.{may_pass, to_others, posted, posted_all};

use crate::actor::ActorState;
use crate::groups::Groups;
use crate::process_list::ProcessList;
use std::alloc::{AllocError, Global};
use std::collections::VecDeque;
use totem_names::ProcId;
use totem_packets::Packet;
use totem_ring::To;

/// Packets on their way, each with its receiver.
pub type Queue = VecDeque<(ProcId, Packet)>;

/// Returns whether both processes are in this group.
fn are_together(group: &ProcessList, from: ProcId, to: ProcId) -> bool
    ensures { result ≡ (has group.now from && has group.now to) }
{
    group.contains(from) && group.contains(to)
}

fn is_group_of(groups: &[ProcessList], from: ProcId, to: ProcId) -> bool
    ensures { result ≡ list_any (λ group. has group from && has group to) groups.now }
{
    groups.iter().any(|group| are_together(group, from, to))
}

/// Returns whether packets pass between these processes: within one group, and between any two if there is no cut.
pub fn may_pass(cut: &Option<Groups>, from: ProcId, to: ProcId) -> bool
    ensures { result ≡ may_pass cut.now from to }
{
    match cut {
        None => true,
        Some(groups) => is_group_of(groups.as_slice(), from, to),
    }
}

/// Returns whether a broadcast reaches the process `to`.
fn is_reached(cut: &Option<Groups>, from: ProcId, to: ProcId) -> bool
    ensures { result ≡ (not (to == from) && may_pass cut.now from to) }
{
    to != from && may_pass(cut, from, to)
}

/// Puts a broadcast on its way to each other process of the script that it can reach, in ascending order.
fn broadcast(
    alloc: Global,
    queue: &mut Queue,
    cut: &Option<Groups>,
    actors: &[ActorState],
    from: ProcId,
    packet: &Packet,
) -> Result<(), AllocError>
    ensures { OnOk result (queue.new.items ≡ queue.old.items ++ to_others cut.now from packet.now actors.now) }
{
    for actor in actors {
        let to = actor.id();
        if !is_reached(cut, from, to) {
            continue;
        }
        queue.push_back((to, packet.try_clone(alloc)?))?;
    }
    Ok(())
}

/// Puts a packet that a process has sent on its way.
fn post(
    alloc: Global,
    queue: &mut Queue,
    cut: &Option<Groups>,
    actors: &[ActorState],
    from: ProcId,
    sending: (To, Packet),
) -> Result<(), AllocError>
    ensures { OnOk result (queue.new.items ≡ queue.old.items ++ posted cut.now actors.now from sending) }
{
    let (to, packet) = sending;
    match to {
        To::All => broadcast(alloc, queue, cut, actors, from, &packet),
        To::One(to) => {
            if may_pass(cut, from, to) {
                queue.push_back((to, packet))?;
            }
            Ok(())
        }
    }
}

/// Puts all packets that a process has sent on their way.
pub fn post_all(
    alloc: Global,
    queue: &mut Queue,
    cut: &Option<Groups>,
    actors: &[ActorState],
    from: ProcId,
    sendings: Vec<(To, Packet)>,
) -> Result<(), AllocError>
    ensures { OnOk result (queue.new.items ≡ queue.old.items ++ posted_all cut.now actors.now from sendings.items) }
{
    for sending in sendings {
        post(alloc, queue, cut, actors, from, sending)?;
    }
    Ok(())
}
