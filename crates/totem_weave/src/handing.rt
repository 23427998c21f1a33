//! The messages that each member's steps deliver to its node.
ghost use Rattle.std.specs.Prelude.{◌≡◌, ◌<◌, length, map, IfOk, OnOk};
ghost use Rattle.totem_weave.specs.Tracks.{up_of_tracks};
ghost use Rattle.totem_weave.specs.Folds.{Own, IsAt, own_start, with_act, with_acts};

use crate::seat::try_act;
use crate::track::Track;
use std::alloc::{AllocError, Global};
use totem_names::{Proc, ProcId, RingId};
use totem_packets::Message;
use totem_recover::ids_of;
use totem_ring::{Act, RingState};

/// Does an act of a member, and appends what it delivers to the node. A refused act changes nothing.
fn hand_up(
    alloc: Global,
    state: &mut RingState,
    handed: &mut Vec<Message>,
    act: &Act,
) -> Result<(), AllocError>
    ensures { OnOk result ((own : Own) → IsAt own state.old handed.old.items → IsAt (with_act own act.now) state.new handed.new.items) }
{
    if let Some(mut out) = try_act(alloc, state, act)? {
        handed.append(&mut out.handed)?;
    }
    Ok(())
}

/// Returns what a member delivers to its node when it does these acts, one after another, on a new ring.
fn handed_by(
    alloc: Global,
    ring: RingId,
    members: &[ProcId],
    proc: ProcId,
    acts: &[Act],
) -> Result<Vec<Message>, AllocError>
    requires { 0 < length members.now }
    ensures { IfOk result (λ up. up.items ≡ (with_acts (own_start ring members.now proc) acts.now).up) }
{
    let mut state = RingState::new(alloc, proc, ring, members)?;
    let mut handed = Vec::new(alloc);
    for act in acts {
        hand_up(alloc, &mut state, &mut handed, act)?;
    }
    Ok(handed)
}

/// Returns each member with what the track at its place delivers to the node.
pub fn handed_up(
    alloc: Global,
    ring: RingId,
    members: &[Proc],
    tracks: &[Track],
) -> Result<Vec<(Proc, Vec<Message>)>, AllocError>
    requires some { 0 < length members.now }
    requires each { length tracks.now ≡ length members.now }
    ensures { IfOk result (λ lists. map (λ h. (h.0, h.1.items)) lists.items ≡ up_of_tracks ring members.now tracks.now) }
{
    let ids = ids_of(alloc, members)?;
    let mut lists = Vec::new(alloc);
    for place in 0..members.len() {
        let track = &tracks[place];
        let handed = handed_by(alloc, ring, &ids, track.proc, &track.acts)?;
        lists.push((members[place], handed))?;
    }
    Ok(lists)
}
