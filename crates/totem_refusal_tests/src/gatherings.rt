//! A gathering, and a commit token that circulates on a ring of two. Each call that is refused is made again.
use crate::samples::{four, proc, procs, ring};
use std::alloc::{AllocError, Global};
use std::test::Fail;
use totem_member::{
    Act, CommitOut, CommitView, Gather, GatherOut, MemberFault, Phase, first_commit, on_commit,
};
use totem_packets::{CommitToken, Join, Life, Number, Processes, Report};

/// Returns the set of the processes from 1 to this one.
fn set(alloc: Global, last: u16) -> Result<Processes, Fail> {
    Ok(Processes::new(&procs(alloc, last)?)?)
}

/// Returns the set of process 3 alone.
fn third(alloc: Global) -> Result<Processes, Fail> {
    Ok(set(alloc, 3)?.without(&set(alloc, 2)?))
}

/// Returns a Join of process 2, which knows `processes` and gave up `failed`.
fn join(processes: Processes, failed: Processes) -> Join {
    Join {
        sender: proc(2),
        seq: Number::of(4),
        processes,
        failed,
    }
}

fn len(set: Option<Processes>) -> usize {
    match set {
        None => 0,
        Some(set) => set.len(),
    }
}

fn on_join(alloc: Global, gathering: &mut Gather, join: &Join) -> Result<GatherOut, MemberFault> {
    again!(gathering.on_join(alloc, join))
}

/// Takes a Join. Returns the number of members on which there is consensus then.
fn hear(alloc: Global, gathering: &mut Gather, join: &Join) -> Result<usize, MemberFault> {
    let out = on_join(alloc, gathering, join)?;
    let members = out.members;
    Ok(len(members))
}

/// Takes a Join of 2, which knows 1, 2 and 3.
fn hear_all(alloc: Global, gathering: &mut Gather) -> Result<usize, Fail> {
    let join = join(set(alloc, 3)?, Processes::none());
    Ok(hear(alloc, gathering, &join)?)
}

/// Takes a Join of 2, which has given up 3.
fn hear_two(alloc: Global, gathering: &mut Gather) -> Result<usize, Fail> {
    let failed = third(alloc)?;
    let join = join(set(alloc, 3)?, failed);
    Ok(hear(alloc, gathering, &join)?)
}

fn on_timeout(alloc: Global, gathering: &mut Gather) -> Result<GatherOut, MemberFault> {
    again!(gathering.on_timeout(alloc))
}

fn time_out(alloc: Global, gathering: &mut Gather) -> Result<usize, MemberFault> {
    let out = on_timeout(alloc, gathering)?;
    let members = out.members;
    Ok(len(members))
}

/// Process 1 gathers with 2 and 3: it gets a Join of 2, gives up 3, which is silent, and gets a Join of 2, which gave up 3 too. Returns
/// the number on which there is consensus each time.
fn agreements(alloc: Global, gathering: &mut Gather) -> Result<[usize; 3], Fail> {
    let heard = hear_all(alloc, gathering)?;
    let silent = time_out(alloc, gathering)?;
    let last = hear_two(alloc, gathering)?;
    Ok([heard, silent, last])
}

/// Returns how many processes the gathering knows, would form a ring with, and has consensus with.
fn sizes(gathering: &Gather) -> [usize; 3] {
    [
        gathering.join().processes.len(),
        gathering.gathered().len(),
        len(gathering.consensus()),
    ]
}

fn copied(alloc: Global, gathering: &Gather) -> Result<Gather, AllocError> {
    again!(gathering.try_clone(alloc))
}

fn sizes_of_copy(alloc: Global, gathering: &Gather) -> Result<[usize; 3], AllocError> {
    Ok(sizes(&copied(alloc, gathering)?))
}

fn found(alloc: Global, gathering: &mut Gather) -> Result<([usize; 3], [usize; 3]), Fail> {
    let agreements = agreements(alloc, gathering)?;
    Ok((agreements, sizes_of_copy(alloc, gathering)?))
}

fn gather(alloc: Global) -> Result<Gather, Fail> {
    let base = set(alloc, 3)?;
    Ok(Gather::new(alloc, proc(1), &base, Number::of(4))?)
}

/// Returns the number of processes with consensus each time, and at last the sizes of a copy: known, gathered, with consensus.
fn life(alloc: Global) -> Result<([usize; 3], [usize; 3]), Fail> {
    let mut gathering = gather(alloc)?;
    found(alloc, &mut gathering)
}

/// A gathering reaches consensus on two processes after the third one is given up.
#[test]
fn a_gathering_agrees(rt: HostRuntime) -> Result<(), Fail> {
    let found = life(rt.alloc())?;
    assert_eq!(rt; found, ([0, 0, 2], [3, 2, 2]));
    Ok(())
}

/// Returns the view of a member of the ring of 1 and 2, which has filled the token of ring 8.1 if a phase is given.
fn view(alloc: Global, me: u16, phase: Option<Phase>) -> Result<CommitView, Fail> {
    let members = set(alloc, 2)?;
    Ok(CommitView {
        me: proc(me),
        members,
        seq: Number::of(if phase.is_some() { 8 } else { 4 }),
        filled: phase.map(|_| ring(8)),
        phase: phase.unwrap_or(Phase::Commit),
        started: false,
    })
}

fn report() -> Report {
    Report {
        life: Life::first(),
        ring: four(),
        aru: 3,
        delivered: 2,
        obligation: Processes::none(),
    }
}

fn once_made(alloc: Global, view: &CommitView) -> Result<CommitToken, MemberFault> {
    if !view.members.contains(view.me) {
        return Err(MemberFault::Stranger);
    }
    first_commit(alloc, view, report())
}

fn made_by(alloc: Global, view: &CommitView) -> Result<CommitToken, MemberFault> {
    match once_made(alloc, view) {
        Err(MemberFault::Memory) => once_made(alloc, view),
        answer => answer,
    }
}

/// Returns the token that process 1 makes.
fn made(alloc: Global) -> Result<CommitToken, Fail> {
    let view = view(alloc, 1, None)?;
    Ok(made_by(alloc, &view)?)
}

fn once_taken(
    alloc: Global,
    token: &CommitToken,
    view: &CommitView,
) -> Result<CommitOut, MemberFault> {
    on_commit(alloc, token, view, report())
}

fn taken(alloc: Global, token: &CommitToken, view: &CommitView) -> Result<CommitOut, MemberFault> {
    match once_taken(alloc, token, view) {
        Err(MemberFault::Memory) => once_taken(alloc, token, view),
        answer => answer,
    }
}

fn copied_commit(alloc: Global, out: &CommitOut) -> Result<CommitOut, AllocError> {
    again!(out.try_clone(alloc))
}

/// Takes the token, and returns a copy of the result.
fn take(alloc: Global, token: &CommitToken, view: &CommitView) -> Result<CommitOut, MemberFault> {
    let out = taken(alloc, token, view)?;
    Ok(copied_commit(alloc, &out)?)
}

fn name(act: Act) -> &'static str {
    match act {
        Act::Filled => "filled;",
        Act::Entered => "entered;",
        Act::Started => "started;",
    }
}

fn push(text: &mut String, word: &str) -> Result<(), AllocError> {
    again!(text.push_str(word))
}

/// Notes what a member did, and replaces the token by the one that it sends.
fn note(text: &mut String, token: &mut CommitToken, out: CommitOut) -> Result<(), AllocError> {
    *token = out.token;
    push(text, name(out.act))
}

/// The members that take the token in turn, and their phases then.
const TURNS: [(u16, Option<Phase>); 4] = [
    (2, None),
    (1, Some(Phase::Commit)),
    (2, Some(Phase::Commit)),
    (1, Some(Phase::Recovery)),
];

fn turn(
    alloc: Global,
    text: &mut String,
    token: &mut CommitToken,
    view: &CommitView,
) -> Result<(), Fail> {
    let out = take(alloc, token, view)?;
    Ok(note(text, token, out)?)
}

fn turns(alloc: Global, text: &mut String, token: &mut CommitToken) -> Result<(), Fail> {
    for (me, phase) in &TURNS {
        let view = view(alloc, *me, *phase)?;
        turn(alloc, text, token, &view)?;
    }
    Ok(())
}

/// Returns how the members take the token.
fn acts(alloc: Global) -> Result<String, Fail> {
    let mut token = made(alloc)?;
    let mut text = String::new(alloc);
    turns(alloc, &mut text, &mut token)?;
    Ok(text)
}

/// A commit token is filled, entered twice, and started.
#[test]
fn a_commit_token_goes_round(rt: HostRuntime) -> Result<(), Fail> {
    assert_eq!(rt;
        acts(rt.alloc())?.as_str(),
        "filled;entered;entered;started;"
    );
    Ok(())
}
