ghost use Rattle.std.specs.Prelude.{◌≡◌, Ok, IfOk, IsOk, IfSome, IsTrue, false, not, filter, ◌==◌};
ghost use Rattle.std.specs.List.{list_all};
ghost use Rattle.std.specs.Option.{option_copied};
ghost use Rattle.totem_packets.specs.Sets.{has};
ghost use Rattle.totem_member.specs.Gathers.{join, gathered, agrees, consensus, is_stranger, after_join, after_timeout, noted_equal, same_sets, with_sets, on_join, on_timeout, IsGather, IsStanding};
ghost use Rattle.totem_member.specs.Steps.{IsStep, Begins};

use crate::fault::MemberFault;
use crate::join_sets::{Noted, Sets};
use crate::views::GatherOut;
use std::alloc::{AllocError, Global};
use std::marker::Model;
use totem_names::ProcId;
use totem_packets::{Join, Number, Processes, ShortList, TooMany};

/// A process that looks for others with which to form a ring (docs/PROTOCOL.md, "Gathering").
#[derive(Debug, Drop)]
pub struct Gather {
    me: ProcId,
    sets: Sets,
    seq: Number,
    noted: Vec<Noted>,
}

impl Model for Gather {
    ghost use Rattle.totem_member.specs.Gathers.{Gather as Gathering, IsStanding};

    ghost Value = { Gathering };

    ghost view = { λ g. record { me = g.me; sets = g.sets; seq = g.seq; noted = g.noted.items } };

    ghost invariant = { λ g. IsStanding g.me g.sets };
}

/// Returns the set that a call made which is known not to be too large.
fn made(set: Result<Processes, TooMany>) -> Processes
    requires { IsOk set }
    ensures { set ≡ Ok result }
{
    match set {
        Ok(set) => set,
        Err(TooMany) => unreachable!(),
    }
}

/// Returns whether the sets noted of this process are equal to `sets`.
fn noted_equal(noted: &[Noted], proc: ProcId, sets: &Sets) -> bool
    ensures { result ≡ noted_equal noted.now proc sets.now }
{
    noted
        .iter()
        .any(|note| note.proc == proc && note.sets.are(sets))
}

/// Returns a copy of the notes of every process but this one.
fn noted_of_others(alloc: Global, noted: &[Noted], proc: ProcId) -> Result<Vec<Noted>, AllocError>
    ensures { IfOk result (λ v. v.items ≡ filter (λ n. not (n.proc == proc)) noted.now) }
{
    let mut list = Vec::new(alloc);
    for note in noted {
        if note.proc != proc {
            list.push(*note)?;
        }
    }
    Ok(list)
}

impl Gather {
    /// Begins a gathering of `me` and the processes of `base`, none of which has been heard yet, unless they are more than 32.
    /// Takes no memory.
    pub fn new(alloc: Global, me: ProcId, base: &Processes, seq: Number) -> Result<Gather, TooMany>
        ensures { Begins result me base.now seq }
    {
        Ok(Gather {
            me,
            sets: Sets {
                processes: base.with(me)?,
                failed: Processes::none(),
            },
            seq,
            noted: Vec::new(alloc),
        })
    }

    pub fn try_clone(&self, alloc: Global) -> Result<Gather, AllocError>
        ensures { IfOk result (λ g. g ≡ self.now) }
    {
        Ok(Gather {
            me: self.me,
            sets: self.sets,
            seq: self.seq,
            noted: self.noted.as_slice().to_vec(alloc)?,
        })
    }

    /// Proves the rule that the type keeps.
    fn keeps_its_rule(&self)
        ensures { IsGather self.now }
    {
        let _ = &self.sets;
        let _ = self.sets.processes.as_slice();
        let _ = self.sets.failed.as_slice();
    }

    pub fn me(&self) -> ProcId
        ensures { result ≡ self.now.me }
    {
        self.me
    }

    /// Returns the greatest ring number that this process has heard of.
    pub fn seq(&self) -> Number
        ensures { result ≡ self.now.seq }
    {
        self.seq
    }

    /// Returns the processes that this process knows, including those that it thinks have failed.
    pub fn processes(&self) -> &Processes
        ensures { result.now ≡ self.now.sets.processes }
    {
        &self.sets.processes
    }

    /// Returns the processes that it knows and thinks have failed.
    pub fn failed(&self) -> &Processes
        ensures { result.now ≡ self.now.sets.failed }
    {
        &self.sets.failed
    }

    /// Returns the Join that this process broadcasts.
    pub fn join(&self) -> Join
        ensures { result ≡ join self.now }
    {
        Join {
            sender: self.me,
            seq: self.seq,
            processes: self.sets.processes,
            failed: self.sets.failed,
        }
    }

    /// Returns the processes that would form a ring: all known processes that have not failed.
    pub fn gathered(&self) -> Processes
        ensures { result ≡ gathered self.now }
    {
        self.sets.processes.without(&self.sets.failed)
    }

    /// Returns whether the process agrees with these sets, if the Join `heard` is noted first.
    #[tactic(auto, using(crate::proofs::Hearing::noted_last))]
    fn agrees_with(&self, heard: Option<&Join>, sets: &Sets, proc: ProcId) -> bool
        ensures { result ≡ agrees (with_sets self.now (option_copied heard.entry) sets.now) proc }
    {
        if proc == self.me {
            return true;
        }
        if let Some(join) = heard {
            if proc == join.sender {
                return join.processes.is(&sets.processes) && join.failed.is(&sets.failed);
            }
        }
        noted_equal(&self.noted, proc, sets)
    }

    fn agrees(&self, proc: ProcId) -> bool
        ensures { result ≡ agrees self.now proc }
    {
        self.agrees_with(None, &self.sets, proc)
    }

    fn all_agree(&self, heard: Option<&Join>, sets: &Sets, members: &Processes) -> bool
        ensures { result ≡ list_all (agrees (with_sets self.now (option_copied heard.entry) sets.now)) members.now }
    {
        members
            .as_slice()
            .iter()
            .all(|proc| self.agrees_with(heard, sets, *proc))
    }

    /// Returns the processes on which there is consensus with these sets, if the Join `heard` is noted first.
    fn consensus_with(&self, heard: Option<&Join>, sets: &Sets) -> Option<Processes>
        ensures { result ≡ consensus (with_sets self.now (option_copied heard.entry) sets.now) }
    {
        let members = sets.processes.without(&sets.failed);
        if self.all_agree(heard, sets, &members) {
            return Some(members);
        }
        None
    }

    /// Returns the processes on which there is consensus, or `None` if there is no consensus yet.
    #[tactic(auto, using(crate::proofs::GatherFacts::consensus_has_me))]
    pub fn consensus(&self) -> Option<Processes>
        ensures value { result ≡ consensus self.now }
        ensures mine { IfSome result (λ m. IsTrue (has m self.now.me)) }
    {
        self.keeps_its_rule();
        self.consensus_with(None, &self.sets)
    }

    /// Returns whether this Join would be refused because its sender can't be gathered with.
    pub fn is_stranger(&self, join: &Join) -> bool
        ensures { result ≡ is_stranger self.now join.now }
    {
        join.sender == self.me
            || !join.processes.contains(join.sender)
            || join.failed.contains(join.sender)
            || self.sets.failed.contains(join.sender)
            || !join.failed.is_within(&join.processes)
            || self.sets.processes.union(&join.processes).is_err()
    }

    /// Returns the process's own two sets after this Join.
    fn sets_after(&self, join: &Join) -> Sets
        requires { is_stranger self.now join.now ≡ false }
        ensures value { result ≡ (after_join self.now join.now).sets }
        ensures standing { IsStanding self.now.me result }
    {
        self.keeps_its_rule();
        let _ = join.processes.as_slice();
        let _ = join.failed.as_slice();
        let mine = &self.sets;
        if join.failed.contains(self.me) {
            return Sets {
                processes: made(mine.processes.with(join.sender)),
                failed: made(mine.failed.with(join.sender)),
            };
        }
        Sets {
            processes: made(mine.processes.union(&join.processes)),
            failed: made(mine.failed.union(&join.failed)),
        }
    }

    /// Returns what is noted of other processes after this Join.
    fn noted_after(&self, alloc: Global, join: &Join) -> Result<Vec<Noted>, AllocError>
        ensures { IfOk result (λ n. n.items ≡ (after_join self.now join.now).noted) }
    {
        if join.failed.contains(self.me) {
            return self.noted.as_slice().to_vec(alloc);
        }
        let mut noted = noted_of_others(alloc, &self.noted, join.sender)?;
        noted.push(Noted {
            proc: join.sender,
            sets: Sets {
                processes: join.processes,
                failed: join.failed,
            },
        })?;
        Ok(noted)
    }

    /// Returns the gathering after this Join, whose sender can be gathered with.
    pub fn after_join(&self, alloc: Global, join: &Join) -> Result<Gather, AllocError>
        requires { is_stranger self.now join.now ≡ false }
        ensures { IfOk result (λ g. g ≡ after_join self.now join.now) }
    {
        let seq = if self.seq.get() < join.seq.get() {
            join.seq
        } else {
            self.seq
        };
        Ok(Gather {
            me: self.me,
            sets: self.sets_after(join),
            seq,
            noted: self.noted_after(alloc, join)?,
        })
    }

    /// Returns the processes on which there is consensus after this Join, or `None` if there is no consensus then. Takes no memory.
    pub fn consensus_after(&self, join: &Join) -> Option<Processes>
        requires { is_stranger self.now join.now ≡ false }
        ensures { result ≡ consensus (after_join self.now join.now) }
    {
        let sets = self.sets_after(join);
        if join.failed.contains(self.me) {
            return self.consensus_with(None, &sets);
        }
        self.consensus_with(Some(join), &sets)
    }

    /// Returns whether the two gatherings know the same processes, and think that the same have failed.
    pub fn has_same_sets(&self, other: &Gather) -> bool
        ensures { result ≡ same_sets self.now.sets other.now.sets }
    {
        self.sets.are(&other.sets)
    }

    /// Takes a received Join. `Stranger` if its sender can't be gathered with.
    pub fn on_join(&mut self, alloc: Global, join: &Join) -> Result<GatherOut, MemberFault>
        ensures step { IsStep self.old self.new result (on_join self.old join.now) }
        ensures mine { IfOk result (λ out. IfSome out.members (λ m. IsTrue (has m self.old.me))) }
    {
        if self.is_stranger(join) {
            return Err(MemberFault::Stranger);
        }
        let next = self.after_join(alloc, join)?;
        let members = next.consensus();
        let again = !next.has_same_sets(self);
        *self = next;
        Ok(GatherOut { again, members })
    }

    /// Returns the processes among these that don't agree with this one's sets.
    fn late(&self, members: &Processes) -> Processes
        ensures { result ≡ filter (λ p. not (agrees self.now p)) members.now }
    {
        let mut late = ShortList::new();
        for proc in members.as_slice() {
            if !self.agrees(*proc) {
                late.push(*proc);
            }
        }
        Processes::of(late)
    }

    /// Returns the process's own two sets after it gave up the processes that don't agree.
    fn sets_without_late(&self) -> Sets
        ensures value { result ≡ (after_timeout self.now).sets }
        ensures standing { IsStanding self.now.me result }
    {
        self.keeps_its_rule();
        let members = self.gathered();
        let late = self.late(&members);
        Sets {
            processes: self.sets.processes,
            failed: made(self.sets.failed.union(&late)),
        }
    }

    /// Returns the gathering after a timeout: the processes that don't agree count as failed from now on.
    pub fn after_timeout(&self, alloc: Global) -> Result<Gather, AllocError>
        ensures { IfOk result (λ g. g ≡ after_timeout self.now) }
    {
        Ok(Gather {
            me: self.me,
            sets: self.sets_without_late(),
            seq: self.seq,
            noted: self.noted.as_slice().to_vec(alloc)?,
        })
    }

    /// Returns the processes on which there is consensus after a timeout, or `None` if there is no consensus then. Takes no memory.
    pub fn consensus_after_timeout(&self) -> Option<Processes>
        ensures { result ≡ consensus (after_timeout self.now) }
    {
        self.consensus_with(None, &self.sets_without_late())
    }

    /// Gives up the processes that don't agree, after a timeout: from now on they count as failed.
    pub fn on_timeout(&mut self, alloc: Global) -> Result<GatherOut, MemberFault>
        ensures step { IsStep self.old self.new result (Ok (on_timeout self.old)) }
        ensures mine { IfOk result (λ out. IfSome out.members (λ m. IsTrue (has m self.old.me))) }
    {
        let next = self.after_timeout(alloc)?;
        let members = next.consensus();
        *self = next;
        Ok(GatherOut {
            again: true,
            members,
        })
    }
}
