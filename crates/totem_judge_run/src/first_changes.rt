//! The first change to each configuration.
ghost use Rattle.std.specs.Prelude.{◌≡◌, ◌<◌, ◌+◌, ◌*◌, IfOk};
ghost use Rattle.std.specs.Bool.{OnTrue};
ghost use Rattle.std.specs.BTreeMap.{get};
ghost use Rattle.totem_judge_run.specs.Indexed.{AreIndexed, EachOnce, conf_order, rank_of};

use crate::changes_2_3::FirstChange;
use std::alloc::{AllocError, Global};
use std::collections::BTreeMap;
use totem_names::{ConfId, RingId};

/// Where the first changes are in their list. Nothing is proved about it: what it finds has to be verified, and in the end that it missed none.
#[derive(Drop)]
struct Places {
    index: BTreeMap<ConfId, usize>,
    /// How many of the list are in the index.
    noted: usize,
    /// Where the first change to the next configuration mostly is: behind the one that was found last.
    next: usize,
    /// The highest rank of all.
    highest: u64,
}

/// The first changes so far.
#[derive(Drop)]
pub struct FirstChanges<'a> {
    pub list: Vec<FirstChange<'a>>,
    places: Places,
}

fn ring_rank(ring: &RingId) -> u64
    ensures value { result ≡ ring.now.seq * 65536 + ring.now.rep }
    ensures small { result < 281474976710656 }
{
    u64::from(ring.seq) * 65536 + u64::from(ring.rep.number())
}

/// Returns a number that mostly rises along a log from change to change.
fn rank(conf: &ConfId) -> u64
    ensures { result ≡ rank_of conf.now }
{
    match conf {
        ConfId::Regular(ring) => ring_rank(ring) * 2 + 1,
        ConfId::Transitional { next, .. } => ring_rank(next) * 2,
    }
}

impl Places {
    /// Enters in the index what is not there yet.
    fn note(&mut self, list: &[FirstChange<'_>]) -> Result<(), AllocError> {
        for at in self.noted..list.len() {
            self.index.insert(*list[at].conf, at)?;
        }
        self.noted = list.len();
        Ok(())
    }

    /// Returns the index of the first change to this configuration, or `None` if there is none yet.
    fn find(
        &mut self,
        list: &[FirstChange<'_>],
        conf: &ConfId,
    ) -> Result<Option<usize>, AllocError> {
        let guess = if self.next < list.len() { self.next } else { 0 };
        if let Some(change) = list.get(guess)
            && change.conf.is(conf)
        {
            self.next = guess.saturating_add(1);
            return Ok(Some(guess));
        }
        let rank = rank(conf);
        if self.highest < rank {
            self.highest = rank;
            return Ok(None);
        }
        self.note(list)?;
        let found = self.index.get(conf).copied();
        if let Some(at) = found {
            self.next = at.saturating_add(1);
        }
        Ok(found)
    }
}

/// Returns `true` only if the changes rise by their rank, so that no two are to one configuration.
fn rises(list: &[FirstChange<'_>]) -> bool
    ensures { OnTrue result (EachOnce list.now) }
{
    let mut last = 0u64;
    for at in 0..list.len() {
        let rank = rank(list[at].conf);
        if rank <= last {
            return false;
        }
        last = rank;
    }
    true
}

fn place_of(index: &BTreeMap<ConfId, usize>, conf: &ConfId) -> Option<usize>
    ensures { result ≡ get conf_order index.now conf.now }
{
    index.get(conf).copied()
}

/// Returns `true` only if the index has the place of each change, so that no two are to one configuration.
fn are_indexed(list: &[FirstChange<'_>], index: &BTreeMap<ConfId, usize>) -> bool
    ensures { OnTrue result (AreIndexed list.now index.now) }
{
    for at in 0..list.len() {
        if place_of(index, list[at].conf) != Some(at) {
            return false;
        }
    }
    true
}

impl<'a> FirstChanges<'a> {
    pub fn new(alloc: Global) -> FirstChanges<'a> {
        FirstChanges {
            list: Vec::new(alloc),
            places: Places {
                index: BTreeMap::new(alloc),
                noted: 0,
                next: 0,
                highest: 0,
            },
        }
    }

    /// Returns the index of the first change to this configuration, as a guess, or `None` if there seems to be none yet.
    pub fn find(&mut self, conf: &ConfId) -> Result<Option<usize>, AllocError>
        ensures { self.new.list ≡ self.old.list }
    {
        self.places.find(&self.list, conf)
    }

    /// Returns `true` only if no two of the changes are to one configuration.
    #[tactic(auto, using(crate::proofs::EachOnce::once_if_indexed))]
    pub fn are_each_once(self) -> Result<bool, AllocError>
        ensures { IfOk result (λ ok. OnTrue ok (EachOnce self.entry.list.items)) }
    {
        let FirstChanges { list, mut places } = self;
        if rises(&list) {
            return Ok(true);
        }
        places.note(&list)?;
        Ok(are_indexed(&list, &places.index))
    }
}
