//! The fates of packets, one after another.
ghost use Rattle.std.specs.Prelude.{◌≡◌, IfOk};
ghost use Rattle.rand_pcg.specs.Pcg.{pcg32};
ghost use Rattle.totem_net.specs.Fates.{fate_of};
ghost use Rattle.totem_net.specs.Words.{begun_with, word_at};

use crate::copies::Fate;
use crate::drawn::Drawn;
use crate::formula::fate;
use crate::plan::Plan;
use rand_core::SeedableRng;
use rand_core::utils::NextWord;
use rand_pcg::Pcg32;
use std::alloc::AllocError;
use std::marker::Model;

/// The fates given by the words of a random generator, one after another. Contracts see the fates to come, and not the counts of those
/// that were drawn.
#[derive(Debug, Drop)]
pub struct Fates {
    words: Pcg32,
    plan: Plan,
    drawn: Drawn,
}

impl Model for Fates {
    ghost use Rattle.totem_net.specs.Words.{ToCome};

    ghost Value = { ToCome };

    ghost view = { λ f. record { generator = f.words; plan = f.plan } };
}

impl Fates {
    /// Makes the fates for this seed under this plan.
    pub fn new(seed: u64, plan: Plan) -> Fates
        ensures generator { result.generator ≡ begun_with seed }
        ensures plan { result.plan ≡ plan }
    {
        Fates {
            words: Pcg32::seed_from_u64(seed),
            plan,
            drawn: Drawn::nothing(),
        }
    }

    /// Copies the fates and the counts. The copy draws the same ones.
    pub fn try_clone(&self) -> Result<Fates, AllocError>
        ensures { IfOk result (λ copy. copy ≡ self.now) }
    {
        Ok(Fates {
            words: self.words.clone()?,
            plan: self.plan,
            drawn: self.drawn,
        })
    }

    /// Draws the next fate.
    pub fn next(&mut self) -> Fate
        ensures value { result ≡ fate_of (pcg32 self.old.generator).0 self.old.plan }
        ensures words { self.new.generator ≡ (pcg32 self.old.generator).1 }
        ensures plan { self.new.plan ≡ self.old.plan }
    {
        let fate = fate(self.words.next_word(), self.plan);
        self.drawn = self.drawn.with(fate);
        fate
    }

    /// Returns how many fates were drawn, and what they were.
    pub fn drawn(&self) -> Drawn {
        self.drawn
    }

    /// Returns the fate that follows `before` others, by drawing them all. The n-th fate is given by the generator's n-th word.
    #[tactic(auto, using(crate::proofs::Drawing::word_less, crate::proofs::Drawing::word_last))]
    pub fn nth(seed: u64, plan: Plan, before: u32) -> Fate
        ensures { result ≡ fate_of (word_at before (begun_with seed)) plan }
    {
        let mut fates = Fates::new(seed, plan);
        'others: for _ in 0..before {
            fates.next();
        }
        fates.next()
    }
}
