//! Laws of the specifications, each the contract of a function that does nothing.
ghost use Rattle.totem_evs.specs.Laws.{BreaksAreBreaks, CertifiedIsOrdered, EachLogIsOrdered, EachTwinsAgree};
ghost use Rattle.totem_evs.specs.OneHop.{ChainsAreFine};
ghost use Rattle.totem_evs.specs.Meanings.{AnswersAreSound};

/// If some events of a run break a specification, the run does not meet the specifications.
#[tactic(auto, using(crate::proofs::Consistent::breaks))]
pub fn breaks_are_breaks()
    ensures { BreaksAreBreaks }
{}

/// The events of one log are ordered by place (1.2), in every run.
#[tactic(auto, using(crate::proofs::Precedence::each_log_ordered))]
pub fn each_log_is_ordered()
    ensures { EachLogIsOrdered }
{}

/// What precedes one change to a configuration precedes every change to it, and what one precedes, each precedes (2.5), in every run.
#[tactic(auto, using(crate::proofs::Precedence::each_twins_agree))]
pub fn twins_agree()
    ensures { EachTwinsAgree }
{}

/// A certificate excludes cycles (1.1) and gives the events a total order (6.1).
pub fn certified_is_ordered()
    ensures { CertifiedIsOrdered }
{}

/// Causal delivery (5) over chains of any length follows from pairs in one log, in a certified run that meets 1.3, 1.4 and 2.2.
pub fn chains_are_fine()
    ensures { ChainsAreFine }
{}

/// The specified answer for a run means what it says: after a yes the run meets specifications 1 to 7, with a certificate
/// and all that is left open; after a no each fault breaks its specification, so that the run does not meet them.
#[tactic(auto, using(crate::proofs::Synchronous::sound))]
pub fn answers_are_sound()
    ensures { AnswersAreSound }
{}
