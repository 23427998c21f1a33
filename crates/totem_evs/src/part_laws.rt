//! Laws of the parts of a run, each the contract of a function that does nothing.
ghost use Rattle.totem_evs.specs.PartLaws.{PartsMakeTheRun, TextIsOfParts, PartIsSpelled, PartsAreSpelled};

/// The parts that are read one by one, from the first line to the last, are those of the run that is read as a whole.
#[tactic(auto, using(crate::proofs::PartRuns::parts_make))]
pub fn parts_make_the_run()
    ensures { PartsMakeTheRun }
{}

/// A run's text is its first line, the lines of its parts, and its last line.
pub fn text_is_of_parts()
    ensures { TextIsOfParts }
{}

/// A part that is read, also in the middle of a run, is spelled by the bytes that were taken for it.
#[tactic(auto, using(crate::proofs::SpelledParts::part_is))]
pub fn part_is_spelled()
    ensures { PartIsSpelled }
{}

/// The bytes that were taken for some parts, read one after the other, are the lines of these parts.
#[tactic(auto, using(crate::proofs::SpelledParts::parts_are))]
pub fn parts_are_spelled()
    ensures { PartsAreSpelled }
{}
