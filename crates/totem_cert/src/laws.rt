//! Laws of certificates and closed lists. Each is the contract of an empty function.
ghost use Rattle.totem_cert.specs.Laws.{PositionsAreOne, ClosedListsAreOne, ClosedListsExcludeCertificates};

/// A run has at most one certificate of its positions.
#[tactic(auto, using(crate::proofs::One::one))]
pub fn positions_are_one()
    ensures { PositionsAreOne }
{}

/// A run has at most one closed list, which breaks one specification.
pub fn closed_lists_are_one()
    ensures { ClosedListsAreOne }
{}

/// No lines certify a run that has a closed list.
pub fn closed_lists_exclude_certificates()
    ensures { ClosedListsExcludeCertificates }
{}
