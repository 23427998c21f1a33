//! Laws that a run has one answer. Each is the contract of an empty function.
ghost use Rattle.totem_laws.specs.OneAnswer.{
  LeastBreaksAreOne,
  RingsAreOne,
  PendingIsOne,
  WaitingIsOne,
  PassFaultsAreOne,
  ConfigurationFaultsAreOne,
  CertificatesAreOne,
  AnswersAreOne,
};

/// At most one of the lists of places that break a specification is the least.
pub fn least_breaks_are_one()
    ensures { LeastBreaksAreOne }
{}

/// A run has at most one list of its regular configurations.
pub fn rings_are_one()
    ensures { RingsAreOne }
{}

/// A run has at most one list of what is pending.
pub fn pending_is_one()
    ensures { PendingIsOne }
{}

/// A run has at most one list of the waiting processes.
pub fn waiting_is_one()
    ensures { WaitingIsOne }
{}

/// A run has at most one list of the faults of passes A and B.
pub fn pass_faults_are_one()
    ensures { PassFaultsAreOne }
{}

/// A run has at most one list of the faults of pass D.
pub fn configuration_faults_are_one()
    ensures { ConfigurationFaultsAreOne }
{}

/// A run has at most one certificate of its positions, line by line.
pub fn certificates_are_one()
    ensures { CertificatesAreOne }
{}

/// A run has at most one answer.
pub fn answers_are_one()
    ensures { AnswersAreOne }
{}
