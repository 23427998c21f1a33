//! Laws of the text of certificates, each the contract of a function that does nothing.
ghost use Rattle.std.specs.Prelude.{◌≡◌, ◌≢◌, ◌↔◌, ℕ, List, ◌++◌, Ok, Err, false};
ghost use Rattle.totem_names.specs.declared.fault.TextFault.{TextFault};
ghost use Rattle.totem_names.specs.declared.fault.TextFault.TheVariants.{Header, Word, Number, Order, Truncated, TooMany};
ghost use Rattle.totem_names.specs.Sources.{FirstBreak, is_short};
ghost use Rattle.totem_evs.specs.TextFaults.{BreaksNumber};
ghost use Rattle.totem_certificate.specs.CertRecord.{CertRecord};
ghost use Rattle.totem_certificate.specs.CertGrammar.{cert_at};
ghost use Rattle.totem_certificate.specs.CertFaults.{IsOwnFault};
ghost use Rattle.totem_certificate.specs.CertFronts.{IsLooseFront, IsFirstWrong};
ghost use Rattle.totem_certificate.specs.CertPlaces.{IsBehindLines, BreaksHeader, HasFault, HasOrder, HasTooMany, HasNoOther};
ghost use Rattle.totem_certificate.specs.CertText.{cert_text};
ghost use Rattle.totem_certificate.specs.Keeping.{IsCertificateOf};

/// What the grammar reads as a certificate keeps the rules of a certificate, and the bytes read are its text.
pub fn read_is_spelled()
    ensures { (cert : CertRecord) (bytes rest : List ℕ) → cert_at bytes ≡ Ok (cert, rest) → IsCertificateOf cert × (bytes ≡ cert_text cert ++ rest) }
{}

/// The text of a certificate is read as that certificate, whatever follows it.
pub fn spelled_is_read()
    ensures { (cert : CertRecord) (rest : List ℕ) → IsCertificateOf cert → cert_at (cert_text cert ++ rest) ≡ Ok (cert, rest) }
{}

/// No text of a certificate is the beginning of another.
pub fn no_text_begins_another()
    ensures { (a b : CertRecord) (more rest : List ℕ) → IsCertificateOf a → IsCertificateOf b → cert_text a ++ more ≡ cert_text b ++ rest → (a ≡ b) × (more ≡ rest) }
{}

/// If the grammar gives a fault, the bytes begin with no text of a certificate.
pub fn a_fault_is_no_text()
    ensures { (bytes : List ℕ) (fault : TextFault) → cert_at bytes ≡ Err fault → (cert : CertRecord) (rest : List ℕ) → IsCertificateOf cert → bytes ≡ cert_text cert ++ rest → ⊥ }
{}

/// The grammar gives neither a fault of members nor one of bytes after the last line.
#[tactic(auto, using(crate::proofs::OwnFaults::own_fault))]
pub fn faults_are_its_own()
    ensures { (bytes : List ℕ) (fault : TextFault) → cert_at bytes ≡ Err fault → IsOwnFault fault }
{}

/// A fault other than that of a text that ends too soon is the fault of the first byte that breaks a rule of the grammar.
#[tactic(auto, using(crate::proofs::SteadyCert::cert_first_break))]
pub fn fault_is_first()
    ensures { (bytes : List ℕ) (fault : TextFault) → is_short fault ≡ false → cert_at bytes ≡ Err fault → FirstBreak cert_at bytes fault }
{}

/// If the grammar finds the input too short, some text of a certificate continues it, with one exception: the last process
/// need not be above the one before, since the order of a process is judged only at the byte after it.
#[tactic(auto, using(crate::proofs::CertGoesOn::cut_front))]
pub fn cut_text_goes_on()
    ensures { (bytes : List ℕ) → cert_at bytes ≡ Err Truncated → IsLooseFront bytes }
{}

/// At each other fault, some text of a certificate continues, in the same sense, the bytes before the first one that
/// breaks a rule of the grammar; no certificate's text begins with that byte too.
#[tactic(auto, using(crate::proofs::CertGoesOn::first_wrong))]
pub fn fault_byte_is_first()
    ensures { (bytes : List ℕ) (fault : TextFault) → cert_at bytes ≡ Err fault → is_short fault ≡ false → (break : FirstBreak cert_at bytes fault) × IsFirstWrong break.front break.byte }
{}

/// Header is the fault exactly where a byte of the first line differs. The digit of an unknown version is such a byte.
pub fn header_is_in_the_first_line()
    ensures { (bytes : List ℕ) → (cert_at bytes ≡ Err Header) ↔ BreaksHeader bytes }
{}

/// Each fault but Header and Truncated is the fault of a line: the bytes begin with the first line and some lines of a
/// certificate, and what the grammar reads next has this fault.
pub fn a_fault_is_of_a_line()
    ensures { (bytes : List ℕ) (fault : TextFault) → fault ≢ Header → fault ≢ Truncated → (cert_at bytes ≡ Err fault) ↔ IsBehindLines bytes (HasFault fault) }
{}

/// Number is the fault exactly where a number is read and none in range begins: its first byte is no digit or a zero, or
/// a digit takes it out of range.
#[tactic(auto, using(crate::proofs::RestFaults::cert_number))]
pub fn number_is_of_a_number()
    ensures { (bytes : List ℕ) → (cert_at bytes ≡ Err Number) ↔ BreaksNumber cert_at bytes }
{}

/// Order is the fault exactly where fewer than 32 lines were read and a line begins whose process, complete at the byte
/// after it, is not above the last one.
#[tactic(auto, using(crate::proofs::CertParts::cert_order))]
pub fn order_is_of_a_line_that_does_not_rise()
    ensures { (bytes : List ℕ) → (cert_at bytes ≡ Err Order) ↔ IsBehindLines bytes HasOrder }
{}

/// TooMany is the fault exactly where a 33rd line or the 1,000,001st number of a line begins.
#[tactic(auto, using(crate::proofs::CertParts::cert_many))]
pub fn too_many_is_past_a_limit()
    ensures { (bytes : List ℕ) → (cert_at bytes ≡ Err TooMany) ↔ IsBehindLines bytes HasTooMany }
{}

/// A fault other than that of a text that ends too soon is Word exactly where no other one applies.
pub fn word_is_the_rest()
    ensures { (bytes : List ℕ) (fault : TextFault) → is_short fault ≡ false → cert_at bytes ≡ Err fault → (fault ≡ Word) ↔ HasNoOther bytes }
{}
