//! Laws of the text of runs, each the contract of a function that does nothing.
ghost use Rattle.std.specs.Prelude.{◌≡◌, ◌≢◌, ◌↔◌, ℕ, List, ◌++◌, Ok, Err, false};
ghost use Rattle.totem_names.specs.declared.fault.TextFault.{TextFault};
ghost use Rattle.totem_names.specs.declared.fault.TextFault.TheVariants.{Header, Word, Number, Order, Members, End, Truncated, TooMany};
ghost use Rattle.totem_names.specs.Sources.{FirstBreak, is_short};
ghost use Rattle.totem_evs.specs.RunRecord.{RunRecord};
ghost use Rattle.totem_evs.specs.RunGrammar.{run_at};
ghost use Rattle.totem_evs.specs.RunText.{run_text};
ghost use Rattle.totem_evs.specs.Runs.{IsRunOf};
ghost use Rattle.totem_evs.specs.TextFaults.{BreaksHeader, BreaksNumber, IsInPart, HasFault, HasOrder, HasMembers, HasEnd, HasTooMany, HasNoOther};
ghost use Rattle.totem_evs.specs.TextFronts.{IsLooseFront, IsFirstWrong};

/// What the grammar reads as a run keeps the rules of a run, and the bytes read are the text of that run.
#[tactic(auto, using(crate::proofs::SpelledRun::run_is))]
pub fn read_is_spelled()
    ensures { (run : RunRecord) (bytes rest : List ℕ) → run_at bytes ≡ Ok (run, rest) → IsRunOf run × (bytes ≡ run_text run ++ rest) }
{}

/// The text of a run is read as that run, whatever follows it.
pub fn spelled_is_read()
    ensures { (run : RunRecord) (rest : List ℕ) → IsRunOf run → run_at (run_text run ++ rest) ≡ Ok (run, rest) }
{}

/// No text of a run is the beginning of another.
pub fn no_text_begins_another()
    ensures { (a b : RunRecord) (more rest : List ℕ) → IsRunOf a → IsRunOf b → run_text a ++ more ≡ run_text b ++ rest → (a ≡ b) × (more ≡ rest) }
{}

/// If the grammar gives a fault, the bytes begin with no text of a run.
pub fn a_fault_is_no_text()
    ensures { (bytes : List ℕ) (fault : TextFault) → run_at bytes ≡ Err fault → (run : RunRecord) (rest : List ℕ) → IsRunOf run → bytes ≡ run_text run ++ rest → ⊥ }
{}

/// A fault other than that of a text that ends too soon is the fault of the first byte that breaks a rule of the grammar.
#[tactic(auto, using(crate::proofs::SteadyRun::run_first_break))]
pub fn fault_is_first()
    ensures { (bytes : List ℕ) (fault : TextFault) → is_short fault ≡ false → run_at bytes ≡ Err fault → FirstBreak run_at bytes fault }
{}

/// If the grammar finds the input too short, some text of a run continues it, with one exception: the last log need not be
/// above the one before, nor the last member of the last entry, since the order of a process is judged only at the byte
/// after it.
#[tactic(auto, using(crate::proofs::RunGoesOn::cut_front))]
pub fn cut_text_goes_on()
    ensures { (bytes : List ℕ) → run_at bytes ≡ Err Truncated → IsLooseFront bytes }
{}

/// At each other fault, some text of a run continues, in the same sense, the bytes before the first one that breaks
/// a rule of the grammar; no run's text begins with that byte too.
#[tactic(auto, using(crate::proofs::RunGoesOn::first_wrong))]
pub fn fault_byte_is_first()
    ensures { (bytes : List ℕ) (fault : TextFault) → run_at bytes ≡ Err fault → is_short fault ≡ false → (break : FirstBreak run_at bytes fault) × IsFirstWrong break.front break.byte }
{}

/// Header is the fault exactly where a byte of the first line differs. The digit of an unknown version is such a byte.
pub fn header_is_in_the_first_line()
    ensures { (bytes : List ℕ) → (run_at bytes ≡ Err Header) ↔ BreaksHeader bytes }
{}

/// Each fault but Header and Truncated is the fault of a part: the first line and some parts are read, and what the
/// grammar reads next has this fault.
#[tactic(auto, using(crate::proofs::FaultParts::of_a_part))]
pub fn a_fault_is_of_a_part()
    ensures { (bytes : List ℕ) (fault : TextFault) → fault ≢ Header → fault ≢ Truncated → (run_at bytes ≡ Err fault) ↔ IsInPart bytes (HasFault fault) }
{}

/// Number is the fault exactly where a number is read and none in range begins: its first byte is no digit or a zero, or
/// a digit takes it out of range.
#[tactic(auto, using(crate::proofs::NumberFaults::run_number))]
pub fn number_is_of_a_number()
    ensures { (bytes : List ℕ) → (run_at bytes ≡ Err Number) ↔ BreaksNumber run_at bytes }
{}

/// Order is the fault exactly where fewer than 32 logs were read and a log begins whose process, complete at the byte
/// after it, is not above the last one.
#[tactic(auto, using(crate::proofs::FaultParts::run_order))]
pub fn order_is_of_a_log_that_does_not_rise()
    ensures { (bytes : List ℕ) → (run_at bytes ≡ Err Order) ↔ IsInPart bytes HasOrder }
{}

/// Members is the fault exactly where a change has a member, at most its 32nd, that is complete at the byte after it
/// and not above the one before.
#[tactic(auto, using(crate::proofs::FaultParts::run_members))]
pub fn members_is_of_a_member_that_does_not_rise()
    ensures { (bytes : List ℕ) → (run_at bytes ≡ Err Members) ↔ IsInPart bytes HasMembers }
{}

/// End is the fault exactly where a closing word that the log may not have is recognized: at its first byte that no
/// entry could have there.
#[tactic(auto, using(crate::proofs::FaultParts::run_end))]
pub fn end_is_of_a_closing_word()
    ensures { (bytes : List ℕ) → (run_at bytes ≡ Err End) ↔ IsInPart bytes HasEnd }
{}

/// TooMany is the fault exactly where a 33rd log, a 1,000,001st entry or a 33rd member of a change begins.
#[tactic(auto, using(crate::proofs::FaultParts::run_many))]
pub fn too_many_is_past_a_limit()
    ensures { (bytes : List ℕ) → (run_at bytes ≡ Err TooMany) ↔ IsInPart bytes HasTooMany }
{}

/// A fault other than that of a text that ends too soon is Word exactly where no other one applies.
pub fn word_is_the_rest()
    ensures { (bytes : List ℕ) (fault : TextFault) → is_short fault ≡ false → run_at bytes ≡ Err fault → (fault ≡ Word) ↔ HasNoOther bytes }
{}
