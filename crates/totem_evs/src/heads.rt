//! Readers of the lines between records. Each leaves unread what follows.
ghost use Rattle.std.specs.Prelude.{◌≡◌, ◌≢◌, ◌&&◌, ◌==◌, ℕ, ◌<◌, IfOk, IfErr, Bool};
ghost use Rattle.totem_names.specs.Sources.{Reads, seen};
ghost use Rattle.totem_evs.specs.NextLines.{MayBegin};
ghost use Rattle.totem_evs.specs.Heads.{header_end, header_at, proc_at, begin_at, end_at, head_at};

use crate::form::Form;
use totem_names::{Proc, ReadError, Source, TextFault, Version, next, read_process, word};

#[tactic(auto, using(crate::proofs::ReaderSteps::reader_steps), unfolding(crate::specs::Heads::header_end))]
fn read_header_end<S: Source>(source: &mut S, version: Version) -> Result<Version, ReadError>
    ensures read { Reads (seen S.remaining S.failures source.old)
        (seen S.remaining S.failures source.new) result (header_end version) }
    ensures memory { IfErr result (λ e. e ≢ ReadError.Memory) }
{
    word(source, b"\n", TextFault::Header)?;
    Ok(version)
}

// Returns whether this is the digit of the third version of a text that has one.
fn is_third<F: Form>(digit: u8) -> bool
    ensures { result ≡ (F.words.third && (digit == 51)) }
{
    F::third() && digit == b'3'
}

/// Reads the first line of a text, and returns its version.
#[tactic(auto, using(crate::proofs::ReaderSteps::reader_steps), unfolding(crate::specs::Heads::header_at))]
pub fn read_header<F: Form, S: Source>(source: &mut S) -> Result<Version, ReadError>
    ensures read { Reads (seen S.remaining S.failures source.old)
        (seen S.remaining S.failures source.new) result (header_at F.words) }
    ensures memory { IfErr result (λ e. e ≢ ReadError.Memory) }
{
    word(source, F::title(), TextFault::Header)?;
    let digit = next(source)?;
    if digit == b'1' {
        return read_header_end(source, Version::One);
    }
    if digit == b'2' {
        return read_header_end(source, Version::Two);
    }
    if is_third::<F>(digit) {
        return read_header_end(source, Version::Three);
    }
    Err(ReadError::Text(TextFault::Header))
}

#[tactic(auto, using(crate::proofs::ReaderSteps::reader_steps), unfolding(crate::specs::Heads::proc_at))]
fn read_proc<F: Form, S: Source>(
    source: &mut S,
    version: Version,
    last: u32,
) -> Result<Proc, ReadError>
    ensures read { Reads (seen S.remaining S.failures source.old)
        (seen S.remaining S.failures source.new) result (proc_at F.words version last) }
    ensures above { IfOk result (λ p. last < p) }
{
    word(source, F::word(), TextFault::Word)?;
    let (proc, byte) = read_process(source, version)?;
    if proc.rank() <= last {
        return Err(ReadError::Text(TextFault::Order));
    }
    if byte != F::behind() {
        return Err(ReadError::Text(TextFault::Word));
    }
    Ok(proc)
}

#[tactic(auto, using(crate::proofs::ReaderSteps::reader_steps), unfolding(crate::specs::Heads::begin_at))]
fn read_begin<F: Form, S: Source>(
    source: &mut S,
    version: Version,
    full: bool,
    last: u32,
) -> Result<Option<Proc>, ReadError>
    ensures read { Reads (seen S.remaining S.failures source.old)
        (seen S.remaining S.failures source.new) result (begin_at F.words version full last) }
    ensures begins { IfOk result (MayBegin full last) }
{
    if full {
        return Err(ReadError::Text(TextFault::TooMany));
    }
    let proc = read_proc::<F, S>(source, version, last)?;
    Ok(Some(proc))
}

#[tactic(auto, using(crate::proofs::ReaderSteps::reader_steps), unfolding(crate::specs::Heads::end_at))]
fn read_last<S: Source>(source: &mut S) -> Result<Option<Proc>, ReadError>
    ensures read { Reads (seen S.remaining S.failures source.old)
        (seen S.remaining S.failures source.new) result end_at }
    ensures begins { (full : Bool) (above : ℕ) → IfOk result (MayBegin full above) }
{
    word(source, b"nd\n", TextFault::Word)?;
    Ok(None)
}

/// Reads the next record up to and including the byte after its process, and returns the process; its rank has to be above
/// `last`. Or reads the last line, and returns `None`. If the text is `full`, no record may begin.
#[tactic(auto, using(crate::proofs::ReaderSteps::reader_steps), unfolding(crate::specs::Heads::head_at))]
pub fn read_head<F: Form, S: Source>(
    source: &mut S,
    version: Version,
    full: bool,
    last: u32,
) -> Result<Option<Proc>, ReadError>
    ensures read { Reads (seen S.remaining S.failures source.old)
        (seen S.remaining S.failures source.new) result (head_at F.words version full last) }
    ensures begins { IfOk result (MayBegin full last) }
{
    let letter = next(source)?;
    if letter == F::letter() {
        return read_begin::<F, S>(source, version, full, last);
    }
    if letter == b'e' {
        return read_last(source);
    }
    Err(ReadError::Text(TextFault::Word))
}
