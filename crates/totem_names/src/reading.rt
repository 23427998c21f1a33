//! Readers of what all texts share: bytes, words and numbers. Each leaves unread what follows the bytes that it took.
ghost use Rattle.std.specs.Prelude.{◌≡◌, ◌≢◌, ◌≤◌, ◌&&◌, ◌==◌, true, false, not, length, take, IfOk, IfErr, IfSome, MatchOption};
ghost use Rattle.std.specs.Io.KnownBytes.{Consumes, Keeps};
ghost use Rattle.totem_names.specs.Sources.{Comes, Reads, Settles, seen, is_short};
ghost use Rattle.totem_names.specs.Numbers.{is_digit, byte_at, word_at, number_at, number_to, proc_at};
ghost use Rattle.totem_names.specs.Texts.{IsUpTo};

use crate::fault::{ReadError, TextFault};
use crate::process::ProcId;
use crate::source::Source;

/// Reads the next byte. At the end of the source the fault is `Truncated`.
#[inline]
pub fn next<S: Source>(source: &mut S) -> Result<u8, ReadError>
    ensures read { Reads (seen S.remaining S.failures source.old)
        (seen S.remaining S.failures source.new) result byte_at }
    ensures memory { IfErr result (λ e. e ≢ ReadError.Memory) }
{
    match source.byte() {
        Ok(Some(byte)) => Ok(byte),
        Ok(None) => Err(ReadError::Text(TextFault::Truncated)),
        Err(_) => Err(ReadError::Read),
    }
}

/// Reads exactly this word. At the first byte that differs from it, returns `fault`.
#[inline(never)]
pub fn word<S: Source>(source: &mut S, word: &[u8], fault: TextFault) -> Result<(), ReadError>
    requires { is_short fault ≡ false }
    ensures read { Reads (seen S.remaining S.failures source.old)
        (seen S.remaining S.failures source.new) result (word_at fault word.now) }
    ensures memory { IfErr result (λ e. e ≢ ReadError.Memory) }
{
    for want in word {
        let byte = next(source)?;
        if byte != *want {
            return Err(ReadError::Text(fault));
        }
    }
    Ok(())
}

fn is_digit(byte: u8) -> bool
    ensures { result ≡ is_digit byte }
{
    b'0' <= byte && byte <= b'9'
}

// Returns whether the byte is a digit from 1 to 9.
fn begins_number(byte: u8) -> bool
    ensures { result ≡ (is_digit byte && not (byte == 48)) }
{
    is_digit(byte) && byte != b'0'
}

/// Returns the number from 1 to `max` with which these bytes begin, the byte after it, and how many bytes the two take. Returns
/// `None` if the bytes begin with no such number, or end before it does.
#[inline]
pub fn number_within(bytes: &[u8], max: u32) -> Option<(u32, u8, usize)>
    requires { 9 ≤ max }
    ensures number { IfSome result (λ n. Settles (number_at max) (take n.2 bytes.now) (n.0, n.1)) }
    ensures count { IfSome result (λ n. n.2 ≤ length bytes.now) }
    ensures range { IfSome result (λ n. IsUpTo max n.0) }
{
    if bytes.is_empty() {
        return None;
    }
    let first = bytes[0];
    let fits = begins_number(first);
    if !fits {
        return None;
    }
    let mut number = u64::from(first - b'0');
    for at in 1..bytes.len() {
        let byte = bytes[at];
        let more = is_digit(byte);
        if !more {
            return Some((number as u32, byte, at + 1));
        }
        let larger = 10 * number + u64::from(byte - b'0');
        if larger > u64::from(max) {
            return None;
        }
        number = larger;
    }
    None
}

// Takes the number and the byte after it if both are at hand. Otherwise it takes nothing.
#[inline(always)]
fn number_at_hand<S: Source>(source: &mut S, max: u32) -> Option<(u32, u8)>
    requires { 9 ≤ max }
    ensures taken { let old = seen S.remaining S.failures source.old in
        let new = seen S.remaining S.failures source.new in
        MatchOption result (Comes old new (number_at max) (number_at max))
        (λ n. Comes old new (number_at max) (λ more. Ok (n, more))) }
    ensures range { IfSome result (λ n. IsUpTo max n.0) }
{
    match number_within(source.at_hand(), max) {
        None => None,
        Some((number, byte, count)) => {
            let skipped = source.skip(count);
            if !skipped {
                return None;
            }
            Some((number, byte))
        }
    }
}

// Reads as `number` does, one byte at a time.
fn number_by_bytes<S: Source>(source: &mut S, max: u32) -> Result<(u32, u8), ReadError>
    requires { 9 ≤ max }
    ensures read { Reads (seen S.remaining S.failures source.old)
        (seen S.remaining S.failures source.new) result (number_at max) }
    ensures memory { IfErr result (λ e. e ≢ ReadError.Memory) }
    ensures range { IfOk result (λ n. IsUpTo max n.0) }
{
    let first = next(source)?;
    let fits = begins_number(first);
    if !fits {
        return Err(ReadError::Text(TextFault::Number));
    }
    let mut number = u64::from(first - b'0');
    loop {
        let byte = next(source)?;
        let more = is_digit(byte);
        if !more {
            return Ok((number as u32, byte));
        }
        let larger = 10 * number + u64::from(byte - b'0');
        if larger > u64::from(max) {
            return Err(ReadError::Text(TextFault::Number));
        }
        number = larger;
    }
}

/// Reads a number from 1 to `max`, without leading zeros, and returns it with the byte after it. The fault is `Number`
/// at the first byte with which no such number can continue.
#[inline(always)]
pub fn number<S: Source>(source: &mut S, max: u32) -> Result<(u32, u8), ReadError>
    requires { 9 ≤ max }
    ensures read { Reads (seen S.remaining S.failures source.old)
        (seen S.remaining S.failures source.new) result (number_at max) }
    ensures memory { IfErr result (λ e. e ≢ ReadError.Memory) }
    ensures range { IfOk result (λ n. IsUpTo max n.0) }
{
    match number_at_hand(source, max) {
        Some(found) => Ok(found),
        None => number_by_bytes(source, max),
    }
}

/// Reads a number from 1 to `max` and the byte `end` after it. If another byte follows, the fault is `Word`.
#[tactic(auto, using(crate::proofs::Readers::called, crate::proofs::Readers::failed, crate::proofs::Readers::begins, crate::proofs::Readers::chosen, crate::proofs::Readers::passed, crate::proofs::Readers::stops), unfolding(crate::specs::Numbers::number_to))]
pub fn number_to<S: Source>(source: &mut S, max: u32, end: u8) -> Result<u32, ReadError>
    requires { 9 ≤ max }
    ensures read { Reads (seen S.remaining S.failures source.old)
        (seen S.remaining S.failures source.new) result (number_to max end) }
    ensures memory { IfErr result (λ e. e ≢ ReadError.Memory) }
    ensures range { IfOk result (IsUpTo max) }
{
    let (number, byte) = number(source, max)?;
    if byte != end {
        return Err(ReadError::Text(TextFault::Word));
    }
    Ok(number)
}

/// Reads a process and the byte `end` after it.
pub fn read_proc<S: Source>(source: &mut S, end: u8) -> Result<ProcId, ReadError>
    ensures read { Reads (seen S.remaining S.failures source.old)
        (seen S.remaining S.failures source.new) result (proc_at end) }
    ensures memory { IfErr result (λ e. e ≢ ReadError.Memory) }
{
    let number = number_to(source, 65535, end)?;
    Ok(ProcId::of(number as u16))
}
