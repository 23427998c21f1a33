//! Reads numbers and names that are a whole word.
ghost use Rattle.std.specs.Prelude.{◌≡◌, ◌≤◌, ◌&&◌, ◌==◌, not, IfOk};
ghost use Rattle.totem_names.specs.Numbers.{is_digit};
ghost use Rattle.totem_names.specs.Texts.{IsUpTo};
ghost use Rattle.totem_script.specs.Numbers.{begins_number, number_in, process_in, ring_in};

use crate::fault::LineFault;
use crate::parts::Parts;
use totem_names::{ProcId, RingId};

/// Returns whether the byte is a digit, `0` to `9`.
pub fn is_digit(byte: u8) -> bool
    ensures { result ≡ is_digit byte }
{
    b'0' <= byte && byte <= b'9'
}

/// Returns whether the byte is a digit from `1` to `9`.
fn begins_number(byte: u8) -> bool
    ensures { result ≡ begins_number byte }
{
    is_digit(byte) && byte != b'0'
}

/// Returns the number that the word spells, from 1 to `max` and without leading zeros.
#[tactic(auto, using(crate::proofs::Walking::steps), unfolding(crate::specs::Numbers::number_in, crate::specs::Numbers::digits_in))]
pub fn number(word: &[u8], max: u32) -> Result<u32, LineFault>
    requires { 9 ≤ max }
    ensures number { result ≡ number_in max word.now }
    ensures range { IfOk result (IsUpTo max) }
{
    let Some((first, digits)) = word.split_first() else {
        return Err(LineFault::Number);
    };
    let begins = begins_number(*first);
    if !begins {
        return Err(LineFault::Number);
    }
    let mut number = u64::from(*first - b'0');
    for byte in digits {
        let more = is_digit(*byte);
        if !more {
            return Err(LineFault::Word);
        }
        number = 10 * number + u64::from(*byte - b'0');
        if number > u64::from(max) {
            return Err(LineFault::Number);
        }
    }
    Ok(number as u32)
}

/// Returns the process that the word spells.
pub fn process(word: &[u8]) -> Result<ProcId, LineFault>
    ensures { result ≡ process_in word.now }
{
    let number = number(word, 65_535)?;
    Ok(ProcId::of(number as u16))
}

/// Returns the ring that the word spells: its number, a dot, its representative.
pub fn ring(word: &[u8]) -> Result<RingId, LineFault>
    ensures { result ≡ ring_in word.now }
{
    let mut parts = Parts::new(word, b'.');
    let Some(seq) = parts.next() else {
        return Err(LineFault::Word);
    };
    let seq = number(seq, u32::MAX)?;
    let Some(rep) = parts.next() else {
        return Err(LineFault::Word);
    };
    let rep = process(rep)?;
    if !parts.is_empty() {
        return Err(LineFault::Word);
    }
    Ok(RingId { seq, rep })
}
