//! Reads names from bytes at hand. Each function begins at an index, and also takes the byte `end` after the name. It returns the name and the
//! index of what follows, or `None` if there is no such name, or the bytes end before it does.
ghost use Rattle.std.specs.Prelude.{◌≡◌, ◌≤◌, IfSome};
ghost use Rattle.totem_names.specs.Sources.{Stands};
ghost use Rattle.totem_names.specs.Numbers.{byte_at, word_at, number_to, proc_at};
ghost use Rattle.totem_names.specs.Services.{service_at};
ghost use Rattle.totem_names.specs.Parsers.{ring_at, message_at, regular_at, transitional_at, conf_at};
ghost use Rattle.totem_names.specs.declared.fault.TextFault.{TextFault};
ghost use Rattle.totem_names.specs.Texts.{IsUpTo};

use crate::conf::ConfId;
use crate::message::{MsgId, Service};
use crate::process::ProcId;
use crate::reading::number_within;
use crate::ring::RingId;

/// Returns the byte at this index.
#[inline(always)]
pub fn byte_in(bytes: &[u8], at: usize) -> Option<(u8, usize)>
    ensures { IfSome result (λ r. Stands bytes.now at r.1 byte_at r.0) }
{
    if at >= bytes.len() {
        return None;
    }
    Some((bytes[at], at + 1))
}

/// Returns where exactly this word ends.
#[inline(always)]
pub fn word_in(bytes: &[u8], at: usize, word: &[u8]) -> Option<usize>
    ensures { (fault : TextFault) → IfSome result (λ next. Stands bytes.now at next (word_at fault word.now) tt) }
{
    let rest = bytes.get(at..)?;
    if !rest.starts_with(word) {
        return None;
    }
    Some(at + word.len())
}

#[inline(always)]
fn number_in(bytes: &[u8], at: usize, max: u32, end: u8) -> Option<(u32, usize)>
    requires { 9 ≤ max }
    ensures number { IfSome result (λ r. Stands bytes.now at r.1 (number_to max end) r.0) }
    ensures range { IfSome result (λ r. IsUpTo max r.0) }
{
    let rest = bytes.get(at..)?;
    let (number, byte, count) = number_within(rest, max)?;
    if byte != end {
        return None;
    }
    Some((number, at + count))
}

#[inline(always)]
fn proc_in(bytes: &[u8], at: usize, end: u8) -> Option<(ProcId, usize)>
    ensures { IfSome result (λ r. Stands bytes.now at r.1 (proc_at end) r.0) }
{
    let (number, next) = number_in(bytes, at, 65535, end)?;
    Some((ProcId::of(number as u16), next))
}

#[inline(always)]
fn ring_in(bytes: &[u8], at: usize, end: u8) -> Option<(RingId, usize)>
    ensures { IfSome result (λ r. Stands bytes.now at r.1 (ring_at end) r.0) }
{
    let (seq, at) = number_in(bytes, at, u32::MAX, b'.')?;
    let (rep, at) = proc_in(bytes, at, end)?;
    Some((RingId { seq, rep }, at))
}

/// Returns the message at this index, and where what follows the byte `end` begins.
#[inline(always)]
pub fn message_in(bytes: &[u8], at: usize, end: u8) -> Option<(MsgId, usize)>
    ensures { IfSome result (λ r. Stands bytes.now at r.1 (message_at end) r.0) }
{
    let (ring, at) = ring_in(bytes, at, b'#')?;
    let (number, at) = number_in(bytes, at, u32::MAX, end)?;
    Some((MsgId { ring, number }, at))
}

#[inline(always)]
#[tactic(auto, using(crate::proofs::Readers::called, crate::proofs::Readers::begins), unfolding(crate::specs::Parsers::regular_at))]
fn regular_in(bytes: &[u8], at: usize, end: u8) -> Option<(ConfId, usize)>
    ensures { IfSome result (λ r. Stands bytes.now at r.1 (regular_at end) r.0) }
{
    let (ring, at) = ring_in(bytes, at, end)?;
    Some((ConfId::Regular(ring), at))
}

#[inline(always)]
fn transitional_in(bytes: &[u8], at: usize, end: u8) -> Option<(ConfId, usize)>
    ensures { IfSome result (λ r. Stands bytes.now at r.1 (transitional_at end) r.0) }
{
    let (next, at) = ring_in(bytes, at, b'/')?;
    let (least, at) = proc_in(bytes, at, end)?;
    Some((ConfId::Transitional { next, least }, at))
}

/// Returns the configuration at this index, and where what follows the byte `end` begins.
#[inline(always)]
pub fn conf_in(bytes: &[u8], at: usize, end: u8) -> Option<(ConfId, usize)>
    ensures { IfSome result (λ r. Stands bytes.now at r.1 (conf_at end) r.0) }
{
    let (kind, at) = byte_in(bytes, at)?;
    if kind == b'r' {
        return regular_in(bytes, at, end);
    }
    if kind == b't' {
        return transitional_in(bytes, at, end);
    }
    None
}

/// Returns the service at this index.
#[inline(always)]
#[tactic(auto, using(crate::proofs::Readers::called, crate::proofs::Readers::begins, crate::proofs::Readers::picks, crate::proofs::Readers::skips), unfolding(crate::specs::Services::service_at))]
pub fn service_in(bytes: &[u8], at: usize) -> Option<(Service, usize)>
    ensures { IfSome result (λ r. Stands bytes.now at r.1 service_at r.0) }
{
    let (letter, at) = byte_in(bytes, at)?;
    if letter == b'a' {
        return Some((Service::Agreed, at));
    }
    if letter == b's' {
        return Some((Service::Safe, at));
    }
    None
}
