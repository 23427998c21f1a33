//! Readers of names. Each also takes the byte `end` after the name, and leaves unread what follows that byte.
ghost use Rattle.std.specs.Prelude.{◌≢◌, IfErr};
ghost use Rattle.totem_names.specs.Sources.{Reads, seen};
ghost use Rattle.totem_names.specs.Parsers.{ring_at, message_at, regular_at, transitional_at, conf_at};

use crate::conf::ConfId;
use crate::fault::{ReadError, TextFault};
use crate::message::MsgId;
use crate::process::ProcId;
use crate::reading::{next, number_to, read_proc};
use crate::ring::RingId;
use crate::source::Source;

/// Reads a ring and the byte `end` after it.
#[tactic(auto, using(crate::proofs::Readers::called, crate::proofs::Readers::failed, crate::proofs::Readers::begins), unfolding(crate::specs::Parsers::ring_at))]
pub fn read_ring<S: Source>(source: &mut S, end: u8) -> Result<RingId, ReadError>
    ensures read { Reads (seen S.remaining S.failures source.old)
        (seen S.remaining S.failures source.new) result (ring_at end) }
    ensures memory { IfErr result (λ e. e ≢ ReadError.Memory) }
{
    let seq = number_to(source, u32::MAX, b'.')?;
    let rep = read_proc(source, end)?;
    Ok(RingId { seq, rep })
}

/// Reads a message and the byte `end` after it.
#[tactic(auto, using(crate::proofs::Readers::called, crate::proofs::Readers::failed, crate::proofs::Readers::begins), unfolding(crate::specs::Parsers::message_at))]
pub fn read_message<S: Source>(source: &mut S, end: u8) -> Result<MsgId, ReadError>
    ensures read { Reads (seen S.remaining S.failures source.old)
        (seen S.remaining S.failures source.new) result (message_at end) }
    ensures memory { IfErr result (λ e. e ≢ ReadError.Memory) }
{
    let ring = read_ring(source, b'#')?;
    let number = number_to(source, u32::MAX, end)?;
    Ok(MsgId { ring, number })
}

#[tactic(auto, using(crate::proofs::Readers::called, crate::proofs::Readers::failed, crate::proofs::Readers::begins), unfolding(crate::specs::Parsers::regular_at))]
fn read_regular<S: Source>(source: &mut S, end: u8) -> Result<ConfId, ReadError>
    ensures read { Reads (seen S.remaining S.failures source.old)
        (seen S.remaining S.failures source.new) result (regular_at end) }
    ensures memory { IfErr result (λ e. e ≢ ReadError.Memory) }
{
    let ring = read_ring(source, end)?;
    Ok(ConfId::Regular(ring))
}

#[tactic(auto, using(crate::proofs::Readers::called, crate::proofs::Readers::failed, crate::proofs::Readers::begins), unfolding(crate::specs::Parsers::transitional_at))]
fn read_transitional<S: Source>(source: &mut S, end: u8) -> Result<ConfId, ReadError>
    ensures read { Reads (seen S.remaining S.failures source.old)
        (seen S.remaining S.failures source.new) result (transitional_at end) }
    ensures memory { IfErr result (λ e. e ≢ ReadError.Memory) }
{
    let next = read_ring(source, b'/')?;
    let least = read_proc(source, end)?;
    Ok(ConfId::Transitional { next, least })
}

/// Reads a configuration and the byte `end` after it.
#[tactic(auto, using(crate::proofs::Readers::called, crate::proofs::Readers::failed, crate::proofs::Readers::begins, crate::proofs::Readers::chosen, crate::proofs::Readers::passed, crate::proofs::Readers::stops), unfolding(crate::specs::Parsers::conf_at))]
pub fn read_conf<S: Source>(source: &mut S, end: u8) -> Result<ConfId, ReadError>
    ensures read { Reads (seen S.remaining S.failures source.old)
        (seen S.remaining S.failures source.new) result (conf_at end) }
    ensures memory { IfErr result (λ e. e ≢ ReadError.Memory) }
{
    let kind = next(source)?;
    if kind == b'r' {
        return read_regular(source, end);
    }
    if kind == b't' {
        return read_transitional(source, end);
    }
    Err(ReadError::Text(TextFault::Word))
}
