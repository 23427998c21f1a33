//! `submit`: what a client asks a process to send.
ghost use Rattle.std.specs.Prelude.{◌≡◌, ◌↔◌, IsTrue, All, IfOk, MatchResult};
ghost use Rattle.std.specs.List.{list_all};
ghost use Rattle.totem_script.specs.Commands.{service_in, may_stand, is_payload, payload_in, submit_words};
ghost use Rattle.totem_script.specs.Parsed.{Gives};

use crate::command::Command;
use crate::fault::LineFault;
use crate::numbers::{is_digit, process};
use crate::parts::Parts;
use bytes::Bytes;
use std::alloc::Global;
use totem_names::Service;
use totem_packets::Payload;

/// The greatest length of a payload in bytes.
const LONGEST: usize = 64;

/// Returns the service that the word `a` or `s` names.
fn service(word: &[u8]) -> Result<Service, LineFault>
    ensures { result ≡ service_in word.now }
{
    if word == b"a".as_slice() {
        Ok(Service::Agreed)
    } else if word == b"s".as_slice() {
        Ok(Service::Safe)
    } else {
        Err(LineFault::Word)
    }
}

/// Returns whether the byte is one of `0` to `9` or `a` to `z`.
fn may_stand(byte: u8) -> bool
    ensures { result ≡ may_stand byte }
{
    is_digit(byte) || (b'a' <= byte && byte <= b'z')
}

fn all_may_stand(word: &[u8]) -> bool
    ensures { result ≡ list_all may_stand word.now }
{
    word.iter().all(|b| may_stand(*b))
}

/// Returns whether the word has 1 to 64 such bytes.
fn is_payload(word: &[u8]) -> bool
    ensures { result ≡ is_payload word.now }
{
    !word.is_empty() && word.len() <= LONGEST && all_may_stand(word)
}

fn payload(alloc: Global, word: &[u8]) -> Result<Payload, LineFault>
    ensures { Gives result (payload_in word.now) }
{
    let fits = is_payload(word);
    if !fits {
        return Err(LineFault::Word);
    }
    let bytes = Bytes::copy_from_slice(alloc, word)?;
    Ok(Payload::of(bytes))
}

/// Reads the process, the service and the payload of a `submit` line.
pub fn submit(alloc: Global, words: &mut Parts<'_>) -> Result<Command, LineFault>
    ensures { Gives result (submit_words words.old) }
{
    let Some(proc) = words.next() else {
        return Err(LineFault::Word);
    };
    let proc = process(proc)?;
    let Some(said) = words.next() else {
        return Err(LineFault::Word);
    };
    let service = service(said)?;
    let Some(said) = words.next() else {
        return Err(LineFault::Word);
    };
    let payload = payload(alloc, said)?;
    if !words.is_empty() {
        return Err(LineFault::Word);
    }
    Ok(Command::Submit {
        proc,
        service,
        payload,
    })
}
