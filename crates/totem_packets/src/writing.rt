//! Writing the fields of packets from left to right, after the bytes that the output has.
ghost use Rattle.std.specs.Prelude.{◌≡◌, ◌≤◌, ◌<◌, ◌^◌, ◌++◌, length, OnOk};
ghost use Rattle.std.specs.Int.{w8, w16, w32, w64};
ghost use Rattle.totem_packets.specs.Spelling.{number_bytes, ring_bytes, payload_bytes, number_or_zero, list_bytes};

use crate::payload::Payload;
use crate::processes::Processes;
use crate::requests::Requests;
use std::alloc::AllocError;
use totem_names::{ProcId, RingId};

#[tactic(auto, unfolding(crate::specs::Spelling::number_bytes))]
pub fn put_u8(out: &mut Vec<u8>, number: u8) -> Result<(), AllocError>
    ensures { OnOk result (out.new.items ≡ out.old.items ++ number_bytes w8 number) }
{
    out.extend_from_slice(&number.to_be_bytes())
}

#[tactic(auto, unfolding(crate::specs::Spelling::number_bytes))]
pub fn put_u16(out: &mut Vec<u8>, number: u16) -> Result<(), AllocError>
    ensures { OnOk result (out.new.items ≡ out.old.items ++ number_bytes w16 number) }
{
    out.extend_from_slice(&number.to_be_bytes())
}

#[tactic(auto, unfolding(crate::specs::Spelling::number_bytes))]
pub fn put_u32(out: &mut Vec<u8>, number: u32) -> Result<(), AllocError>
    ensures { OnOk result (out.new.items ≡ out.old.items ++ number_bytes w32 number) }
{
    out.extend_from_slice(&number.to_be_bytes())
}

#[tactic(auto, unfolding(crate::specs::Spelling::number_bytes))]
pub fn put_u64(out: &mut Vec<u8>, number: u64) -> Result<(), AllocError>
    ensures { OnOk result (out.new.items ≡ out.old.items ++ number_bytes w64 number) }
{
    out.extend_from_slice(&number.to_be_bytes())
}

pub fn put_process(out: &mut Vec<u8>, proc: ProcId) -> Result<(), AllocError>
    ensures { OnOk result (out.new.items ≡ out.old.items ++ number_bytes w16 proc) }
{
    put_u16(out, proc.number())
}

/// Writes a process that may be missing: 0 stands for none.
pub fn put_maybe_process(out: &mut Vec<u8>, proc: Option<ProcId>) -> Result<(), AllocError>
    ensures { OnOk result (out.new.items ≡ out.old.items ++ number_bytes w16 (number_or_zero proc)) }
{
    match proc {
        None => put_u16(out, 0),
        Some(proc) => put_process(out, proc),
    }
}

#[tactic(auto, unfolding(crate::specs::Spelling::ring_bytes))]
pub fn put_ring(out: &mut Vec<u8>, ring: &RingId) -> Result<(), AllocError>
    ensures { OnOk result (out.new.items ≡ out.old.items ++ ring_bytes ring.now) }
{
    put_u32(out, ring.seq)?;
    put_process(out, ring.rep)
}

#[tactic(auto, unfolding(crate::specs::Spelling::payload_bytes))]
pub fn put_payload(out: &mut Vec<u8>, payload: &Payload) -> Result<(), AllocError>
    ensures { OnOk result (out.new.items ≡ out.old.items ++ payload_bytes payload.now) }
{
    let bytes = payload.as_slice();
    put_u16(out, bytes.len() as u16)?;
    out.extend_from_slice(bytes)
}

/// Writes the count of the numbers that a token asks for, then the numbers.
#[tactic(auto, unfolding(crate::specs::Spelling::list_bytes))]
pub fn put_requests(out: &mut Vec<u8>, requests: &Requests) -> Result<(), AllocError>
    ensures { OnOk result (out.new.items ≡ out.old.items ++ list_bytes w32 requests.now) }
{
    let numbers = requests.as_slice();
    put_u8(out, numbers.len() as u8)?;
    for number in numbers {
        put_u32(out, number.get())?;
    }
    Ok(())
}

/// Writes the count of a set's processes, then the processes.
#[tactic(auto, unfolding(crate::specs::Spelling::list_bytes))]
pub fn put_process_set(out: &mut Vec<u8>, processes: &Processes) -> Result<(), AllocError>
    ensures { OnOk result (out.new.items ≡ out.old.items ++ list_bytes w16 processes.now) }
{
    let procs = processes.as_slice();
    put_u8(out, procs.len() as u8)?;
    for proc in procs {
        put_process(out, *proc)?;
    }
    Ok(())
}
