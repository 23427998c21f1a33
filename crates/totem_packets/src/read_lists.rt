//! Reading strictly ascending lists of numbers and of processes from left to right.
ghost use Rattle.std.specs.Prelude.{◌≤◌, All, IfOk};
ghost use Rattle.std.specs.Int.{w16, w32};
ghost use Rattle.totem_names.specs.Texts.{IsProcess};
ghost use Rattle.totem_packets.specs.Fields.{above_at, rising_at, list_at};
ghost use Rattle.totem_packets.specs.Parsing.{Reads};
ghost use Rattle.totem_packets.specs.Rising.{IsNumber};

use crate::fault::PacketFault;
use crate::number::Number;
use crate::processes::Processes;
use crate::reader::Reader;
use crate::requests::Requests;
use crate::short_list::ShortList;
use std::alloc::Global;

/// Reads `count` strictly ascending numbers.
fn numbers(alloc: Global, reader: &mut Reader, count: u8) -> Result<Vec<Number>, PacketFault>
    ensures reads { Reads (λ x. x.items) result reader.new (rising_at (above_at w32) (λ n. n) count 0 reader.old) }
    ensures each { IfOk result (λ x. All IsNumber x.items) }
{
    let mut numbers = Vec::with_capacity(alloc, usize::from(count))?;
    let mut last = 0u32;
    for _ in 0..count {
        let number = reader.number(last)?;
        last = number.get();
        numbers.push(number)?;
    }
    Ok(numbers)
}

/// Reads `count` strictly ascending processes.
fn processes(reader: &mut Reader, count: u8) -> Result<ShortList, PacketFault>
    requires { count ≤ 32 }
    ensures reads { Reads (λ x. x) result reader.new (rising_at (above_at w16) (λ n. n) count 0 reader.old) }
    ensures each { IfOk result (λ x. All IsProcess x) }
{
    let mut procs = ShortList::new();
    let mut last = 0u16;
    for _ in 0..count {
        let proc = reader.process(last)?;
        last = proc.number();
        procs.push(proc);
    }
    Ok(procs)
}

/// Reads a count, and then that many numbers that a token asks for.
#[tactic(auto, using(crate::proofs::Falling::passes_on, crate::proofs::Lists::are_requests), unfolding(crate::specs::Fields::list_at))]
pub fn requests(alloc: Global, reader: &mut Reader) -> Result<Requests, PacketFault>
    ensures { Reads (λ x. x) result reader.new (list_at w32 64 reader.old) }
{
    let count = reader.count(64)?;
    let numbers = numbers(alloc, reader, count)?;
    Ok(Requests::of(numbers))
}

/// Reads a count, and then that many processes of a set.
#[tactic(auto, using(crate::proofs::Falling::passes_on, crate::proofs::Lists::are_processes, crate::proofs::Lists::up_to_is), unfolding(crate::specs::Fields::list_at))]
pub fn process_set(reader: &mut Reader) -> Result<Processes, PacketFault>
    ensures { Reads (λ x. x) result reader.new (list_at w16 32 reader.old) }
{
    let count = reader.count(32)?;
    let procs = processes(reader, count)?;
    Ok(Processes::of(procs))
}
