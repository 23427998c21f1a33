//! Reads and writes processes of a run, and places of their logs, as a text of some version has them.
ghost use Rattle.std.specs.Prelude.{◌≢◌, IfErr, decimal};
ghost use Rattle.totem_names.specs.Sources.{Reads, seen};
ghost use Rattle.totem_names.specs.Writing.{Writes, held};
ghost use Rattle.totem_names.specs.Processes.{first_life_then, life_then, process_then, process_to, process_text, place_at, place_text_in};

use crate::fault::{ReadError, TextFault};
use crate::life::Proc;
use crate::pieces::Pieces;
use crate::place::Place;
use crate::process::ProcId;
use crate::reading::{number, number_to};
use crate::sink::Sink;
use crate::source::{Failed, Source};
use crate::version::Version;

#[tactic(auto, using(crate::proofs::Readers::called, crate::proofs::Readers::failed, crate::proofs::Readers::begins), unfolding(crate::specs::Processes::first_life_then))]
fn read_first_life<S: Source>(source: &mut S) -> Result<(Proc, u8), ReadError>
    ensures read { Reads (seen S.remaining S.failures source.old)
        (seen S.remaining S.failures source.new) result first_life_then }
    ensures memory { IfErr result (λ e. e ≢ ReadError.Memory) }
{
    let (id, byte) = number(source, 65535)?;
    Ok((Proc::first(ProcId::of(id as u16)), byte))
}

#[tactic(auto, using(crate::proofs::Readers::called, crate::proofs::Readers::failed, crate::proofs::Readers::begins), unfolding(crate::specs::Processes::life_then))]
fn read_life<S: Source>(source: &mut S) -> Result<(Proc, u8), ReadError>
    ensures read { Reads (seen S.remaining S.failures source.old)
        (seen S.remaining S.failures source.new) result life_then }
    ensures memory { IfErr result (λ e. e ≢ ReadError.Memory) }
{
    let id = number_to(source, 65535, b':')?;
    let (life, byte) = number(source, 65535)?;
    Ok((Proc::of(ProcId::of(id as u16), life as u16), byte))
}

/// Reads a process, with its life where this version writes lives, and returns it with the byte after it. If there is
/// another byte in place of the colon before the life, the fault is `Word`.
#[tactic(auto, unfolding(crate::specs::Processes::process_then))]
pub fn read_process<S: Source>(source: &mut S, version: Version) -> Result<(Proc, u8), ReadError>
    ensures read { Reads (seen S.remaining S.failures source.old)
        (seen S.remaining S.failures source.new) result (process_then version) }
    ensures memory { IfErr result (λ e. e ≢ ReadError.Memory) }
{
    match version {
        Version::One => read_first_life(source),
        Version::Two | Version::Three => read_life(source),
    }
}

/// Reads a process, with its life where this version writes lives, and the byte `end` after it. If another byte
/// follows, the fault is `Word`.
#[tactic(auto, using(crate::proofs::Readers::called, crate::proofs::Readers::failed, crate::proofs::Readers::begins, crate::proofs::Readers::chosen, crate::proofs::Readers::passed, crate::proofs::Readers::stops), unfolding(crate::specs::Processes::process_to))]
pub fn read_process_to<S: Source>(
    source: &mut S,
    version: Version,
    end: u8,
) -> Result<Proc, ReadError>
    ensures read { Reads (seen S.remaining S.failures source.old)
        (seen S.remaining S.failures source.new) result (process_to version end) }
    ensures memory { IfErr result (λ e. e ≢ ReadError.Memory) }
{
    let (process, byte) = read_process(source, version)?;
    if byte != end {
        return Err(ReadError::Text(TextFault::Word));
    }
    Ok(process)
}

/// Reads a place, with its process's life where this version writes lives, and the byte `end` after it.
#[tactic(auto, using(crate::proofs::Readers::called, crate::proofs::Readers::failed, crate::proofs::Readers::begins), unfolding(crate::specs::Processes::place_at))]
pub fn read_place<S: Source>(source: &mut S, version: Version, end: u8) -> Result<Place, ReadError>
    ensures read { Reads (seen S.remaining S.failures source.old)
        (seen S.remaining S.failures source.new) result (place_at version end) }
    ensures memory { IfErr result (λ e. e ≢ ReadError.Memory) }
{
    let proc = read_process_to(source, version, b'@')?;
    let at = number_to(source, u32::MAX, end)?;
    Ok(Place { proc, at })
}

impl Pieces {
    /// Writes a process, with its life where this version writes lives: as `2:1`, or as `2`.
    #[tactic(auto, using(crate::proofs::Writers::wrote_then, crate::proofs::Writers::wrote_failed))]
    pub fn put_process<S: Sink>(
        &mut self,
        sink: &mut S,
        version: Version,
        process: Proc,
    ) -> Result<(), Failed>
        ensures { Writes (held S.contents S.failures self.old sink.old)
            (held S.contents S.failures self.new sink.new) result (process_text version process) }
    {
        if !version.lives() {
            return self.put_number(sink, u32::from(process.id().number()));
        }
        self.put_number(sink, u32::from(process.id().number()))?;
        self.put(sink, b":")?;
        self.put_number(sink, u32::from(process.life()))
    }

    /// Writes a place, with its process's life where this version writes lives: as `2:1@5`, or as `2@5`.
    #[tactic(auto, using(crate::proofs::Writers::wrote_then, crate::proofs::Writers::wrote_failed))]
    pub fn put_place<S: Sink>(
        &mut self,
        sink: &mut S,
        version: Version,
        place: Place,
    ) -> Result<(), Failed>
        ensures { Writes (held S.contents S.failures self.old sink.old)
            (held S.contents S.failures self.new sink.new) result (place_text_in version place) }
    {
        self.put_process(sink, version, place.proc)?;
        self.put(sink, b"@")?;
        self.put_number(sink, place.at)
    }
}
