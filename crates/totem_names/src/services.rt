//! Reads and writes services.
ghost use Rattle.std.specs.Prelude.{◌≢◌, IfErr};
ghost use Rattle.totem_names.specs.Sources.{Reads, seen};
ghost use Rattle.totem_names.specs.Writing.{Writes, held};
ghost use Rattle.totem_names.specs.Services.{service_at};
ghost use Rattle.totem_names.specs.Texts.{service_text};

use crate::fault::{ReadError, TextFault};
use crate::message::Service;
use crate::pieces::Pieces;
use crate::reading::next;
use crate::sink::Sink;
use crate::source::{Failed, Source};

/// Reads a service. No byte after it is read.
#[tactic(auto, using(crate::proofs::Readers::called, crate::proofs::Readers::failed, crate::proofs::Readers::begins, crate::proofs::Readers::chosen, crate::proofs::Readers::passed, crate::proofs::Readers::stops), unfolding(crate::specs::Services::service_at))]
pub fn read_service<S: Source>(source: &mut S) -> Result<Service, ReadError>
    ensures read { Reads (seen S.remaining S.failures source.old)
        (seen S.remaining S.failures source.new) result service_at }
    ensures memory { IfErr result (λ e. e ≢ ReadError.Memory) }
{
    let letter = next(source)?;
    if letter == b'a' {
        return Ok(Service::Agreed);
    }
    if letter == b's' {
        return Ok(Service::Safe);
    }
    Err(ReadError::Text(TextFault::Word))
}

impl Pieces {
    /// Writes a service, `a` or `s`.
    pub fn put_service<S: Sink>(&mut self, sink: &mut S, service: Service) -> Result<(), Failed>
        ensures { Writes (held S.contents S.failures self.old sink.old)
            (held S.contents S.failures self.new sink.new) result (service_text service) }
    {
        match service {
            Service::Agreed => self.put(sink, b"a"),
            Service::Safe => self.put(sink, b"s"),
        }
    }
}
