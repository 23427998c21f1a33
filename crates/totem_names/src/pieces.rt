//! Text that is gathered on its way to a sink.
ghost use Rattle.std.specs.Prelude.{◌≡◌, [], decimal, IfOk, OnOk};
ghost use Rattle.totem_names.specs.Writing.{Writes, held};

use crate::sink::Sink;
use crate::source::Failed;
use std::alloc::{AllocError, Global};
use std::marker::Model;

/// How many bytes are gathered before they are written to the sink.
const PIECE: usize = 65536;

/// Gathers bytes and writes them to a sink in pieces of about 64 KiB. After the last bytes, `flush` has to be called.
#[derive(Drop)]
pub struct Pieces {
    gathered: Vec<u8>,
}

impl Model for Pieces {
    ghost use Rattle.std.specs.Prelude.{ℕ, List};

    ghost Value = { List ℕ };

    ghost view = { λ p. p.gathered.items };
}

impl Pieces {
    /// Makes a gatherer that holds nothing and has space for two pieces.
    pub fn new(alloc: Global) -> Result<Pieces, AllocError>
        ensures { IfOk result (λ p. p ≡ []) }
    {
        Ok(Pieces {
            gathered: Vec::with_capacity(alloc, PIECE + PIECE)?,
        })
    }

    /// Writes all gathered bytes to the sink. If the sink fails, they stay gathered.
    pub fn flush<S: Sink>(&mut self, sink: &mut S) -> Result<(), Failed>
        ensures written { Writes (held S.contents S.failures self.old sink.old)
            (held S.contents S.failures self.new sink.new) result [] }
        ensures empty { OnOk result (self.new ≡ []) }
    {
        sink.put(self.gathered.as_slice())?;
        self.gathered.clear();
        Ok(())
    }

    /// Gathers these bytes, and first writes what is gathered if that fills a piece. If memory for the bytes is
    /// refused, they go to the sink at once.
    pub fn put<S: Sink>(&mut self, sink: &mut S, bytes: &[u8]) -> Result<(), Failed>
        ensures { Writes (held S.contents S.failures self.old sink.old)
            (held S.contents S.failures self.new sink.new) result bytes.now }
    {
        if self.gathered.len() >= PIECE {
            self.flush(sink)?;
        }
        if self.gathered.extend_from_slice(bytes).is_ok() {
            return Ok(());
        }
        self.flush(sink)?;
        sink.put(bytes)
    }
}
