//! Streams of bytes to write to. Contracts know what they hold and how often they failed.
ghost use Rattle.std.specs.Prelude.{◌≡◌, ℕ, List, OnOk};
ghost use Rattle.std.specs.declared.option.Option.{Option};
ghost use Rattle.std.specs.Io.KnownBytes.{Appends};
ghost use Rattle.totem_names.specs.Streams.{failed_once};

use crate::source::Failed;
use std::io::Write;

/// A stream of bytes to write to. How many of its bytes a failed call has written is not known.
pub trait Sink {
    /// The bytes that it holds, where they are known.
    ghost contents: { Self → Option (List ℕ) };

    /// How often it has failed. The count has 64 bits and wraps.
    ghost failures: { Self → ℕ };

    /// Writes all these bytes.
    fn put(&mut self, bytes: &[u8]) -> Result<(), Failed>
        ensures ok { OnOk result (Appends (contents self.old) (contents self.new) bytes.now) }
        ensures failures { failures self.new ≡ failed_once result (failures self.old) };
}

/// A sink that writes to a writer. It tries a write again if a signal interrupts it.
#[derive(Drop)]
pub struct ToWrite<W> {
    inner: W,
    failed: u64,
}

impl<W> ToWrite<W> {
    ghost use Rattle.totem_names.specs.Wrapped.{writer_of, write_failures};

    /// Makes a sink over this writer that has not failed yet.
    pub fn new(inner: W) -> ToWrite<W>
        ensures inner { writer_of result ≡ inner }
        ensures failures { write_failures result ≡ 0 }
    {
        ToWrite { inner, failed: 0 }
    }

    /// Returns the writer.
    pub fn into_inner(self) -> W
        ensures { result ≡ writer_of self }
    {
        let ToWrite { inner, failed: _ } = self;
        inner
    }
}

impl<W: Write> Sink for ToWrite<W> {
    ghost use Rattle.totem_names.specs.Wrapped.{writer_of, write_failures};

    ghost contents = { λ s. W.contents (writer_of s) };

    ghost failures = { write_failures };

    fn put(&mut self, bytes: &[u8]) -> Result<(), Failed> {
        match self.inner.write_all(bytes) {
            Ok(()) => Ok(()),
            Err(_) => {
                self.failed = self.failed.wrapping_add(1);
                Err(Failed)
            }
        }
    }
}
