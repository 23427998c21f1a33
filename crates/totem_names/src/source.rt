//! Streams of bytes to read from. Contracts know what they have left and how often they failed.
ghost use Rattle.std.specs.Prelude.{◌≡◌, ℕ, List, true, false, IfOk, IfSome, OnErr};
ghost use Rattle.std.specs.Io.{StartsWith};
ghost use Rattle.std.specs.declared.option.Option.{Option};
ghost use Rattle.std.specs.Io.KnownBytes.{Keeps};
ghost use Rattle.totem_names.specs.Streams.{Gives, Skips, failed_once};

use crate::retry::read_retrying;
use crate::text_place::TextPlace;
use std::io::Read;
use thiserror::Error;

/// A stream has failed.
#[derive(Clone, Copy, Debug, PartialEq, Eq, Error)]
#[error("the stream failed")]
pub struct Failed;

/// A stream of bytes to read from. It may be called again after a failure.
pub trait Source {
    /// The bytes that it has left, where they are known.
    ghost remaining: { Self → Option (List ℕ) };

    /// How often it has failed. The count has 64 bits and wraps.
    ghost failures: { Self → ℕ };

    /// Reads the next byte. Returns `None` at the end.
    fn byte(&mut self) -> Result<Option<u8>, Failed>
        ensures byte { IfOk result (λ b. Gives (remaining self.old) (remaining self.new) b) }
        ensures err { OnErr result (Keeps (remaining self.old) (remaining self.new)) }
        ensures failures { failures self.new ≡ failed_once result (failures self.old) };

    /// Returns bytes that come next and can be taken by `skip`: none, or those that a buffer holds.
    fn at_hand(&self) -> &[u8]
        ensures { IfSome (remaining self.now) (λ bytes. StartsWith bytes result.now) }
    {
        &[]
    }

    /// Takes the next `count` bytes if a buffer holds that many. Otherwise it takes none and returns `false`.
    fn skip(&mut self, count: usize) -> bool
        ensures skipped { result ≡ true → Skips (remaining self.old) (remaining self.new) count }
        ensures kept { result ≡ false → Keeps (remaining self.old) (remaining self.new) }
        ensures failures { failures self.new ≡ failures self.old }
    {
        let _ = count;
        false
    }

    /// Returns the place of the byte that was asked for last, or `None` if the source does not know it.
    fn text_place(&self) -> Option<TextPlace<'_>> {
        None
    }
}

/// A source that reads from a reader, one byte at a time. It tries a read again if a signal interrupts it.
#[derive(Drop)]
pub struct FromRead<R> {
    inner: R,
    failed: u64,
}

impl<R> FromRead<R> {
    ghost use Rattle.totem_names.specs.Wrapped.{reader_of, read_failures};

    /// Makes a source over this reader that has not failed yet.
    pub fn new(inner: R) -> FromRead<R>
        ensures inner { reader_of result ≡ inner }
        ensures failures { read_failures result ≡ 0 }
    {
        FromRead { inner, failed: 0 }
    }

    /// Returns the reader.
    pub fn into_inner(self) -> R
        ensures { result ≡ reader_of self }
    {
        let FromRead { inner, failed: _ } = self;
        inner
    }
}

impl<R: Read> Source for FromRead<R> {
    ghost use Rattle.totem_names.specs.Wrapped.{reader_of, read_failures};

    ghost remaining = { λ s. R.remaining (reader_of s) };

    ghost failures = { read_failures };

    fn byte(&mut self) -> Result<Option<u8>, Failed> {
        let mut one = [0u8; 1];
        match read_retrying(&mut self.inner, &mut one) {
            Ok(0) => Ok(None),
            Ok(_) => Ok(Some(one[0])),
            Err(_) => {
                self.failed = self.failed.wrapping_add(1);
                Err(Failed)
            }
        }
    }
}
