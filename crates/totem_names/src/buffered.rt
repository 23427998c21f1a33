//! A source that reads through a buffer.
ghost use Rattle.std.specs.Prelude.{◌≡◌, ◌<◌, ◌≤◌, length, IfOk, OnErr};
ghost use Rattle.std.specs.Io.KnownBytes.{Keeps};
ghost use Rattle.totem_names.specs.Streams.{Gives, failed_once};

use crate::retry::read_retrying;
use crate::source::{Failed, Source};
use crate::text_place::{FRONT, Passed, TextPlace, keep_front, place_of};
use std::alloc::{AllocError, Global};
use std::io::Read;

const SIZE: usize = 65536;

/// A source that reads from a reader through a buffer of 64 KiB. It tries a read again if a signal interrupts it, and knows where
/// it is in the text.
#[derive(Drop)]
pub struct Buffered<R> {
    inner: R,
    buffer: Vec<u8>,
    at: usize,
    filled: usize,
    failed: u64,
    passed: Passed,
    front: Vec<u8>,
    ghost within: { at ≤ filled },
    ghost room: { filled ≤ length buffer.items },
    ghost some: { 0 < length buffer.items },
}

impl<R: Read + Drop> Buffered<R> {
    ghost use Rattle.totem_names.specs.Wrapped.{buffered_left, buffered_failures};

    /// Makes the buffer. Nothing is read from `inner` yet.
    pub fn new(alloc: Global, inner: R) -> Result<Buffered<R>, AllocError>
        ensures left { IfOk result (λ s. buffered_left R.remaining s ≡ R.remaining inner) }
        ensures failures { IfOk result (λ s. buffered_failures s ≡ 0) }
    {
        let mut buffer = Vec::new(alloc);
        buffer.resize(SIZE, 0u8)?;
        let front = Vec::with_capacity(alloc, 2 * FRONT)?;
        Ok(Buffered {
            inner,
            buffer,
            at: 0,
            filled: 0,
            failed: 0,
            passed: Passed::nothing(),
            front,
        })
    }
}

impl<R: Read> Buffered<R> {
    ghost use Rattle.totem_names.specs.Wrapped.{buffered_left, buffered_failures};

    // Refills the buffer once all of it was returned, and returns its first byte, or `None` at the end.
    #[cold]
    #[inline(never)]
    fn first_of_more(&mut self) -> Result<Option<u8>, Failed>
        requires { self.old.at ≡ self.old.filled }
        ensures byte { IfOk result (λ b. Gives (buffered_left R.remaining self.old) (buffered_left R.remaining self.new) b) }
        ensures err { OnErr result (Keeps (buffered_left R.remaining self.old) (buffered_left R.remaining self.new)) }
        ensures failures { buffered_failures self.new ≡ failed_once result (buffered_failures self.old) }
    {
        let given = &self.buffer[..self.filled];
        self.passed = self.passed.and(given);
        keep_front(&mut self.front, given);
        self.at = 0;
        self.filled = 0;
        match read_retrying(&mut self.inner, self.buffer.as_mut_slice()) {
            Ok(0) => Ok(None),
            Ok(count) => {
                self.filled = count;
                self.at = 1;
                Ok(Some(self.buffer[0]))
            }
            Err(_) => {
                self.failed = self.failed.wrapping_add(1);
                Err(Failed)
            }
        }
    }
}

impl<R: Read> Source for Buffered<R> {
    ghost use Rattle.totem_names.specs.Wrapped.{buffered_left, buffered_failures};

    ghost remaining = { buffered_left R.remaining };

    ghost failures = { buffered_failures };

    #[inline]
    fn byte(&mut self) -> Result<Option<u8>, Failed> {
        if self.at < self.filled {
            let first = self.buffer[self.at];
            self.at += 1;
            return Ok(Some(first));
        }
        self.first_of_more()
    }

    #[inline]
    fn at_hand(&self) -> &[u8] {
        &self.buffer[self.at..self.filled]
    }

    #[inline]
    fn skip(&mut self, count: usize) -> bool {
        if count > self.filled - self.at {
            return false;
        }
        self.at += count;
        true
    }

    fn text_place(&self) -> Option<TextPlace<'_>> {
        let given = &self.buffer[..self.at];
        let rest = &self.buffer[self.at..self.filled];
        Some(place_of(self.passed, &self.front, given, rest))
    }
}
