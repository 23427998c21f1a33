//! Streams that fail after a given number of calls, for tests.
ghost use Rattle.std.specs.Prelude.{◌≡◌, ◌↔◌, ◌-◌, ◌<◌, IsTrue, IsErr, IfOk, OnErr, OnOk};
ghost use Rattle.std.specs.Io.KnownBytes.{Keeps, Appends};
ghost use Rattle.totem_names.specs.Streams.{Gives, failed_once};

use crate::sink::Sink;
use crate::source::{Failed, Source};

/// A source or a sink that passes its first calls on to the stream inside, up to a given number, and fails at each later call.
#[derive(Drop)]
pub struct Fused<S> {
    inner: S,
    calls: u64,
    failed: u64,
}

impl<S> Fused<S> {
    ghost use Rattle.totem_names.specs.Wrapped.{stream_of, calls_left, fused_failures};

    /// Wraps a stream and lets the first `calls` calls through to it.
    pub fn new(inner: S, calls: u64) -> Fused<S>
        ensures inner { stream_of result ≡ inner }
        ensures calls { calls_left result ≡ calls }
        ensures failures { fused_failures result ≡ 0 }
    {
        Fused {
            inner,
            calls,
            failed: 0,
        }
    }

    /// Returns the stream inside.
    pub fn into_inner(self) -> S
        ensures { result ≡ stream_of self }
    {
        let Fused {
            inner,
            calls: _,
            failed: _,
        } = self;
        inner
    }

    // Counts a call, and returns whether it goes to the stream inside.
    fn lets_through(&mut self) -> bool
        ensures through { IsTrue result ↔ (0 < calls_left self.old) }
        ensures calls { calls_left self.new ≡ calls_left self.old - 1 }
        ensures inner { stream_of self.new ≡ stream_of self.old }
        ensures failures { fused_failures self.new ≡ fused_failures self.old }
    {
        let through = self.calls > 0;
        self.calls = self.calls.saturating_sub(1);
        through
    }

    // Counts a failure.
    fn count<T>(&mut self, answer: &Result<T, Failed>)
        ensures failures { fused_failures self.new
            ≡ failed_once answer.now (fused_failures self.old) }
        ensures calls { calls_left self.new ≡ calls_left self.old }
        ensures inner { stream_of self.new ≡ stream_of self.old }
    {
        if answer.is_err() {
            self.failed = self.failed.wrapping_add(1);
        }
    }
}

impl<S: Source> Source for Fused<S> {
    ghost use Rattle.totem_names.specs.Wrapped.{stream_of, calls_left, fused_failures};

    ghost remaining = { λ s. S.remaining (stream_of s) };

    ghost failures = { fused_failures };

    fn byte(&mut self) -> Result<Option<u8>, Failed>
        ensures byte { IfOk result (λ b. Gives (S.remaining (stream_of self.old))
            (S.remaining (stream_of self.new)) b) }
        ensures err { OnErr result (Keeps (S.remaining (stream_of self.old))
            (S.remaining (stream_of self.new))) }
        ensures failures { fused_failures self.new ≡ failed_once result (fused_failures self.old) }

        // While calls are left, a call returns what the stream inside returns; after that, each call fails.
        ensures calls { calls_left self.new ≡ calls_left self.old - 1 }
        ensures inside { 0 < calls_left self.old →
            S.failures (stream_of self.new) ≡ failed_once result (S.failures (stream_of self.old)) }
        ensures fails { calls_left self.old ≡ 0 →
            IsErr result × (stream_of self.new ≡ stream_of self.old) }
    {
        let answer = if self.lets_through() {
            self.inner.byte()
        } else {
            Err(Failed)
        };
        self.count(&answer);
        answer
    }
}

impl<S: Sink> Sink for Fused<S> {
    ghost use Rattle.totem_names.specs.Wrapped.{stream_of, calls_left, fused_failures};

    ghost contents = { λ s. S.contents (stream_of s) };

    ghost failures = { fused_failures };

    fn put(&mut self, bytes: &[u8]) -> Result<(), Failed>
        ensures ok { OnOk result (Appends (S.contents (stream_of self.old))
            (S.contents (stream_of self.new)) bytes.now) }
        ensures failures { fused_failures self.new ≡ failed_once result (fused_failures self.old) }

        // While calls are left, a call returns what the stream inside returns; after that, each call fails.
        ensures calls { calls_left self.new ≡ calls_left self.old - 1 }
        ensures inside { 0 < calls_left self.old →
            S.failures (stream_of self.new) ≡ failed_once result (S.failures (stream_of self.old)) }
        ensures fails { calls_left self.old ≡ 0 →
            IsErr result × (stream_of self.new ≡ stream_of self.old) }
    {
        let answer = if self.lets_through() {
            self.inner.put(bytes)
        } else {
            Err(Failed)
        };
        self.count(&answer);
        answer
    }
}
