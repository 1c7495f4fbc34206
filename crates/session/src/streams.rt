//! Where replies go and lines come from: a writer and a reader that remember whether a call failed.

ghost use Rattle.std.specs.Prelude.{◌≡◌, ◌<◌, ℕ, IfOk, IsFalse, IsTrue, OnErr, length};
ghost use Rattle.std.specs.Io.{ReadsAtMost, WritesAtMost};
ghost use Rattle.std.specs.Io.KnownBytes.{ReadConsumes, WriteAppends};

use std::io::{ErrorKind, Read, Write};

/// A call failed, and no more is to be read or written.
#[derive(Drop)]
pub(crate) struct Closed;

/// A writer that remembers whether a write failed. One that a signal interrupted is tried again,
/// 2^64 - 2 times at most.
#[derive(Drop)]
pub struct Sink<W> {
    inner: W,
    has_failed: bool,
}

impl<W> Sink<W> {
    /// Over a writer, with no write so far.
    pub fn new(inner: W) -> Sink<W>
        ensures inner { result.inner ≡ inner }
        ensures fresh { IsFalse result.has_failed }
    {
        Sink {
            inner,
            has_failed: false,
        }
    }

    fn fail(&mut self) -> Closed
        ensures inner { self.new.inner ≡ self.old.inner }
        ensures failed { IsTrue self.new.has_failed }
    {
        self.has_failed = true;
        Closed
    }
}

impl<W: Write> Sink<W> {
    /// Writes a beginning of some bytes, one at least.
    pub(crate) fn write(&mut self, bytes: &[u8]) -> Result<usize, Closed>
        requires { 0 < length bytes.now }
        ensures bound { WritesAtMost result bytes.now }
        ensures some { IfOk result (λ count. 0 < count) }
        ensures bytes { WriteAppends (W.contents self.old.inner) (W.contents self.new.inner)
            result bytes.now }
        ensures failed { OnErr result (IsTrue self.new.has_failed) }
    {
        for _ in 0..u64::MAX {
            match self.inner.write(bytes) {
                Ok(0) => return Err(self.fail()),
                Ok(count) => return Ok(count),
                Err(error) if error.kind() == ErrorKind::Interrupted => continue,
                Err(_) => return Err(self.fail()),
            }
        }
        Err(self.fail())
    }
}

/// A reader that remembers whether a read failed. One that a signal interrupted is tried again,
/// 2^64 - 2 times at most.
#[derive(Drop)]
pub struct Source<R> {
    inner: R,
    has_failed: bool,
}

impl<R> Source<R> {
    /// Over a reader, with no read so far.
    pub fn new(inner: R) -> Source<R>
        ensures inner { result.inner ≡ inner }
        ensures fresh { IsFalse result.has_failed }
    {
        Source {
            inner,
            has_failed: false,
        }
    }

    fn fail(&mut self) -> Closed
        ensures inner { self.new.inner ≡ self.old.inner }
        ensures failed { IsTrue self.new.has_failed }
    {
        self.has_failed = true;
        Closed
    }
}

impl<R: Read> Source<R> {
    /// Reads some bytes; none only at the end.
    pub(crate) fn read(&mut self, bytes: &mut [u8]) -> Result<usize, Closed>
        ensures bound { ReadsAtMost result bytes.new }
        ensures bytes { ReadConsumes (R.remaining self.old.inner) (R.remaining self.new.inner)
            result bytes.new }
        ensures failed { OnErr result (IsTrue self.new.has_failed) }
    {
        for _ in 0..u64::MAX {
            match self.inner.read(bytes) {
                Ok(count) => return Ok(count),
                Err(error) if error.kind() == ErrorKind::Interrupted => continue,
                Err(_) => return Err(self.fail()),
            }
        }
        Err(self.fail())
    }
}
