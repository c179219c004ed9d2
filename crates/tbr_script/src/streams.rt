//! What the program reads from and writes to.
ghost use Rattle.std.specs.Prelude.{◌≡◌, ◌<◌, ◌||◌, ℕ, Bool, false, Option, List, length, is_err, IfOk};
ghost use Rattle.std.specs.Io.{ReadsAtMost, WritesAtMost};
ghost use Rattle.std.specs.Io.KnownBytes.{ReadConsumes, WriteAppends};
ghost use Rattle.tbr_script.specs.Streams.{WritesAll};

use std::io::{Read, Write};
use std::marker::Model;

/// A read or a write failed.
#[derive(Clone, Copy, PartialEq, Eq, Debug)]
pub struct Failed;

/// Where a script is read from. A contract may know the bytes that are left.
pub trait Source {
    ghost remaining: { Self → Option (List ℕ) };

    ghost failed: { Self → Bool };

    /// Reads some bytes to the front of the buffer, and answers how many. For a buffer that isn't empty, 0 means the
    /// end. It answers `Failed` where the source fails.
    fn read(&mut self, buf: &mut [u8]) -> Result<usize, Failed>
        ensures bound { ReadsAtMost result buf.new }
        ensures bytes { ReadConsumes (remaining self.old) (remaining self.new) result buf.new }
        ensures failure { failed self.new ≡ (is_err result || failed self.old) };

    /// Whether a read has answered `Failed`.
    fn has_failed(&self) -> bool
        ensures { result ≡ failed self.now };
}

/// Where a text is written to. A contract may know the bytes that it holds.
pub trait Sink {
    ghost contents: { Self → Option (List ℕ) };

    ghost failed: { Self → Bool };

    /// Writes some bytes from the front, and answers how many: at least one, if there are any. It answers `Failed`
    /// where the sink fails.
    fn write(&mut self, bytes: &[u8]) -> Result<usize, Failed>
        ensures bound { WritesAtMost result bytes.now }
        ensures some { IfOk result (λ n. 0 < length bytes.now → 0 < n) }
        ensures bytes { WriteAppends (contents self.old) (contents self.new) result bytes.now }
        ensures failure { failed self.new ≡ (is_err result || failed self.old) };

    /// Whether a write has answered `Failed`.
    fn has_failed(&self) -> bool
        ensures { result ≡ failed self.now };
}

/// A reader of std. Each of its errors is `Failed`.
#[derive(Drop)]
pub struct StdSource<R> {
    reader: R,
    failed: bool,
}

impl<R> Model for StdSource<R> {
    ghost use Rattle.tbr_script.specs.Streams.{Stream};

    ghost Value = { Stream R };

    ghost view = { λ s. record { inner = s.reader; failed = s.failed } };
}

impl<R> StdSource<R> {
    ghost use Rattle.std.specs.Prelude.{◌≡◌, false};

    /// A source of this reader, which hasn't failed.
    pub fn new(reader: R) -> StdSource<R>
        ensures { result ≡ record { inner = reader; failed = false } }
    {
        StdSource {
            reader,
            failed: false,
        }
    }

    /// The reader itself.
    pub fn into_inner(self) -> R
        ensures { result ≡ self.inner }
    {
        self.reader
    }
}

impl<R: Read> Source for StdSource<R> {
    ghost remaining = { λ s. R.remaining s.inner };

    ghost failed = { λ s. s.failed };

    fn read(&mut self, buf: &mut [u8]) -> Result<usize, Failed> {
        match self.reader.read(buf) {
            Ok(count) => Ok(count),
            Err(_) => {
                self.failed = true;
                Err(Failed)
            }
        }
    }

    fn has_failed(&self) -> bool {
        self.failed
    }
}

/// A writer of std. Each of its errors is `Failed`, and so is a write that takes none of the bytes that it is given.
#[derive(Drop)]
pub struct StdSink<W> {
    writer: W,
    failed: bool,
}

impl<W> Model for StdSink<W> {
    ghost use Rattle.tbr_script.specs.Streams.{Stream};

    ghost Value = { Stream W };

    ghost view = { λ s. record { inner = s.writer; failed = s.failed } };
}

impl<W> StdSink<W> {
    ghost use Rattle.std.specs.Prelude.{◌≡◌, false};

    /// A sink of this writer, which hasn't failed.
    pub fn new(writer: W) -> StdSink<W>
        ensures { result ≡ record { inner = writer; failed = false } }
    {
        StdSink {
            writer,
            failed: false,
        }
    }

    /// The writer itself.
    pub fn into_inner(self) -> W
        ensures { result ≡ self.inner }
    {
        self.writer
    }
}

impl<W: Write> Sink for StdSink<W> {
    ghost contents = { λ s. W.contents s.inner };

    ghost failed = { λ s. s.failed };

    fn write(&mut self, bytes: &[u8]) -> Result<usize, Failed> {
        match self.writer.write(bytes) {
            Ok(count) if count > 0 || bytes.is_empty() => Ok(count),
            _ => {
                self.failed = true;
                Err(Failed)
            }
        }
    }

    fn has_failed(&self) -> bool {
        self.failed
    }
}

/// Writes all of the bytes. It takes no memory. It answers `Failed` only where the sink fails, and then a beginning of
/// them was written.
pub fn write_all<S: Sink>(sink: &mut S, bytes: &[u8]) -> Result<(), Failed>
    ensures written { WritesAll (S.contents sink.old) (S.contents sink.new) result bytes.now }
    ensures failure { S.failed sink.new ≡ (is_err result || S.failed sink.old) }
{
    let mut rest = bytes;
    while !rest.is_empty() {
        let count = sink.write(rest)?;
        rest = &rest[count..];
    }
    Ok(())
}
