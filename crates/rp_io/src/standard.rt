ghost use Rattle.std.specs.Prelude.{◌≡◌, ℕ, ◌<◌, ◌≤◌, length, None, IfOk, OnErr, OnOk};
ghost use Rattle.std.specs.Io.KnownBytes.{ReadConsumes};
ghost use Rattle.rp_io.specs.Bytes.{Appends, AppendsPrefix, IsAtEnd, Takes};
ghost use Rattle.rp_io.specs.Faults.{HasRisen, last_count, next_count};
ghost use Rattle.rp_io.specs.Written.{PutAppends};

use super::failed::Failed;
use super::sink::Sink;
use super::source::Source;
use std::io::{Read, Write};

/// A source over a reader of std, such as standard input.
///
/// A contract does not see the bytes to come.
#[derive(Debug, Drop)]
pub struct StdSource<R> {
    reader: R,
    faults: u64,
    ghost counted: { faults ≤ last_count },
}

impl<R> StdSource<R> {
    ghost use Rattle.rp_io.specs.Standard.{reader_of, read_faults};

    /// Returns a source over `reader`, with no fault so far.
    pub fn new(reader: R) -> StdSource<R>
        ensures reader { reader_of result ≡ reader }
        ensures faults { read_faults result ≡ 0 }
    {
        StdSource { reader, faults: 0 }
    }
}

impl<R: Read> Source for StdSource<R> {
    ghost use Rattle.rp_io.specs.Standard.{reader_of, read_faults};

    ghost left = { λ _. None };

    ghost faults = { read_faults };

    /// Reads once from the reader.
    ///
    /// # Errors
    ///
    /// `Failed` if the reader returns any error.
    fn read(&mut self, buf: &mut [u8]) -> Result<usize, Failed>
        ensures counts { read_faults self.old ≤ read_faults self.new }
        ensures limit { read_faults self.new ≤ last_count }
        ensures failed { OnErr result (HasRisen (read_faults self.old) (read_faults self.new)) }
        ensures same { OnOk result (read_faults self.new ≡ read_faults self.old) }
        ensures within { IfOk result (λ n. n ≤ length buf.new) }
        ensures taken { IfOk result (λ n. Takes None None n buf.new) }
        ensures end { IfOk result (λ n. n ≡ 0 → 0 < length buf.new → IsAtEnd None) }

        // The count, and the bytes where the reader tells them.
        ensures risen { OnErr result (read_faults self.new ≡ next_count (read_faults self.old)) }
        ensures bytes { ReadConsumes (R.remaining (reader_of self.old)) (R.remaining (reader_of self.new))
            result buf.new }
    {
        match self.reader.read(buf) {
            Ok(count) => Ok(count),
            Err(_) => {
                self.faults = self.faults.saturating_add(1);
                Err(Failed)
            }
        }
    }
}

/// A sink over a writer of std, such as standard output.
///
/// A contract does not see the bytes so far.
#[derive(Debug, Drop)]
pub struct StdSink<W> {
    writer: W,
    faults: u64,
    ghost counted: { faults ≤ last_count },
}

impl<W> StdSink<W> {
    ghost use Rattle.rp_io.specs.Standard.{writer_of, put_faults};

    /// Returns a sink over `writer`, with no fault so far.
    pub fn new(writer: W) -> StdSink<W>
        ensures writer { writer_of result ≡ writer }
        ensures faults { put_faults result ≡ 0 }
    {
        StdSink { writer, faults: 0 }
    }
}

impl<W: Write> Sink for StdSink<W> {
    ghost use Rattle.rp_io.specs.Standard.{writer_of, put_faults};

    ghost said = { λ _. None };

    ghost faults = { put_faults };

    /// Writes `piece`, in as many writes as needed, and flushes.
    ///
    /// # Errors
    ///
    /// `Failed` if a write or the flush returns any error, or a write accepts nothing of a nonempty rest.
    fn put(&mut self, piece: &[u8]) -> Result<(), Failed>
        ensures counts { put_faults self.old ≤ put_faults self.new }
        ensures limit { put_faults self.new ≤ last_count }
        ensures failed { OnErr result (HasRisen (put_faults self.old) (put_faults self.new)) }
        ensures ok { OnOk result (Appends None None piece.now) }
        ensures err { OnErr result (AppendsPrefix None None piece.now) }

        // The count, and the bytes where the writer tells them.
        ensures risen { OnErr result (put_faults self.new ≡ next_count (put_faults self.old)) }
        ensures same { OnOk result (put_faults self.new ≡ put_faults self.old) }
        ensures bytes { PutAppends (W.contents (writer_of self.old)) (W.contents (writer_of self.new))
            result piece.now }
    {
        let written = write_whole(&mut self.writer, piece);
        if written.is_err() {
            self.faults = self.faults.saturating_add(1);
        }
        written
    }
}

// Writes all of `piece` to `writer`, and flushes.
fn write_whole<W: Write>(writer: &mut W, piece: &[u8]) -> Result<(), Failed>
    ensures bytes { PutAppends (W.contents writer.old) (W.contents writer.new) result piece.now }
{
    let mut rest = piece;
    while !rest.is_empty() {
        match writer.write(rest) {
            Ok(0) => return Err(Failed),
            Ok(count) => rest = &rest[count..],
            Err(_) => return Err(Failed),
        }
    }
    match writer.flush() {
        Ok(()) => Ok(()),
        Err(_) => Err(Failed),
    }
}
