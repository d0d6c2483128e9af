//! The forms over readers and writers of std, on the slices and vectors of std and on fakes with a
//! fault.

use super::{expect_put, expect_read};
use rp_io::{Failed, StdSink, StdSource};
use std::alloc::{AllocError, Global};
use std::fmt::Debug;
use std::io;
use std::io::{ErrorKind, Read, Write};
use std::test::Fail;

/// The one call of a writer that goes wrong, by its number from 1.
#[derive(Clone, Copy, Debug, PartialEq, Eq)]
pub(super) enum Fault {
    No,
    FailedWrite(u32),
    WriteOfNothing(u32),
    FailedFlush(u32),
}

/// A writer that takes at most so many bytes in a write.
#[derive(Debug, Drop)]
pub(super) struct Paper {
    pub(super) taken: Vec<u8>,
    pub(super) most: usize,
    pub(super) fault: Fault,
    pub(super) writes: u32,
    pub(super) flushes: u32,
}

impl Write for Paper {
    fn write(&mut self, buf: &[u8]) -> io::Result<usize> {
        self.writes = self.writes.saturating_add(1);
        if self.fault == Fault::FailedWrite(self.writes) {
            return Err(io::Error::from(ErrorKind::Interrupted));
        }
        if self.fault == Fault::WriteOfNothing(self.writes) {
            return Ok(0);
        }
        let count = buf.len().min(self.most);
        self.taken.extend_from_slice(&buf[..count])?;
        Ok(count)
    }

    fn flush(&mut self) -> io::Result<()> {
        self.flushes = self.flushes.saturating_add(1);
        if self.fault == Fault::FailedFlush(self.flushes) {
            return Err(io::Error::from(ErrorKind::BrokenPipe));
        }
        Ok(())
    }
}

/// A reader one of whose reads fails, by its number from 1.
#[derive(Debug, Drop)]
struct Tape<'a> {
    left: &'a [u8],
    failed: u32,
    reads: u32,
}

impl Read for Tape<'_> {
    fn read(&mut self, buf: &mut [u8]) -> io::Result<usize> {
        self.reads = self.reads.saturating_add(1);
        if self.reads == self.failed {
            return Err(io::Error::from(ErrorKind::Interrupted));
        }
        self.left.read(buf)
    }
}

// Whether a form shows that so many of its calls failed.
fn shows_faults(alloc: Global, form: &impl Debug, faults: u64) -> Result<bool, AllocError> {
    let shown = format!(in alloc; "{form:?}")?;
    let end = format!(in alloc; ", faults: {faults} }}")?;
    Ok(shown.as_bytes().ends_with(end.as_bytes()))
}

#[test]
fn std_forms_read_and_write(rt: HostRuntime) -> Result<(), Fail> {
    let mut source = StdSource::new(b"abcdefghijklmnopqr".as_slice());
    expect_read(&rt, &mut source, Ok(b"abcdefghijklmnop"));
    expect_read(&rt, &mut source, Ok(b"qr"));
    expect_read(&rt, &mut source, Ok(b""));

    let mut written = Vec::new(rt.alloc());
    let mut sink = StdSink::new(&mut written);
    expect_put(&rt, &mut sink, b"one\n", Ok(()));
    expect_put(&rt, &mut sink, b"", Ok(()));
    expect_put(&rt, &mut sink, b"two\n", Ok(()));
    assert_eq!(rt; written.as_slice(), b"one\ntwo\n".as_slice());

    let mut room = [0u8; 5];
    let mut short = StdSink::new(room.as_mut_slice());
    expect_put(&rt, &mut short, b"abc", Ok(()));
    expect_put(&rt, &mut short, b"def", Err(Failed));
    assert_eq!(rt; room.as_slice(), b"abcde".as_slice());
    Ok(())
}

#[test]
fn std_source_counts_a_failed_read_and_goes_on(rt: HostRuntime) -> Result<(), Fail> {
    let mut tape = Tape {
        left: b"abcdefghijklmnopqr",
        failed: 2,
        reads: 0,
    };
    let mut source = StdSource::new(&mut tape);
    for (want, faults) in [
        (Ok(b"abcdefghijklmnop".as_slice()), 0),
        (Err(Failed), 1),
        (Ok(b"qr".as_slice()), 1),
        (Ok(b"".as_slice()), 1),
    ] {
        expect_read(&rt, &mut source, want);
        assert!(rt; shows_faults(rt.alloc(), &source, faults)?);
    }
    assert_eq!(rt; tape.reads, 4);
    Ok(())
}

#[test]
fn std_sink_flushes_each_put_once_and_counts_each_fault(rt: HostRuntime) -> Result<(), Fail> {
    let pieces = [b"ab".as_slice(), b"", b"cde"];
    for (most, fault, failed, taken, writes, flushes) in [
        (16, Fault::No, 9, b"abcde".as_slice(), 2, 3),
        (1, Fault::No, 9, b"abcde", 5, 3),
        (1, Fault::FailedWrite(2), 0, b"acde", 5, 2),
        (1, Fault::WriteOfNothing(2), 0, b"acde", 5, 2),
        (16, Fault::FailedFlush(1), 0, b"abcde", 2, 3),
        (16, Fault::FailedFlush(2), 1, b"abcde", 2, 3),
    ] {
        let mut paper = Paper {
            taken: Vec::new(rt.alloc()),
            most,
            fault,
            writes: 0,
            flushes: 0,
        };
        let mut sink = StdSink::new(&mut paper);
        for (number, piece) in pieces.iter().enumerate() {
            let want = if number == failed {
                Err(Failed)
            } else {
                Ok(())
            };
            expect_put(&rt, &mut sink, piece, want);
            assert!(rt; shows_faults(rt.alloc(), &sink, u64::from(number >= failed))?);
        }
        assert_eq!(rt; paper.taken.as_slice(), taken, "with {fault:?}");
        assert_eq!(rt;
            (paper.writes, paper.flushes),
            (writes, flushes),
            "with {fault:?}"
        );
    }
    Ok(())
}
