//! A sink that holds bytes back from a writer, which fails in some rows.

use super::standard::{Fault, Paper};
use rp_io::{BufferedSink, Sink, StdSink};
use std::alloc::{AllocError, Global};
use std::test::Fail;

/// The length of a short piece: 32 of them are held back at once.
const PIECE_LENGTH: usize = 2_048;

/// Puts 33 short pieces, then one that is longer than what may be held back, and finishes. Returns which of the three
/// succeeded.
fn put_all(alloc: Global, paper: &mut Paper) -> Result<(bool, bool, bool), AllocError> {
    let piece = vec![in alloc; b'p'; PIECE_LENGTH]?;
    let long = vec![in alloc; b'l'; 65_537]?;
    let mut sink = BufferedSink::new(alloc, StdSink::new(paper))?;
    let mut short = true;
    for _ in 0..33 {
        short &= sink.put(&piece).is_ok();
    }
    let long = sink.put(&long).is_ok();
    Ok((short, long, sink.finish().is_ok()))
}

#[test]
fn a_buffered_sink_puts_large_pieces_until_one_fails(rt: HostRuntime) -> Result<(), Fail> {
    let front = 33 * PIECE_LENGTH;
    for (fault, want, writes, taken) in [
        (Fault::No, (true, true, true), 3, front + 65_537),
        (Fault::FailedWrite(1), (false, false, false), 1, 0),
        (
            Fault::FailedWrite(2),
            (true, false, false),
            2,
            32 * PIECE_LENGTH,
        ),
        (Fault::FailedWrite(3), (true, false, false), 3, front),
        (Fault::FailedFlush(2), (true, false, false), 2, front),
        (
            Fault::FailedFlush(4),
            (true, true, false),
            3,
            front + 65_537,
        ),
    ] {
        let mut paper = Paper {
            taken: Vec::new(rt.alloc()),
            most: 1_000_000,
            fault,
            writes: 0,
            flushes: 0,
        };
        assert_eq!(rt; put_all(rt.alloc(), &mut paper)?, want, "with {fault:?}");
        assert_eq!(rt;
            (paper.writes, paper.taken.len()),
            (writes, taken),
            "with {fault:?}"
        );
    }
    Ok(())
}
