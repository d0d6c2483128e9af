//! Answers, as they are written.
ghost use Rattle.std.specs.Prelude.{None};

use rp_io::{Failed, Sink};
use std::marker::Model;

/// Passes on the lines that it is given. If it is brief, it leaves the proof lines out: the lines that begin with a
/// space.
#[derive(Drop)]
pub struct AnswerSink<K: Sink> {
    sink: K,
    brief: bool,
    /// The next byte begins a line.
    begins: bool,
    /// The bytes of the present line are left out.
    skips: bool,
    faults: u64,
}

impl<K: Sink> AnswerSink<K> {
    /// Returns what passes lines on to `sink`, without the proof lines if `brief`.
    pub fn new(sink: K, brief: bool) -> AnswerSink<K> {
        AnswerSink {
            sink,
            brief,
            begins: true,
            skips: false,
            faults: 0,
        }
    }

    /// Passes on a line or a part of one, unless it is left out.
    fn put_part(&mut self, part: &[u8]) -> Result<(), Failed> {
        if self.begins {
            self.skips = self.brief && matches!(part, [b' ', ..]);
        }
        self.begins = matches!(part, [.., b'\n']);
        if self.skips {
            return Ok(());
        }
        self.sink.put(part)
    }

    /// Passes on the lines of `piece` that are not left out.
    fn put_parts(&mut self, piece: &[u8]) -> Result<(), Failed> {
        for part in piece.split_inclusive(|byte| *byte == b'\n') {
            self.put_part(part)?;
        }
        Ok(())
    }
}

impl<K: Sink> Sink for AnswerSink<K> {
    ghost said = { λ _. None };

    ghost faults = { λ s. s.faults };

    /// Fails if a put to the other sink does.
    fn put(&mut self, piece: &[u8]) -> Result<(), Failed> {
        let faults = self.faults;
        if self.put_parts(piece).is_err() {
            self.faults = faults.saturating_add(1);
            return Err(Failed);
        }
        self.faults = faults;
        Ok(())
    }
}
