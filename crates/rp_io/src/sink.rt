ghost use Rattle.std.specs.Prelude.{◌≡◌, ℕ, ◌+◌, ◌≤◌, ◌<◌, ◌++◌, ◌↔◌, ◌||◌, [], false, nat_lt, if◌then◌else◌, List, length, take, Option, None, Some, IfOk, IsOk, OnErr, OnOk, vec_len, vec_capacity};
ghost use Rattle.rp_io.specs.Bytes.{Appends, AppendsPrefix};
ghost use Rattle.rp_io.specs.Faults.{HasRisen, last_count, next_count};
ghost use Rattle.rp_io.specs.Memory.{MemoryOutput, QuietOutput, entry_of, next_entry, put_count};

use super::failed::Failed;
use std::alloc::{AllocError, Global};
use std::marker::Model;

/// A sink, which takes bytes in order.
///
/// A contract sees `said`, the bytes so far if the sink knows them, and `faults`, the number of puts that failed. The
/// number never falls, and stays at 18446744073709551615. A sink may stop knowing its bytes, and then never knows them
/// again.
pub trait Sink {
    ghost said: { Self → Option (List ℕ) };

    ghost faults: { Self → ℕ };

    /// Appends `piece`.
    ///
    /// # Errors
    ///
    /// `Failed` only if the count of faults rose in this call. A prefix of `piece` was then appended.
    fn put(&mut self, piece: &[u8]) -> Result<(), Failed>
        ensures counts { faults self.old ≤ faults self.new }
        ensures limit { faults self.new ≤ last_count }
        ensures failed { OnErr result (HasRisen (faults self.old) (faults self.new)) }

        ensures ok { OnOk result (Appends (said self.old) (said self.new) piece.now) }
        ensures err { OnErr result (AppendsPrefix (said self.old) (said self.new) piece.now) };
}

/// A sink in memory with room for a number of bytes, some of whose puts fail.
///
/// A contract always sees its bytes.
#[derive(Drop)]
pub struct MemorySink<'a> {
    bytes: Vec<u8>,
    room: usize,
    failing: &'a [(u32, usize)],
    calls: u64,
    faults: u64,
}

impl<'a> Model for MemorySink<'a> {
    ghost Value = { MemoryOutput };

    ghost view = { λ s. record {
      bytes = s.bytes.items;
      room = s.room;
      failing = s.failing.now;
      calls = s.calls;
      faults = s.faults;
    } };

    ghost invariant = { λ s.
        (vec_len s.bytes ≤ s.room) × (s.room ≤ vec_capacity s.bytes) × (s.faults ≤ last_count) };
}

impl<'a> MemorySink<'a> {
    /// Returns a sink with room for `room` bytes, whose memory is taken here. Each entry of `failing` is the number of
    /// a put that fails, counted from 1, and the most bytes that this put appends. Of two entries for one put, the
    /// first counts.
    ///
    /// # Errors
    ///
    /// `AllocError` if memory runs out.
    pub fn new(
        alloc: Global,
        room: usize,
        failing: &'a [(u32, usize)],
    ) -> Result<MemorySink<'a>, AllocError>
        ensures { IfOk result (λ sink. sink ≡ record {
          bytes = [];
          room = room;
          failing = failing.now;
          calls = 0;
          faults = 0;
        }) }
    {
        Ok(MemorySink {
            bytes: Vec::with_capacity(alloc, room)?,
            room,
            failing,
            calls: 0,
            faults: 0,
        })
    }

    /// Returns the bytes so far.
    pub fn bytes(&self) -> &[u8]
        ensures { result.now ≡ self.now.bytes }
    {
        self.bytes.as_slice()
    }
}

impl Sink for MemorySink<'_> {
    ghost said = { λ s. Some s.bytes };

    ghost faults = { λ s. s.faults };

    /// Appends `piece`.
    ///
    /// # Errors
    ///
    /// `Failed` iff the number of this put is in the list of failing puts, or the piece does not fit in the room that
    /// is left. A put in the list appends as many bytes as the least of its entry, the piece's length and the room
    /// left. Any other put that fails appends what fits.
    fn put(&mut self, piece: &[u8]) -> Result<(), Failed>
        ensures counts { self.old.faults ≤ self.new.faults }
        ensures limit { self.new.faults ≤ last_count }
        ensures failed { OnErr result (HasRisen self.old.faults self.new.faults) }
        ensures ok { OnOk result (Appends (Some self.old.bytes) (Some self.new.bytes) piece.now) }
        ensures err { OnErr result (AppendsPrefix (Some self.old.bytes) (Some self.new.bytes) piece.now) }

        // When it succeeds, and what changed.
        ensures succeeds { IsOk result
            ↔ ((next_entry self.old ≡ None) × (length self.old.bytes + length piece.now ≤ self.old.room)) }
        ensures appended { OnOk result (self.new ≡ record self.old {
          bytes = self.old.bytes ++ piece.now;
          calls = next_count self.old.calls;
        }) }
        ensures cut { OnErr result (self.new ≡ record self.old {
          bytes = self.old.bytes ++ take (put_count self.old (length piece.now)) piece.now;
          calls = next_count self.old.calls;
          faults = next_count self.old.faults;
        }) }
    {
        self.calls = self.calls.saturating_add(1);
        let fitting = piece.len().min(self.room - self.bytes.len());
        match entry_of(self.failing, self.calls) {
            None if fitting == piece.len() => {
                append(&mut self.bytes, piece);
                return Ok(());
            }
            None => append(&mut self.bytes, &piece[..fitting]),
            Some(most) => append(&mut self.bytes, &piece[..most.min(fitting)]),
        }
        self.faults = self.faults.saturating_add(1);
        Err(Failed)
    }
}

/// A sink that never fails. It stores as many bytes as it has room for, and whether more came.
///
/// A contract sees its bytes as long as no more came than it has room for. Its count of faults is 0.
#[derive(Drop)]
pub struct QuietSink {
    bytes: Vec<u8>,
    room: usize,
    is_passed: bool,
}

impl Model for QuietSink {
    ghost Value = { QuietOutput };

    ghost view = { λ s. record { bytes = s.bytes.items; room = s.room; is_passed = s.is_passed } };

    ghost invariant = { λ s. (vec_len s.bytes ≤ s.room) × (s.room ≤ vec_capacity s.bytes) };
}

impl QuietSink {
    /// Returns a sink with room for `room` bytes, whose memory is taken here.
    ///
    /// # Errors
    ///
    /// `AllocError` if memory runs out.
    pub fn new(alloc: Global, room: usize) -> Result<QuietSink, AllocError>
        ensures { IfOk result (λ sink. sink ≡ record { bytes = []; room = room; is_passed = false }) }
    {
        Ok(QuietSink {
            bytes: Vec::with_capacity(alloc, room)?,
            room,
            is_passed: false,
        })
    }

    /// Returns the stored bytes: the first that came, as many as there is room for.
    pub fn bytes(&self) -> &[u8]
        ensures { result.now ≡ self.now.bytes }
    {
        self.bytes.as_slice()
    }
}

impl Sink for QuietSink {
    ghost said = { λ s. (if s.is_passed then None else Some s.bytes) };

    ghost faults = { λ _. 0 };

    /// Stores the bytes of `piece` that there is room for.
    fn put(&mut self, piece: &[u8]) -> Result<(), Failed>
        ensures succeeds { IsOk result }
        ensures kept { self.new.bytes ≡ take self.old.room (self.old.bytes ++ piece.now) }
        ensures passed { self.new.is_passed
            ≡ (self.old.is_passed || nat_lt self.old.room (length self.old.bytes + length piece.now)) }
        ensures room { self.new.room ≡ self.old.room }
    {
        let spare = self.room - self.bytes.len();
        if piece.len() > spare {
            self.is_passed = true;
        }
        append(&mut self.bytes, &piece[..piece.len().min(spare)]);
        Ok(())
    }
}

// Returns the value of the first entry for `call`; `None` iff there is none.
fn entry_of(entries: &[(u32, usize)], call: u64) -> Option<usize>
    ensures { result ≡ entry_of call entries.now }
{
    entries
        .iter()
        .find(|entry| u64::from(entry.0) == call)
        .map(|entry| entry.1)
}

// Appends `piece`, for which there is room, to `bytes`.
pub(super) fn append(bytes: &mut Vec<u8>, piece: &[u8])
    requires { vec_len bytes.old + length piece.now ≤ vec_capacity bytes.old }
    ensures items { bytes.new.items ≡ bytes.old.items ++ piece.now }
    ensures len { vec_len bytes.new ≡ vec_len bytes.old + length piece.now }
    ensures capacity { vec_capacity bytes.old ≤ vec_capacity bytes.new }
{
    bytes.extend_from_slice(piece).unwrap();
}
