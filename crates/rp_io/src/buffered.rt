//! A sink that buffers bytes, so another sink receives them in large pieces.
ghost use Rattle.std.specs.Prelude.{◌≡◌, ◌≤◌, ◌<◌, ◌++◌, [], vec_len, vec_capacity, IfOk, OnErr, OnOk};
ghost use Rattle.rp_io.specs.Bytes.{Appends, AppendsPrefix};
ghost use Rattle.rp_io.specs.Faults.{HasRisen, last_count, next_count};

use super::failed::Failed;
use super::sink::{Sink, append};
use std::alloc::{AllocError, Global};

/// The most bytes that a [`BufferedSink`] buffers.
const BUFFER_LENGTH: usize = 65_536;

/// A sink that buffers up to 65,536 bytes. It puts them into another sink if a piece does not fit after them, and by
/// [`BufferedSink::finish`].
///
/// A contract sees the bytes of the other sink followed by the buffered ones, until a put to the other sink fails.
/// After that the buffered sink accepts nothing, so the other sink has a prefix of all bytes.
#[derive(Drop)]
pub struct BufferedSink<K> {
    sink: K,
    held: Vec<u8>,
    faults: u64,
    ghost counted: { faults ≤ last_count },
    ghost within: { vec_len held ≤ 65536 },
    ghost room: { 65536 ≤ vec_capacity held },
}

impl<K: Drop> BufferedSink<K> {
    ghost use Rattle.rp_io.specs.Buffered.{buffered_faults, held_bytes, other_sink};

    /// Returns a sink over `sink` with an empty buffer and no fault so far. Its memory is taken here.
    ///
    /// # Errors
    ///
    /// `AllocError` if memory runs out.
    pub fn new(alloc: Global, sink: K) -> Result<BufferedSink<K>, AllocError>
        ensures sink { IfOk result (λ buffered. other_sink buffered ≡ sink) }
        ensures held { IfOk result (λ buffered. held_bytes buffered ≡ []) }
        ensures faults { IfOk result (λ buffered. buffered_faults buffered ≡ 0) }
    {
        let held = Vec::with_capacity(alloc, BUFFER_LENGTH)?;
        Ok(BufferedSink {
            sink,
            held,
            faults: 0,
        })
    }
}

impl<K> BufferedSink<K> {
    /// Counts a fault if `outcome` is an error, and returns `outcome`.
    fn counted(&mut self, outcome: Result<(), Failed>) -> Result<(), Failed>
        ensures outcome { result ≡ outcome }
        ensures sink { self.new.sink ≡ self.old.sink }
        ensures held { self.new.held ≡ self.old.held }
        ensures ok { OnOk result (self.new.faults ≡ self.old.faults) }
        ensures err { OnErr result (self.new.faults ≡ next_count self.old.faults) }
    {
        if outcome.is_err() {
            self.faults = self.faults.saturating_add(1);
        }
        outcome
    }
}

impl<K: Sink> BufferedSink<K> {
    ghost use Rattle.rp_io.specs.Buffered.{buffered_faults, held_bytes, other_sink, with_held};

    /// Puts the buffered bytes into the other sink, if no put to it failed before.
    fn write_held(&mut self) -> Result<(), Failed>
        ensures was_whole { OnOk result (self.old.faults ≡ 0) }
        ensures ok { OnOk result (Appends (K.said self.old.sink) (K.said self.new.sink) self.old.held.items) }
        ensures none_held { OnOk result (self.new.held.items ≡ []) }
        ensures err { OnErr result (AppendsPrefix (K.said self.old.sink) (K.said self.new.sink) self.old.held.items) }
        ensures faults { self.new.faults ≡ self.old.faults }
    {
        if self.faults > 0 {
            return Err(Failed);
        }
        self.sink.put(&self.held)?;
        self.held.clear();
        Ok(())
    }

    /// Buffers `piece`. If it does not fit, the buffered bytes are put into the other sink first; a piece of more than
    /// 65,536 bytes follows them there.
    fn take(&mut self, piece: &[u8]) -> Result<(), Failed>
        ensures was_whole { OnOk result (self.old.faults ≡ 0) }
        ensures ok { OnOk result (Appends (with_held (K.said self.old.sink) self.old.held.items) (with_held (K.said self.new.sink) self.new.held.items) piece.now) }
        ensures err { OnErr result (AppendsPrefix (K.said self.old.sink) (K.said self.new.sink) (self.old.held.items ++ piece.now)) }
        ensures faults { self.new.faults ≡ self.old.faults }
    {
        if self.faults > 0 {
            return Err(Failed);
        }
        if piece.len() > BUFFER_LENGTH - self.held.len() {
            self.write_held()?;
            if piece.len() > BUFFER_LENGTH {
                return self.sink.put(piece);
            }
        }
        append(&mut self.held, piece);
        Ok(())
    }

    /// Puts the buffered bytes into the other sink.
    ///
    /// # Errors
    ///
    /// `Failed` if this put fails, or an earlier put to the other sink did. The other sink then has a prefix of all
    /// bytes.
    pub fn finish(&mut self) -> Result<(), Failed>
        ensures was_whole { OnOk result (buffered_faults self.old ≡ 0) }
        ensures ok { OnOk result (Appends (K.said (other_sink self.old)) (K.said (other_sink self.new)) (held_bytes self.old)) }
        ensures none_held { OnOk result (held_bytes self.new ≡ []) }
        ensures err { OnErr result (AppendsPrefix (K.said (other_sink self.old)) (K.said (other_sink self.new)) (held_bytes self.old)) }
        ensures failed { OnErr result (HasRisen (buffered_faults self.old) (buffered_faults self.new)) }
    {
        let written = self.write_held();
        self.counted(written)
    }
}

impl<K: Sink> Sink for BufferedSink<K> {
    ghost use Rattle.rp_io.specs.Buffered.{buffered_faults, held_bytes, known_bytes, other_sink};

    ghost said = { known_bytes K.said };

    ghost faults = { buffered_faults };

    /// Buffers `piece`. If it does not fit, the buffered bytes are put into the other sink first; a piece of more than
    /// 65,536 bytes follows them there.
    ///
    /// # Errors
    ///
    /// `Failed` if a put to the other sink fails, or an earlier one did.
    fn put(&mut self, piece: &[u8]) -> Result<(), Failed>
        ensures counts { buffered_faults self.old ≤ buffered_faults self.new }
        ensures limit { buffered_faults self.new ≤ last_count }
        ensures failed { OnErr result (HasRisen (buffered_faults self.old) (buffered_faults self.new)) }
        ensures ok { OnOk result (Appends (known_bytes K.said self.old) (known_bytes K.said self.new) piece.now) }
        ensures err { OnErr result (AppendsPrefix (known_bytes K.said self.old) (known_bytes K.said self.new) piece.now) }

        // A failure leaves a prefix of all bytes in the other sink.
        ensures prefix { OnErr result (AppendsPrefix (K.said (other_sink self.old)) (K.said (other_sink self.new)) (held_bytes self.old ++ piece.now)) }
        ensures same { OnOk result (buffered_faults self.new ≡ buffered_faults self.old) }
    {
        let taken = self.take(piece);
        self.counted(taken)
    }
}
