ghost use Rattle.std.specs.Prelude.{◌≡◌, ℕ, ◌<◌, ◌≤◌, ◌↔◌, ◌++◌, [], List, length, take, drop, min, Option, Some, IfOk, IsErr, IsOk, IsTrue, OnErr, OnOk, Contains};
ghost use Rattle.rp_io.specs.Bytes.{IsAtEnd, Takes};
ghost use Rattle.rp_io.specs.Faults.{HasRisen, last_count, next_count};
ghost use Rattle.rp_io.specs.Memory.{MemoryInput, IsListed, read_count};

use super::failed::Failed;
use std::marker::Model;

/// A source, which gives bytes in order.
///
/// A contract sees `left`, the bytes still to come if the source knows them, and `faults`, the number of reads that
/// failed. The number never falls, and stays at 18446744073709551615.
pub trait Source {
    ghost left: { Self → Option (List ℕ) };

    ghost faults: { Self → ℕ };

    /// Puts the next bytes at the front of `buf` and returns how many they are. `Ok(0)` for a nonempty buffer is the
    /// end of the input.
    ///
    /// # Errors
    ///
    /// `Failed` only if the count of faults rose in this call. The contract then says nothing of the bytes still to
    /// come, nor of those in the buffer. Otherwise the count stays.
    fn read(&mut self, buf: &mut [u8]) -> Result<usize, Failed>
        ensures counts { faults self.old ≤ faults self.new }
        ensures limit { faults self.new ≤ last_count }
        ensures failed { OnErr result (HasRisen (faults self.old) (faults self.new)) }
        ensures same { OnOk result (faults self.new ≡ faults self.old) }

        ensures within { IfOk result (λ n. n ≤ length buf.new) }
        ensures taken { IfOk result (λ n. Takes (left self.old) (left self.new) n buf.new) }
        ensures end { IfOk result (λ n. n ≡ 0 → 0 < length buf.new → IsAtEnd (left self.old)) };
}

/// A source over bytes in memory, some of whose reads fail.
///
/// A contract always sees the bytes still to come.
#[derive(Drop)]
pub struct MemorySource<'a> {
    left: &'a [u8],
    step: usize,
    failing: &'a [u32],
    calls: u64,
    faults: u64,
}

impl<'a> Model for MemorySource<'a> {
    ghost Value = { MemoryInput };

    ghost view = { λ s. record {
      left = s.left.now;
      step = s.step;
      failing = s.failing.now;
      calls = s.calls;
      faults = s.faults;
    } };

    ghost invariant = { λ s. (1 ≤ s.step) × (s.faults ≤ last_count) };
}

impl<'a> MemorySource<'a> {
    /// Returns a source that gives `bytes`, at most `step` of them in a read. The reads whose numbers are in `failing`,
    /// counted from 1, fail.
    pub fn new(bytes: &'a [u8], step: usize, failing: &'a [u32]) -> MemorySource<'a>
        requires { 1 ≤ step }
        ensures { result ≡ record {
          left = bytes.now;
          step = step;
          failing = failing.now;
          calls = 0;
          faults = 0;
        } }
    {
        MemorySource {
            left: bytes,
            step,
            failing,
            calls: 0,
            faults: 0,
        }
    }
}

impl Source for MemorySource<'_> {
    ghost left = { λ s. Some s.left };

    ghost faults = { λ s. s.faults };

    /// Puts the next bytes at the front of `buf` and returns their number: the least of the step, the buffer's length
    /// and the number of bytes left.
    ///
    /// # Errors
    ///
    /// `Failed` iff the number of this read is in the list of failing reads. No byte is then taken.
    fn read(&mut self, buf: &mut [u8]) -> Result<usize, Failed>
        ensures counts { self.old.faults ≤ self.new.faults }
        ensures limit { self.new.faults ≤ last_count }
        ensures failed { OnErr result (HasRisen self.old.faults self.new.faults) }
        ensures same { OnOk result (self.new.faults ≡ self.old.faults) }

        ensures within { IfOk result (λ n. n ≤ length buf.new) }
        ensures taken { IfOk result (λ n. Takes (Some self.old.left) (Some self.new.left) n buf.new) }
        ensures end { IfOk result (λ n. n ≡ 0 → 0 < length buf.new → IsAtEnd (Some self.old.left)) }

        // When it fails, and what changed.
        ensures listed { IsErr result ↔ IsListed self.old }
        ensures err { OnErr result (self.new ≡ record self.old {
          calls = next_count self.old.calls;
          faults = next_count self.old.faults;
        }) }
        ensures untouched { OnErr result (buf.new ≡ buf.old) }
        ensures count { IfOk result (λ n. n ≡ read_count self.old (length buf.old)) }
        ensures given { IfOk result (λ n. buf.new ≡ take n self.old.left ++ drop n buf.old) }
        ensures ok { IfOk result (λ n. self.new ≡ record self.old {
          left = drop n self.old.left;
          calls = next_count self.old.calls;
        }) }
    {
        self.calls = self.calls.saturating_add(1);
        if is_listed(self.failing, self.calls) {
            self.faults = self.faults.saturating_add(1);
            return Err(Failed);
        }
        let left = self.left;
        let count = copy_front(left, self.step, buf);
        self.left = &left[count..];
        Ok(count)
    }
}

/// A source over bytes in memory that never fails. A read gives all bytes that are left, or as many as the buffer has
/// room for.
///
/// A contract sees it as the bytes still to come. Its count of faults is 0.
#[derive(Drop)]
pub struct QuietSource<'a> {
    left: &'a [u8],
}

impl<'a> Model for QuietSource<'a> {
    ghost Value = { List ℕ };

    ghost view = { λ s. s.left.now };
}

impl<'a> QuietSource<'a> {
    /// Returns a source that gives `bytes`.
    pub fn new(bytes: &'a [u8]) -> QuietSource<'a>
        ensures { result ≡ bytes.now }
    {
        QuietSource { left: bytes }
    }
}

impl Source for QuietSource<'_> {
    ghost left = { λ s. Some s };

    ghost faults = { λ _. 0 };

    fn read(&mut self, buf: &mut [u8]) -> Result<usize, Failed>
        ensures ok { IsOk result }
        ensures count { IfOk result (λ n. n ≡ min (length buf.old) (length self.old)) }
        ensures given { IfOk result (λ n. buf.new ≡ take n self.old ++ drop n buf.old) }
        ensures rest { IfOk result (λ n. self.new ≡ drop n self.old) }
    {
        let left = self.left;
        let count = copy_front(left, left.len(), buf);
        self.left = &left[count..];
        Ok(count)
    }
}

// Returns whether the number `call` is in `failing`.
fn is_listed(failing: &[u32], call: u64) -> bool
    ensures { IsTrue result ↔ Contains failing.now call }
{
    failing.iter().any(|listed| u64::from(*listed) == call)
}

// Copies the front of `from` to `to`, at most `most` bytes, and returns their number.
fn copy_front(from: &[u8], most: usize, to: &mut [u8]) -> usize
    ensures count { result ≡ min most (min (length to.old) (length from.now)) }
    ensures copied { to.new ≡ take result from.now ++ drop result to.old }
{
    let count = most.min(to.len()).min(from.len());
    to[..count].copy_from_slice(&from[..count]);
    count
}
