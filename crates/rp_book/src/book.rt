ghost use Rattle.std.specs.Prelude.{◌≡◌, ◌+◌, ◌≤◌, ℕ, length, List, Option, IfErr, IfSome, OnErr, OnOk, map};
ghost use Rattle.rp_io.specs.Bytes.{Appends};
ghost use Rattle.rp_reports.specs.Output.{most_script_bytes};
ghost use Rattle.rp_book.specs.Act.{GainsAct, HasActs, Told, act_of, added_act};
ghost use Rattle.rp_book.specs.Kept.{Recoverable, IsCrashAtomic, RecoversNoOther, RecoversOnly, HasBookCause, MayRecover, Stays};
ghost use Rattle.rp_book.specs.Lines.{HasEnd, IsEnded};

use super::act::{Act, Entry};
use super::fault::BookFault;
use std::alloc::Global;

/// Keeps a script of at most 16,777,216 bytes, to which lines are added.
///
/// A contract sees:
/// - `script` and `acts`: the bytes of the script and its acts, if the book tells them.
/// - `finds`: of a test, that it holds of each script that the next one who opens the book may find, after a crash too.
/// - `has_honest_disk`: what the book assumes of its disk, namely that it has returned what was written.
/// - `faults`: a count of the calls in which the book failed.
pub trait Book {
    ghost script: { Self → Option (List ℕ) };

    ghost acts: { Self → Option (List Told) };

    ghost recoverable: { Self → Recoverable };

    ghost has_honest_disk: { Self → Type 0 };

    ghost faults: { Self → ℕ };

    /// Returns the bytes of the script. Its last line has a line end.
    fn text(&self) -> &[u8]
        ensures bytes { IfSome (script self.now) (λ kept. result.now ≡ kept) }
        ensures end { IsEnded result.now }
        ensures short { length result.now ≤ most_script_bytes };

    /// Returns the acts in the order in which they were added. Their lines, one after the other, are the script.
    fn acts(&self) -> &[Act]
        ensures told { IfSome (acts self.now) (λ kept. map act_of result.now ≡ kept) }
        ensures lines { IfSome (script self.now) (λ kept. HasActs kept (map act_of result.now)) };

    /// Adds `lines`, each with its line end, under `entry`. Where it fails the script is as it was. A crash in the call
    /// leaves all of `lines` or none.
    ///
    /// After `Ok` the next one who opens the book finds the new script and no other. A failure that leaves `faults` as
    /// it was wrote nothing.
    fn add(&mut self, alloc: Global, lines: &[u8], entry: Entry<'_>) -> Result<(), BookFault>
        requires end { HasEnd lines.now }
        requires short { IfSome (script self.old) (λ kept. length kept + length lines.now ≤ most_script_bytes) }
        ensures counts { faults self.old ≤ faults self.new }
        ensures ok { OnOk result (Appends (script self.old) (script self.new) lines.now) }
        ensures err { OnErr result (Stays (script self.old) (script self.new)) }
        ensures gained { OnOk result (IfSome (script self.old) (λ kept. GainsAct (acts self.old) (acts self.new) (added_act kept lines.now entry.entry))) }
        ensures kept { OnErr result (Stays (acts self.old) (acts self.new)) }
        ensures cause { IfErr result (HasBookCause (faults self.old) (faults self.new)) }
        ensures crash { IsCrashAtomic (recoverable self.old) (recoverable self.new) (script self.old) lines.now }
        ensures only { OnOk result (RecoversOnly (recoverable self.new) (script self.new)) }
        ensures found { OnOk result (has_honest_disk self.new → MayRecover (recoverable self.new) (script self.new)) }
        ensures spared { faults self.new ≡ faults self.old → OnErr result (RecoversNoOther (recoverable self.old) (recoverable self.new)) };
}
