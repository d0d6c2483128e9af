//! The contents of a book in memory.
ghost use Rattle.std.specs.Prelude.{◌≡◌, ◌+◌, ◌≤◌, ◌∷◌, ◌++◌, [], length, IfOk, OnOk, vec_len, vec_capacity};
ghost use Rattle.rp_reports.specs.Output.{most_script_bytes};
ghost use Rattle.rp_book.specs.Act.{HasNumbers, act_at, act_of};
ghost use Rattle.rp_book.specs.Lines.{HasEnd};
ghost use Rattle.rp_disk_book.specs.Kept.{HasRoom, IsKept, contents_of, with_act};

use rp_book::{Act, Entry, line_numbers};
use std::alloc::{AllocError, Global};

/// The most bytes of a script.
pub(crate) const MOST_BYTES: usize = 16_777_216;

/// The script of a book with its acts, and the number of its last line.
#[derive(Drop)]
pub struct Contents {
    pub script: Vec<u8>,
    pub acts: Vec<Act>,
    pub lines: u32,
}

// Appends `piece`, for which there is room, to `bytes`.
fn append(bytes: &mut Vec<u8>, piece: &[u8])
    requires { vec_len bytes.old + length piece.now ≤ vec_capacity bytes.old }
    ensures { bytes.new.items ≡ bytes.old.items ++ piece.now }
{
    bytes.extend_from_slice(piece).unwrap();
}

// Appends `act`, for which there is room, to `acts`.
fn append_act(acts: &mut Vec<Act>, act: Act)
    requires { vec_len acts.old + 1 ≤ vec_capacity acts.old }
    ensures { acts.new.items ≡ acts.old.items ++ act ∷ [] }
{
    acts.push(act).unwrap();
}

impl Contents {
    /// Returns the contents of a book without lines.
    pub fn new(alloc: Global) -> Contents
        ensures kept { IsKept (contents_of result) }
        ensures empty { contents_of result ≡ record { script = []; acts = []; lines = 0 } }
    {
        Contents {
            script: Vec::new(alloc),
            acts: Vec::new(alloc),
            lines: 0,
        }
    }

    /// Returns the number of the next entry.
    pub fn next_number(&self) -> u32
        requires { IsKept (contents_of self.now) }
        ensures { result ≡ length (contents_of self.now).acts + 1 }
    {
        self.acts.len() as u32 + 1
    }

    /// Makes room for an act with its `lines`. The contents stay.
    pub fn reserve(&mut self, lines: &[u8]) -> Result<(), AllocError>
        ensures same { contents_of self.new ≡ contents_of self.old }
        ensures room { OnOk result (HasRoom self.new lines.now) }
    {
        self.script.reserve(lines.len())?;
        self.acts.reserve(1)
    }

    /// Returns the act of `lines` that are to come under `entry`; there is room for both then.
    pub fn prepare(
        &mut self,
        alloc: Global,
        lines: &[u8],
        entry: Entry<'_>,
    ) -> Result<Act, AllocError>
        requires kept { IsKept (contents_of self.old) }
        requires end { HasEnd lines.now }
        requires short { length self.old.script.items + length lines.now ≤ most_script_bytes }
        ensures same { contents_of self.new ≡ contents_of self.old }
        ensures room { OnOk result (HasRoom self.new lines.now) }
        ensures act { IfOk result (λ act. act_of act ≡ act_at act.first act.last act.end entry.entry) }
        ensures numbers { IfOk result (λ act. HasNumbers self.old.script.items lines.now (act_of act)) }
        ensures fits { IfOk result (λ act. act.last ≤ length self.old.script.items + length lines.now) }
    {
        self.reserve(lines)?;
        let (first, last) = line_numbers(&self.script, self.lines, lines);
        let end = self.script.len() + lines.len();
        Act::new(alloc, first, last, end, entry)
    }

    /// Takes `act` with its `lines`, for which there is room.
    pub fn push(&mut self, act: Act, lines: &[u8])
        requires room { HasRoom self.old lines.now }
        ensures { contents_of self.new ≡ with_act (contents_of self.old) (act_of act) lines.now }
    {
        self.lines = act.last;
        append(&mut self.script, lines);
        append_act(&mut self.acts, act);
    }
}
