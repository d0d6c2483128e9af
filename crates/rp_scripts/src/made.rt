//! The script of a building, line by line: each storey is registered, cut in two and asked for neighbours, and behind
//! the last one stand an audit and a list.
ghost use Rattle.std.specs.Prelude.{◌≡◌, ◌∷◌, ◌++◌, [], ◌+◌, OnOk, IfNone, IfSome};
ghost use Rattle.rp_reports.specs.Made.{drawn, made_script, next_seed};
ghost use Rattle.rp_scripts.specs.declared.made.MadeLine.TheVariants.{Cut, Neighbours, Register};
ghost use Rattle.rp_scripts.specs.Made.{made_line};

use crate::building::Building;
use crate::text::append_number;
use std::alloc::AllocError;
use std::marker::Model;

/// How high a storey is.
const HEIGHT: u64 = 3000;

/// A line of the script of a building.
#[derive(Clone, Copy)]
pub enum MadeLine {
    /// The storey with the number, from 0, is registered.
    Register(u32),
    /// The storey is cut by a plane through the middle of its floor. Two numbers of the plane's half-space follow.
    Cut(u32, u32, u32),
    /// The neighbours of the first part of the storey are asked for.
    Neighbours(u32),
    /// All lots are shown to be apart.
    Audit,
    /// The live lots are listed.
    Lots,
}

/// Which line was told last.
#[derive(Clone, Copy)]
pub enum Stage {
    /// The last one of a storey, or none.
    Between,
    /// The first one of a storey.
    Registered,
    /// The second one of a storey.
    Divided,
    /// The one behind all storeys.
    Audited,
    /// The last one of all.
    Listed,
}

/// The script of a building. A contract sees the lines that are still to come.
#[derive(Drop)]
pub struct MadeScript {
    stage: Stage,
    storey: u32,
    to_come: u32,
    seed: u64,
}

impl Model for MadeScript {
    ghost use Rattle.std.specs.Prelude.{ℕ, ◌+◌, ◌<◌, ◌^◌, List};
    ghost use Rattle.rp_scripts.specs.Made.{begun, lines_to_come};

    ghost Value = { List (List ℕ) };

    ghost view = { λ s. lines_to_come s.stage s.storey s.to_come s.seed };

    ghost invariant = { λ s. s.storey + begun s.stage + s.to_come < 2 ^ 32 };
}

/// Returns the state of the numbers after a draw.
fn next_seed(seed: u64) -> u64
    ensures { result ≡ next_seed seed }
{
    seed.wrapping_mul(6364136223846793005).wrapping_add(1)
}

/// Returns a number from 1 to 9 that a state draws.
fn drawn_slope(seed: u64) -> u32
    ensures { result ≡ drawn seed 9 + 1 }
{
    ((seed >> 33) % 9) as u32 + 1
}

impl MadeScript {
    /// Returns the whole script of a building.
    pub fn new(building: Building) -> MadeScript
        ensures { result ≡ made_script building.storeys building.seed }
    {
        MadeScript {
            stage: Stage::Between,
            storey: 0,
            to_come: building.storeys,
            seed: building.seed,
        }
    }

    /// Returns the next line, or `None` where none is left.
    pub fn next_line(&mut self) -> Option<MadeLine>
        ensures end { IfNone result (self.old ≡ []) }
        ensures next { IfSome result (λ line. self.old ≡ made_line line ∷ self.new) }
    {
        match self.stage {
            Stage::Between if self.to_come == 0 => {
                self.stage = Stage::Audited;
                Some(MadeLine::Audit)
            }
            Stage::Between => {
                self.stage = Stage::Registered;
                self.to_come -= 1;
                Some(MadeLine::Register(self.storey))
            }
            Stage::Registered => {
                let first = next_seed(self.seed);
                let second = next_seed(first);
                self.stage = Stage::Divided;
                self.seed = second;
                Some(MadeLine::Cut(self.storey, drawn_slope(first), drawn_slope(second)))
            }
            Stage::Divided => {
                let storey = self.storey;
                self.stage = Stage::Between;
                self.storey += 1;
                Some(MadeLine::Neighbours(storey))
            }
            Stage::Audited => {
                self.stage = Stage::Listed;
                Some(MadeLine::Lots)
            }
            Stage::Listed => None,
        }
    }
}

/// Appends the line that registers a storey.
fn write_register(storey: u32, text: &mut Vec<u8>) -> Result<(), AllocError>
    ensures { OnOk result (text.new.items ≡ text.old.items ++ made_line (Register storey)) }
{
    let number = u64::from(storey);
    append_number(b"register s", storey, text)?;
    append_number(b" box 0 0 ", HEIGHT * number, text)?;
    append_number(b" 60000 40000 ", HEIGHT * (number + 1), text)
}

/// Appends the line that cuts a storey.
fn write_cut(storey: u32, a: u32, b: u32, text: &mut Vec<u8>) -> Result<(), AllocError>
    ensures { OnOk result (text.new.items ≡ text.old.items ++ made_line (Cut storey a b)) }
{
    let offset = 30_000 * u64::from(a) + 20_000 * u64::from(b);
    append_number(b"cut s", storey, text)?;
    append_number(b" half ", a, text)?;
    append_number(b" ", b, text)?;
    append_number(b" 0 -", offset, text)?;
    append_number(b" s", storey, text)?;
    append_number(b"a s", storey, text)?;
    text.extend_from_slice(b"b")
}

/// Appends the line that asks for the neighbours of the first part of a storey.
fn write_neighbours(storey: u32, text: &mut Vec<u8>) -> Result<(), AllocError>
    ensures { OnOk result (text.new.items ≡ text.old.items ++ made_line (Neighbours storey)) }
{
    append_number(b"neighbours s", storey, text)?;
    text.extend_from_slice(b"a")
}

impl MadeLine {
    /// Appends the line to `text`, without an ending.
    pub fn write(&self, text: &mut Vec<u8>) -> Result<(), AllocError>
        ensures { OnOk result (text.new.items ≡ text.old.items ++ made_line self.now) }
    {
        match *self {
            MadeLine::Register(storey) => write_register(storey, text),
            MadeLine::Cut(storey, a, b) => write_cut(storey, a, b, text),
            MadeLine::Neighbours(storey) => write_neighbours(storey, text),
            MadeLine::Audit => text.extend_from_slice(b"audit"),
            MadeLine::Lots => text.extend_from_slice(b"list"),
        }
    }
}
