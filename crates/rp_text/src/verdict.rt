//! The text of verdict lines.
ghost use Rattle.std.specs.Prelude.{◌≡◌, ◌∷◌, ◌++◌, decimal};
ghost use Rattle.rp_command.specs.Views.{fault_of};
ghost use Rattle.rp_language.specs.Grammar.{space};
ghost use Rattle.rp_reports.specs.Text.{fault_word, refusal_text, verdict_text};
ghost use Rattle.rp_model.specs.commands.Verdict.{children_overlap};
ghost use Rattle.rp_text.specs.Fronts.{Writes};
ghost use Rattle.rp_text.specs.Operands.{operands_text};
ghost use Rattle.rp_answer.specs.Views.{refusal_of, verdict_of};

use crate::items::{WriteText, write_item, write_items, write_operand};
use crate::numbers::write_spaced;
use crate::pieces::append;
use rp_answer::{Refusal, Verdict};
use rp_command::Why;
use rp_lists::Name;
use std::alloc::AllocError;

/// Returns the word of a fault of a line.
fn fault_word(why: Why) -> &'static [u8]
    ensures { result.now ≡ fault_word (fault_of why) }
{
    match why {
        Why::Syntax => b"syntax",
        Why::Range => b"range",
        Why::Zero => b"zero",
        Why::Nodes => b"nodes",
        Why::Long => b"long",
    }
}

/// Appends that the children with the numbers `first` and `second` share a point.
fn write_children(first: u32, second: u32, out: &mut Vec<u8>) -> Result<(), AllocError>
    ensures { Writes result out.old.items out.new.items (refusal_text (children_overlap first second)) }
{
    append(b"childrenoverlap ", out)?;
    write_spaced(&first, &[second], out)
}

impl WriteText for Refusal {
    ghost text = { λ r. refusal_text (refusal_of r) };

    fn write_text(&self, out: &mut Vec<u8>) -> Result<(), AllocError> {
        match self {
            Refusal::Bad(why) => append(fault_word(*why), out),
            Refusal::Unknown(name) => write_operand(b"unknown", name, out),
            Refusal::Known(name) => write_operand(b"known", name, out),
            Refusal::Repeated(name) => write_operand(b"repeated", name, out),
            Refusal::Layers(name) => write_operand(b"layers", name, out),
            Refusal::Same => append(b"same", out),
            Refusal::Few => append(b"few", out),
            Refusal::Empty => append(b"empty", out),
            Refusal::Limit => append(b"limit", out),
            Refusal::Overlaps(name) => write_operand(b"overlaps", name, out),
            Refusal::EmptySide(k) => write_operand(b"emptyside", &(*k as u32), out),
            Refusal::EmptyChild(k) => write_operand(b"emptychild", k, out),
            Refusal::Outside(k) => write_operand(b"outside", k, out),
            Refusal::ChildrenOverlap(m, n) => write_children(*m, *n, out),
            Refusal::Gap => append(b"gap", out),
            Refusal::EmptyRegion(k) => write_operand(b"emptyregion", &(*k as u32), out),
        }
    }
}

/// Returns the sign and the word that begin the line of `verdict`; only the sign if the operands begin with a word.
fn verdict_word(verdict: &Verdict) -> &'static [u8]
    ensures { verdict_text (verdict_of verdict.now) ≡ result.now ++ operands_text (verdict_of verdict.now) }
{
    match verdict {
        Verdict::Yes => b"= yes",
        Verdict::No => b"= no",
        Verdict::Ok => b"= ok",
        Verdict::DC => b"= DC",
        Verdict::EC => b"= EC",
        Verdict::PO => b"= PO",
        Verdict::EQ => b"= EQ",
        Verdict::TPP => b"= TPP",
        Verdict::NTPP => b"= NTPP",
        Verdict::TPPi => b"= TPPi",
        Verdict::NTPPi => b"= NTPPi",
        Verdict::Pieces(_) => b"= pieces",
        Verdict::Piece(_) => b"= piece",
        Verdict::Parts(_) => b"= parts",
        Verdict::Part(_) => b"= part",
        Verdict::Parcel(_) => b"= parcel",
        Verdict::Nobody => b"= nobody",
        Verdict::Neighbours(_) => b"= neighbours",
        Verdict::Clear(_) => b"= clear",
        Verdict::Parcels(_) => b"= parcels",
        Verdict::Lots(_) => b"= lots",
        Verdict::Lot(_) => b"=",
        Verdict::Sections(_) => b"= sections",
        Verdict::Slice(_) => b"=",
        Verdict::Access(_) => b"= access",
        Verdict::NoAccess => b"= noaccess",
        Verdict::Level(_, _) => b"= level",
        Verdict::Refused(_) => b"= refused",
    }
}

/// Appends ` `, the number of steps to a parcel, another ` ` and the parcel's name.
fn write_level(steps: u32, name: &Name, out: &mut Vec<u8>) -> Result<(), AllocError>
    ensures { Writes result out.old.items out.new.items ((space ∷ decimal steps) ++ space ∷ name.now) }
{
    write_item(&steps, out)?;
    write_item(name, out)
}

/// Appends the operands of `verdict` to `out`, each after a space.
fn write_verdict_operands(verdict: &Verdict, out: &mut Vec<u8>) -> Result<(), AllocError>
    ensures { Writes result out.old.items out.new.items (operands_text (verdict_of verdict.now)) }
{
    match verdict {
        Verdict::Yes
        | Verdict::No
        | Verdict::Ok
        | Verdict::DC
        | Verdict::EC
        | Verdict::PO
        | Verdict::EQ
        | Verdict::TPP
        | Verdict::NTPP
        | Verdict::TPPi
        | Verdict::NTPPi
        | Verdict::Nobody
        | Verdict::NoAccess => Ok(()),
        Verdict::Pieces(count)
        | Verdict::Parts(count)
        | Verdict::Neighbours(count)
        | Verdict::Clear(count)
        | Verdict::Parcels(count)
        | Verdict::Lots(count)
        | Verdict::Sections(count)
        | Verdict::Access(count) => write_item(count, out),
        Verdict::Piece(numbers) => write_items(numbers.items(), out),
        Verdict::Part(halves) => write_items(halves.items(), out),
        Verdict::Parcel(name) => write_item(name, out),
        Verdict::Lot(lot) => write_item(lot, out),
        Verdict::Slice(slice) => write_item(&**slice, out),
        Verdict::Level(steps, name) => write_level(*steps, name, out),
        Verdict::Refused(refusal) => write_item(refusal, out),
    }
}

impl WriteText for Verdict {
    ghost text = { λ v. verdict_text (verdict_of v) };

    fn write_text(&self, out: &mut Vec<u8>) -> Result<(), AllocError> {
        append(verdict_word(self), out)?;
        write_verdict_operands(self, out)
    }
}

/// Appends the line of `verdict` to `out`, without a line end.
///
/// # Errors
///
/// `AllocError` if memory runs out. `out` then has what it had, and a prefix of the text.
pub fn write_verdict(verdict: &Verdict, out: &mut Vec<u8>) -> Result<(), AllocError>
    ensures { Writes result out.old.items out.new.items (verdict_text (verdict_of verdict.now)) }
{
    verdict.write_text(out)
}
