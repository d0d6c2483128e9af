//! Acts, and the ends of a stream of acts.
ghost use Rattle.std.specs.Prelude.{◌≡◌, ◌<◌, ◌^◌, ◌++◌, ℕ, List, Some, IfSome, IsSomeAnd, OnOk};
ghost use Rattle.rp_seal.specs.Act.{ActEntry, entry_of};
ghost use Rattle.rp_seal_text.specs.ActText.{IsActText, act_text, end_line};

use crate::fields::{
    take_number, take_option, take_str, take_text, take_u32, write_number, write_option, write_text,
};
use rp_seal::SealedAct;
use std::alloc::AllocError;

/// The first line of a stream of acts, with its line end.
pub const ACTS_MARK: &[u8] = b"rpstore acts 1\n";

/// Appends the text of `act`.
///
/// # Errors
///
/// `AllocError` if there is no memory for the text; `text` then has a part of it.
pub fn write_act(text: &mut Vec<u8>, act: &SealedAct<'_>) -> Result<(), AllocError>
    ensures text { OnOk result (text.new.items ≡ text.old.items ++ act_text (entry_of act.now)) }
    // So `read_act` reads the text again.
    ensures valid { OnOk result (IsActText (entry_of act.now)) }
{
    write_number(text, b"act", act.number as u64)?;
    write_number(text, b"first", act.first as u64)?;
    write_number(text, b"last", act.last as u64)?;
    write_text(text, b"added", act.added.as_bytes())?;
    write_option(text, b"who", act.who)?;
    write_option(text, b"deed", act.deed)?;
    write_text(text, b"lines", act.lines)?;
    Ok(())
}

/// Returns the act with whose text `text` begins, and what follows it; `None` if `text` begins with no act.
pub fn read_act(text: &[u8]) -> Option<(SealedAct<'_>, &[u8])>
    ensures found { IfSome result (λ p. text.now ≡ act_text (entry_of p.0) ++ p.1.now) }
    ensures each { (a : ActEntry) (rest : List ℕ) → IsActText a → text.now ≡ act_text a ++ rest
        → IsSomeAnd result (λ p. (entry_of p.0 ≡ a) × (p.1.now ≡ rest)) }
    ensures valid { IfSome result (λ p. IsActText (entry_of p.0)) }
{
    let (number, after_number) = take_u32(b"act", text)?;
    let (first, after_first) = take_u32(b"first", after_number)?;
    let (last, after_last) = take_u32(b"last", after_first)?;
    let (added, after_added) = take_str(b"added", after_last)?;
    let (who, after_who) = take_option(b"who", after_added)?;
    let (deed, after_deed) = take_option(b"deed", after_who)?;
    let (lines, rest) = take_text(b"lines", after_deed)?;
    let act = SealedAct {
        number,
        first,
        last,
        added,
        who,
        deed,
        lines,
    };
    Some((act, rest))
}

/// Appends the last line of a stream of `count` acts.
///
/// # Errors
///
/// `AllocError` if there is no memory for the line; `text` then has a part of it.
pub fn write_end(text: &mut Vec<u8>, count: u64) -> Result<(), AllocError>
    ensures { OnOk result (text.new.items ≡ text.old.items ++ end_line count) }
{
    write_number(text, b"end", count)
}

/// Returns the number of acts if `text` is the last line of a stream of acts and nothing else; `None` otherwise.
pub fn read_end(text: &[u8]) -> Option<u64>
    ensures found { IfSome result (λ count. text.now ≡ end_line count) }
    ensures each { (count : ℕ) → count < 2 ^ 64 → text.now ≡ end_line count → result ≡ Some count }
    ensures fits { IfSome result (λ count. count < 2 ^ 64) }
{
    let (count, rest) = take_number(b"end", text)?;
    if rest.is_empty() { Some(count) } else { None }
}
