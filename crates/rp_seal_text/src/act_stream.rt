//! Streams of acts, read.
ghost use Rattle.std.specs.Prelude.{◌≡◌, ◌<◌, ◌^◌, ◌++◌, All, List, flat_map, length, map, IfOk, IfSome, IsSomeAnd};
ghost use Rattle.rp_seal.specs.Act.{ActEntry, entry_of};
ghost use Rattle.rp_seal_text.specs.ActStream.{acts_text};
ghost use Rattle.rp_seal_text.specs.ActText.{IsActText, act_text, end_line};

use crate::acts::{ACTS_MARK, read_act, read_end};
use crate::fields::take_prefix;
use rp_seal::SealedAct;
use std::alloc::{AllocError, Global};

/// Returns the acts of a stream if `text` is what follows the stream's mark, and nothing else.
///
/// # Errors
///
/// `AllocError` if there is no memory for the acts.
fn take_acts(alloc: Global, text: &[u8]) -> Result<Option<Vec<SealedAct<'_>>>, AllocError>
    ensures found { IfOk result (λ found. IfSome found (λ acts. let log = map entry_of acts.items in
        text.now ≡ flat_map act_text log ++ end_line (length log))) }
    ensures each { (log : List ActEntry) → All IsActText log → length log < 2 ^ 64 → text.now ≡ flat_map act_text log ++ end_line (length log)
        → IfOk result (λ found. IsSomeAnd found (λ acts. map entry_of acts.items ≡ log)) }
    ensures valid { IfOk result (λ found. IfSome found (λ acts. All IsActText (map entry_of acts.items))) }
{
    let mut acts = Vec::new(alloc);
    let mut rest = text;
    while let Some((act, more)) = read_act(rest) {
        acts.push(act)?;
        rest = more;
    }
    let Some(count) = read_end(rest) else {
        return Ok(None);
    };
    if count == acts.len() as u64 {
        Ok(Some(acts))
    } else {
        Ok(None)
    }
}

/// Returns the acts of the stream whose text is `text`. `None` unless `text` is the text of a stream of acts, and
/// nothing else.
///
/// # Errors
///
/// `AllocError` if there is no memory for the acts.
pub fn read_acts(alloc: Global, text: &[u8]) -> Result<Option<Vec<SealedAct<'_>>>, AllocError>
    ensures found { IfOk result (λ found. IfSome found (λ acts. text.now ≡ acts_text (map entry_of acts.items))) }
    ensures each { (log : List ActEntry) → All IsActText log → length log < 2 ^ 64 → text.now ≡ acts_text log
        → IfOk result (λ found. IsSomeAnd found (λ acts. map entry_of acts.items ≡ log)) }
    ensures valid { IfOk result (λ found. IfSome found (λ acts. All IsActText (map entry_of acts.items))) }
{
    let Some(rest) = take_prefix(ACTS_MARK, text) else {
        return Ok(None);
    };
    take_acts(alloc, rest)
}
