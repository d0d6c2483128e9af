//! Checkpoints, read.
ghost use Rattle.std.specs.Prelude.{◌≡◌, ◌<◌, ◌^◌, ℕ, List, Some, length, IfOk, IfSome, IsSomeAnd, MatchOption, IsTrue, IsUtf8, decimal};
ghost use Rattle.base64.specs.Engines.{standard};
ghost use Rattle.base64.specs.GeneralPurpose.{IsBytes, encode_of};
ghost use Rattle.rp_seal_text.specs.Checkpoint.{BeginsWith, Fields, fields_of};

use crate::checkpoint::Checkpoint;
use crate::lines::{Lines, first_lines};
use base64::DecodeAllocError;
use base64::engine::general_purpose::STANDARD;
use itoa::Buffer;
use rp_seal::NodeHash;
use std::alloc::{AllocError, Global};
use std::str;

/// Returns `line` as text, if it is UTF-8.
pub(crate) fn read_text(line: &[u8]) -> Option<&str>
    ensures { MatchOption result (¬ IsUtf8 line.now) (λ text. (text.now ≡ line.now) × IsUtf8 line.now) }
{
    str::from_utf8(line).ok()
}

/// Returns the number that `digits` spells in decimal, without leading zeros.
fn read_number(digits: &str) -> Option<u64>
    ensures found { IfSome result (λ number. digits.now ≡ decimal number) }
    ensures each { (number : ℕ) → number < 2 ^ 64 → digits.now ≡ decimal number → result ≡ Some number }
{
    let Ok(number) = digits.parse::<u64>() else {
        return None;
    };
    // `parse` takes a plus and leading zeros too.
    let mut buffer = Buffer::new();
    if buffer.format(number) == digits {
        Some(number)
    } else {
        None
    }
}

/// Returns the number that `line` spells in decimal, without leading zeros.
pub(crate) fn read_size(line: &[u8]) -> Option<u64>
    ensures found { IfSome result (λ size. line.now ≡ decimal size) }
    ensures each { (size : ℕ) → size < 2 ^ 64 → line.now ≡ decimal size → result ≡ Some size }
{
    read_number(read_text(line)?)
}

/// Returns the hash that `line` spells in base64.
pub(crate) fn read_root(alloc: Global, line: &[u8]) -> Result<Option<NodeHash>, AllocError>
    ensures found { IfOk result (λ found. IfSome found (λ root. line.now ≡ encode_of standard root.bytes)) }
    ensures each { (root : List ℕ) → length root ≡ 32 → IsBytes root → line.now ≡ encode_of standard root
        → IfOk result (λ found. IsSomeAnd found (λ h. h.bytes ≡ root)) }
{
    match STANDARD.decode(alloc, line) {
        Ok(bytes) => match <[u8; 32]>::try_from(bytes.as_slice()) {
            Ok(bytes) => Ok(Some(NodeHash { bytes })),
            Err(_) => Ok(None),
        },
        Err(DecodeAllocError::OutOfMemory) => Err(AllocError),
        Err(DecodeAllocError::DecodeError(_)) => Ok(None),
    }
}

/// Returns the checkpoint with whose lines `text` begins, or `None` if `text` begins with no checkpoint. What follows
/// the third line is not read: extension lines, an empty line, signatures.
///
/// # Errors
///
/// `AllocError` if there is no memory for the checkpoint.
pub fn read_checkpoint(alloc: Global, text: &[u8]) -> Result<Option<Checkpoint>, AllocError>
    ensures found { IfOk result (λ found. IfSome found (λ c. BeginsWith text.now (fields_of c))) }
    ensures each { (f : Fields) → BeginsWith text.now f → IfOk result (λ found. IsSomeAnd found (λ c. fields_of c ≡ f)) }
{
    let Some(Lines { origin, size, root }) = first_lines(text) else {
        return Ok(None);
    };
    let Some(origin) = read_text(origin) else {
        return Ok(None);
    };
    let Some(size) = read_size(size) else {
        return Ok(None);
    };
    let Some(root) = read_root(alloc, root)? else {
        return Ok(None);
    };
    let origin = String::from_str(alloc, origin)?;
    Ok(Checkpoint::new(origin, size, root))
}
