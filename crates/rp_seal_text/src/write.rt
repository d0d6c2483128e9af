//! Checkpoints, written.
ghost use Rattle.std.specs.Prelude.{◌≡◌, IfOk, string_bytes};
ghost use Rattle.rp_seal_text.specs.Checkpoint.{IsCheckpoint, fields_of, lines_of};

use crate::checkpoint::Checkpoint;
use base64::engine::general_purpose::STANDARD;
use itoa::Buffer;
use std::alloc::{AllocError, Global};

/// Returns the three lines of a checkpoint: its origin, its size in decimal digits and its root hash in base64.
///
/// # Errors
///
/// `AllocError` if there is no memory for the text.
pub fn checkpoint_text(alloc: Global, checkpoint: &Checkpoint) -> Result<String, AllocError>
    ensures text { IfOk result (λ text. string_bytes text ≡ lines_of (fields_of checkpoint.now)) }
    // So `read_checkpoint` reads the text again.
    ensures valid { IfOk result (λ _. IsCheckpoint (fields_of checkpoint.now)) }
{
    let mut buffer = Buffer::new();
    let mut text = String::from_str(alloc, checkpoint.origin.as_str())?;
    text.push_str("\n")?;
    text.push_str(buffer.format(checkpoint.size))?;
    text.push_str("\n")?;
    STANDARD.encode_string(checkpoint.root.bytes.as_slice(), &mut text)?;
    text.push_str("\n")?;
    Ok(text)
}
