//! Reading a source to its end.
ghost use Rattle.std.specs.Prelude.{◌≡◌, ◌≤◌, length, vec_len, IfErr, IfOk};
ghost use Rattle.rp_io.specs.declared.intake.IntakeFault.TheVariants.{Failed, Memory};
ghost use Rattle.rp_io.specs.Intake.{IsWhole, HasCause};

use super::failed::Failed;
use super::source::Source;
use std::alloc::{AllocError, Global};

/// The most bytes of one read.
const PIECE_LENGTH: usize = 65_536;

/// The reason why a source was not read to its end.
#[derive(Clone, Copy, Debug, PartialEq, Eq)]
pub enum IntakeFault {
    /// A read failed.
    Failed,
    /// The source has more bytes than the limit.
    TooLong,
    /// Memory ran out.
    Memory(AllocError),
}

impl From<Failed> for IntakeFault {
    ghost from_gives = { λ _ e. e ≡ Failed };

    fn from(_failed: Failed) -> Self {
        IntakeFault::Failed
    }
}

impl From<AllocError> for IntakeFault {
    ghost from_gives = { λ d e. e ≡ Memory d };

    fn from(error: AllocError) -> Self {
        IntakeFault::Memory(error)
    }
}

/// Returns a buffer of `length` zero bytes.
fn zeros(alloc: Global, length: usize) -> Result<Vec<u8>, AllocError>
    ensures { IfOk result (λ buffer. vec_len buffer ≡ length) }
{
    vec![in alloc; 0u8; length]
}

/// Reads `source` to its end, in pieces, and returns all its bytes, at most `limit`.
///
/// # Errors
///
/// `Failed` if a read failed. `TooLong` as soon as the source gives a byte past the limit. `Memory` if memory runs out.
pub fn read_whole<S: Source>(
    alloc: Global,
    source: &mut S,
    limit: usize,
) -> Result<Vec<u8>, IntakeFault>
    ensures counts { S.faults source.old ≤ S.faults source.new }
    ensures within { IfOk result (λ whole. length whole.items ≤ limit) }
    ensures whole { IfOk result (λ whole. IsWhole (S.left source.old) (S.left source.new) whole.items) }
    ensures cause { IfErr result (HasCause (S.faults source.old) (S.faults source.new) (S.left source.old) limit) }
{
    let mut whole = Vec::new(alloc);
    let mut piece = zeros(alloc, PIECE_LENGTH)?;
    loop {
        let count = source.read(&mut piece)?;
        if count == 0 {
            return Ok(whole);
        }
        if count > limit - whole.len() {
            return Err(IntakeFault::TooLong);
        }
        whole.extend_from_slice(&piece[..count])?;
    }
}
