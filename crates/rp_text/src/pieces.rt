//! Parts of a text, appended to a buffer.
ghost use Rattle.std.specs.Prelude.{[], ◌∷◌};
ghost use Rattle.rp_text.specs.Fronts.{Writes, joined};

use std::alloc::AllocError;

/// Appends `piece` to `out`.
pub(crate) fn append(piece: &[u8], out: &mut Vec<u8>) -> Result<(), AllocError>
    ensures { Writes result out.old.items out.new.items piece.now }
{
    out.extend_from_slice(piece)
}

/// Appends `byte` to `out`.
pub(crate) fn append_byte(byte: u8, out: &mut Vec<u8>) -> Result<(), AllocError>
    ensures { Writes result out.old.items out.new.items (byte ∷ []) }
{
    out.push(byte)?;
    Ok(())
}

/// Appends `pieces` to `out`, one after another.
pub(crate) fn append_all(pieces: &[&[u8]], out: &mut Vec<u8>) -> Result<(), AllocError>
    ensures { Writes result out.old.items out.new.items (joined pieces.now) }
{
    for piece in pieces {
        out.extend_from_slice(piece)?;
    }
    Ok(())
}
