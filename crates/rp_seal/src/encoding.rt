//! The bytes of an act: the entry that a seal's tree has for it.
ghost use Rattle.std.specs.Prelude.{◌≡◌, ◌++◌, option_map, IfOk, OnOk};
ghost use Rattle.rp_seal.specs.Act.{IsEncodable, ActEntry, act_bytes, entry_of, text_bytes, option_bytes};

use crate::act::SealedAct;
use std::alloc::{AllocError, Global};

/// Appends the length of `text`, as eight bytes, high byte first, and `text`.
fn write_text(bytes: &mut Vec<u8>, text: &[u8]) -> Result<(), AllocError>
    ensures { OnOk result (bytes.new.items ≡ bytes.old.items ++ text_bytes text.now) }
{
    bytes.extend_from_slice(&(text.len() as u64).to_be_bytes())?;
    bytes.extend_from_slice(text)
}

/// Appends a byte 0, or a byte 1 and `text`.
fn write_option(bytes: &mut Vec<u8>, text: Option<&str>) -> Result<(), AllocError>
    ensures { OnOk result (bytes.new.items ≡ bytes.old.items ++ option_bytes (option_map (λ t. t.now) text.entry)) }
{
    match text {
        None => {
            bytes.push(0)?;
            Ok(())
        }
        Some(text) => {
            bytes.push(1)?;
            write_text(bytes, text.as_bytes())
        }
    }
}

/// Returns the bytes of `act`. No other act has the same bytes ([`encoding_is_injective`]).
///
/// # Errors
///
/// `AllocError` if there is no memory for the bytes.
pub fn encode_act(alloc: Global, act: &SealedAct<'_>) -> Result<Vec<u8>, AllocError>
    ensures bytes { IfOk result (λ bytes. bytes.items ≡ act_bytes (entry_of act.now)) }
    ensures room { IfOk result (λ _. IsEncodable (entry_of act.now)) }
{
    let mut bytes = Vec::from_slice(alloc, &act.number.to_be_bytes())?;
    bytes.extend_from_slice(&act.first.to_be_bytes())?;
    bytes.extend_from_slice(&act.last.to_be_bytes())?;
    write_text(&mut bytes, act.added.as_bytes())?;
    write_option(&mut bytes, act.who)?;
    write_option(&mut bytes, act.deed)?;
    write_text(&mut bytes, act.lines)?;
    Ok(bytes)
}

/// States that two acts with the same bytes are the same act.
pub fn encoding_is_injective()
    ensures { (a b : ActEntry) → IsEncodable a → IsEncodable b → act_bytes a ≡ act_bytes b → a ≡ b }
{}
