//! The fields of a text, read and written: lines with a name and a number, and texts of any bytes under a name.
ghost use Rattle.std.specs.Prelude.{◌≡◌, ◌<◌, ◌^◌, ◌++◌, ℕ, List, Option, length, option_map, IfSome, IsSomeAnd, IsUtf8, OnOk};
ghost use Rattle.rp_seal_text.specs.Lines.{IsLine};
ghost use Rattle.rp_seal_text.specs.Fields.{IsOptionName, number_line, option_field, text_field};

use crate::lines::next_line;
use crate::read::{read_size, read_text};
use itoa::Buffer;
use std::alloc::AllocError;

/// Returns what follows `prefix` in `text`, or `None` if `text` does not begin with `prefix`.
pub(crate) fn take_prefix<'a>(prefix: &[u8], text: &'a [u8]) -> Option<&'a [u8]>
    ensures found { IfSome result (λ rest. text.now ≡ prefix.now ++ rest.now) }
    ensures each { (rest : List ℕ) → text.now ≡ prefix.now ++ rest → IsSomeAnd result (λ r. r.now ≡ rest) }
{
    text.strip_prefix(prefix)
}

/// Returns the number of the line `name` with which `text` begins, and what follows the line.
pub(crate) fn take_number<'a>(name: &[u8], text: &'a [u8]) -> Option<(u64, &'a [u8])>
    requires { IsLine name.now }
    ensures found { IfSome result (λ p. text.now ≡ number_line name.now p.0 ++ p.1.now) }
    ensures each { (number : ℕ) (rest : List ℕ) → number < 2 ^ 64 → text.now ≡ number_line name.now number ++ rest
        → IsSomeAnd result (λ p. (p.0 ≡ number) × (p.1.now ≡ rest)) }
    ensures fits { IfSome result (λ p. p.0 < 2 ^ 64) }
{
    let (line, rest) = next_line(text)?;
    let spaced = take_prefix(name, line)?;
    let digits = take_prefix(b" ", spaced)?;
    let number = read_size(digits)?;
    Some((number, rest))
}

/// Returns the number of the line `name` with which `text` begins, if the number is below 2^32, and what follows the
/// line.
pub(crate) fn take_u32<'a>(name: &[u8], text: &'a [u8]) -> Option<(u32, &'a [u8])>
    requires { IsLine name.now }
    ensures found { IfSome result (λ p. text.now ≡ number_line name.now p.0 ++ p.1.now) }
    ensures each { (number : ℕ) (rest : List ℕ) → number < 2 ^ 32 → text.now ≡ number_line name.now number ++ rest
        → IsSomeAnd result (λ p. (p.0 ≡ number) × (p.1.now ≡ rest)) }
    ensures fits { IfSome result (λ p. p.0 < 2 ^ 32) }
{
    let (number, rest) = take_number(name, text)?;
    if number > u32::MAX as u64 {
        return None;
    }
    Some((number as u32, rest))
}

/// Returns the text of any bytes with which `text` begins under the name `name`, and what follows it.
pub(crate) fn take_text<'a>(name: &[u8], text: &'a [u8]) -> Option<(&'a [u8], &'a [u8])>
    requires { IsLine name.now }
    ensures found { IfSome result (λ p. text.now ≡ text_field name.now p.0.now ++ p.1.now) }
    ensures each { (field rest : List ℕ) → length field < 2 ^ 64 → text.now ≡ text_field name.now field ++ rest
        → IsSomeAnd result (λ p. (p.0.now ≡ field) × (p.1.now ≡ rest)) }
    ensures room { IfSome result (λ p. length p.0.now < 2 ^ 64) }
{
    let (size, rest) = take_number(name, text)?;
    let (field, ended) = rest.split_at_checked(size as usize)?;
    let rest = take_prefix(b"\n", ended)?;
    Some((field, rest))
}

/// Returns the text in UTF-8 with which `text` begins under the name `name`, and what follows it.
pub(crate) fn take_str<'a>(name: &[u8], text: &'a [u8]) -> Option<(&'a str, &'a [u8])>
    requires { IsLine name.now }
    ensures found { IfSome result (λ p. text.now ≡ text_field name.now p.0.now ++ p.1.now) }
    ensures each { (field rest : List ℕ) → length field < 2 ^ 64 → IsUtf8 field → text.now ≡ text_field name.now field ++ rest
        → IsSomeAnd result (λ p. (p.0.now ≡ field) × (p.1.now ≡ rest)) }
    ensures room { IfSome result (λ p. length p.0.now < 2 ^ 64) }
    ensures utf8 { IfSome result (λ p. IsUtf8 p.0.now) }
{
    let (bytes, rest) = take_text(name, text)?;
    let field = read_text(bytes)?;
    Some((field, rest))
}

/// Returns what follows the line `no NAME` with which `text` begins, where NAME is `name`.
pub(crate) fn take_absence<'a>(name: &[u8], text: &'a [u8]) -> Option<&'a [u8]>
    ensures found { IfSome result (λ rest. text.now ≡ option_field name.now None ++ rest.now) }
    ensures each { (rest : List ℕ) → text.now ≡ option_field name.now None ++ rest → IsSomeAnd result (λ r. r.now ≡ rest) }
{
    let named = take_prefix(b"no ", text)?;
    let ended = take_prefix(name, named)?;
    take_prefix(b"\n", ended)
}

/// Returns the text in UTF-8 with which `text` begins under the name `name`, or `None` in its place if `text` begins
/// with the line `no NAME`; and what follows.
pub(crate) fn take_option<'a>(name: &[u8], text: &'a [u8]) -> Option<(Option<&'a str>, &'a [u8])>
    requires line { IsLine name.now }
    requires apart { IsOptionName name.now }
    ensures found { IfSome result (λ p. text.now ≡ option_field name.now (option_map (λ t. t.now) p.0) ++ p.1.now) }
    ensures each { (field : Option (List ℕ)) (rest : List ℕ) → IfSome field (λ t. length t < 2 ^ 64) → IfSome field IsUtf8
        → text.now ≡ option_field name.now field ++ rest
        → IsSomeAnd result (λ p. (option_map (λ t. t.now) p.0 ≡ field) × (p.1.now ≡ rest)) }
    ensures room { IfSome result (λ p. IfSome (option_map (λ t. t.now) p.0) (λ t. length t < 2 ^ 64)) }
    ensures utf8 { IfSome result (λ p. IfSome (option_map (λ t. t.now) p.0) IsUtf8) }
{
    if let Some(rest) = take_absence(name, text) {
        return Some((None, rest));
    }
    let (field, rest) = take_str(name, text)?;
    Some((Some(field), rest))
}

/// Appends a line with `name` and `number`.
///
/// # Errors
///
/// `AllocError` if there is no memory for the line.
pub(crate) fn write_number(text: &mut Vec<u8>, name: &[u8], number: u64) -> Result<(), AllocError>
    ensures text { OnOk result (text.new.items ≡ text.old.items ++ number_line name.now number) }
    ensures fits { number < 2 ^ 64 }
{
    let mut buffer = Buffer::new();
    text.extend_from_slice(name)?;
    text.push(b' ')?;
    text.extend_from_slice(buffer.format(number).as_bytes())?;
    text.push(b'\n')?;
    Ok(())
}

/// Appends the text `field` under the name `name`.
///
/// # Errors
///
/// `AllocError` if there is no memory for the text.
pub(crate) fn write_text(text: &mut Vec<u8>, name: &[u8], field: &[u8]) -> Result<(), AllocError>
    ensures { OnOk result (text.new.items ≡ text.old.items ++ text_field name.now field.now) }
{
    write_number(text, name, field.len() as u64)?;
    text.extend_from_slice(field)?;
    text.push(b'\n')?;
    Ok(())
}

/// Appends the text `field` under the name `name`, or the line `no NAME` if there is no text.
///
/// # Errors
///
/// `AllocError` if there is no memory for the text.
pub(crate) fn write_option(
    text: &mut Vec<u8>,
    name: &[u8],
    field: Option<&str>,
) -> Result<(), AllocError>
    ensures text { OnOk result (text.new.items ≡ text.old.items ++ option_field name.now (option_map (λ t. t.now) field.entry)) }
    ensures room { IfSome (option_map (λ t. t.now) field.entry) (λ t. length t < 2 ^ 64) }
    ensures utf8 { IfSome (option_map (λ t. t.now) field.entry) IsUtf8 }
{
    match field {
        None => {
            text.extend_from_slice(b"no ")?;
            text.extend_from_slice(name)?;
            text.push(b'\n')?;
            Ok(())
        }
        Some(field) => write_text(text, name, field.as_bytes()),
    }
}
