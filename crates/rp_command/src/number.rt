//! Numbers as words spell them.
ghost use Rattle.std.specs.Prelude.{◌≡◌, ◌≤◌, length, option_map};
ghost use Rattle.std.specs.List.{list_all};
ghost use Rattle.std.specs.Char.{is_ascii_digit};
ghost use Rattle.rp_command.specs.Held.{held, held_size};
ghost use Rattle.rp_command.specs.Versions.{version_of};
ghost use Rattle.rp_language.specs.Grammar.{coordinate_spelled, fraction_spelled, natural_spelled, number_spelled, size_spelled, starts_above_zero, thousandths_spelled, value_of_digits};

use crate::version::Version;

/// Numbers of a greater size are capped at this one, which exceeds the bound of every place.
const HELD: u128 = 1329227995784915872903807060280344576;

/// The most bytes that [`short_value_of`] reads; whatever they are, the result has at most 64 bits.
const SHORT: usize = 17;

/// Returns the number that at most 17 digits stand for.
fn short_value_of(digits: &[u8]) -> u64
    requires { length digits.now ≤ 17 }
    ensures { result ≡ value_of_digits digits.now }
{
    let mut value = 0;
    for digit in digits {
        value = 10 * value + u64::from(digit.saturating_sub(b'0'));
    }
    value
}

/// Returns the number that `digits` stand for, capped at 2^120; in 64 bits if they are few, as in reports.
fn value_of(digits: &[u8]) -> u128
    ensures { result ≡ held_size (value_of_digits digits.now) }
{
    if digits.len() <= SHORT {
        return u128::from(short_value_of(digits));
    }
    let mut value = 0;
    for digit in digits {
        value = (10 * value + u128::from(digit.saturating_sub(b'0'))).min(HELD);
    }
    value
}

/// Returns whether all of `bytes` are digits.
fn are_digits(bytes: &[u8]) -> bool
    ensures { result ≡ list_all is_ascii_digit bytes.now }
{
    bytes.iter().all(|byte| byte.is_ascii_digit())
}

/// Returns whether all bytes are digits, there is one, and the first is not 0.
fn starts_above_zero(digits: &[u8]) -> bool
    ensures { result ≡ starts_above_zero digits.now }
{
    match digits {
        [] => false,
        [first, ..] => *first != b'0' && are_digits(digits),
    }
}

/// Returns the natural number that `word` spells, capped at 2^120: 0, or digits of which the first is not 0.
fn natural(word: &[u8]) -> Option<u128>
    ensures { result ≡ option_map held_size (natural_spelled word.now) }
{
    if word == b"0".as_slice() || starts_above_zero(word) {
        Some(value_of(word))
    } else {
        None
    }
}

/// Returns the number that `tail` spells: a point and three digits.
fn fraction(tail: &[u8]) -> Option<u128>
    ensures { result ≡ option_map held_size (fraction_spelled tail.now) }
{
    match tail {
        [b'.', digits @ ..] => {
            if digits.len() == 3 && are_digits(digits) {
                Some(value_of(digits))
            } else {
                None
            }
        }
        _ => None,
    }
}

/// Returns the thousandths that `word` spells, capped at 2^120: a natural number, a point and three digits.
fn thousandths(word: &[u8]) -> Option<u128>
    ensures { result ≡ option_map held_size (thousandths_spelled word.now) }
{
    let front = word.len().saturating_sub(4);
    let units = natural(&word[..front])?;
    let rest = fraction(&word[front..])?;
    Some((units.saturating_mul(1000).saturating_add(rest)).min(HELD))
}

/// Returns the size of a coordinate that `word`, which has no sign, spells in `version`, capped at 2^120.
fn size(version: Version, word: &[u8]) -> Option<u128>
    ensures { result ≡ option_map held_size (size_spelled (version_of version) word.now) }
{
    match version {
        Version::One => natural(word),
        Version::Two => thousandths(word),
    }
}

/// Returns the coordinate that `word` spells in `version`: a size, or a minus sign and a size above 0. Sizes are capped
/// at 2^120. `None` iff the word spells no coordinate.
pub fn coordinate(version: Version, word: &[u8]) -> Option<i128>
    ensures { result ≡ option_map held (coordinate_spelled (version_of version) word.now) }
{
    match word {
        [] => None,
        [b'-', digits @ ..] => match size(version, digits) {
            Some(n) if n > 0 => Some(-(n as i128)),
            _ => None,
        },
        _ => match size(version, word) {
            Some(n) => Some(n as i128),
            None => None,
        },
    }
}

/// Returns the whole number that `word` spells: 0, or an optional minus sign and digits of which the first is not 0.
/// Its size is capped at 2^120. `None` iff the word spells no number.
pub fn spelled(word: &[u8]) -> Option<i128>
    ensures { result ≡ option_map held (number_spelled word.now) }
{
    coordinate(Version::One, word)
}
