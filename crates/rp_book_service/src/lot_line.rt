//! The line of a report that says when a lot was born and ended.
ghost use Rattle.std.specs.Prelude.{◌≡◌, List, option_map, ℕ};
ghost use Rattle.std.specs.List.{after_first, before_first, position};
ghost use denote.Ref.{Bor};
ghost use Rattle.rp_reports.specs.ProofText.{line_number};
ghost use Rattle.rp_book_service.specs.Children.{after_front, ended_lot, is_space, number_after_born, number_after_ended};
ghost use Rattle.rp_book_service.specs.Events.{born_lot, number_born};

use rp_command::spelled;

/// The greatest number of a line.
const MAX_LINE: i128 = 16_777_216;

/// Returns what comes after `front` in `text`. `None` unless `text` begins with `front`.
fn after_front<'a>(front: &[u8], text: &'a [u8]) -> Option<&'a [u8]>
    ensures { option_map (λ (rest : Bor (List ℕ)). rest.now) result ≡ after_front front.now text.now }
{
    text.strip_prefix(front)
}

/// Returns the place of the first space.
fn space_in(text: &[u8]) -> Option<usize>
    ensures { result ≡ position is_space text.now }
{
    text.iter().position(|byte| *byte == b' ')
}

/// Splits `text` into its first word and what comes after the word's space.
fn split_word(text: &[u8]) -> (&[u8], &[u8])
    ensures word { result.0.now ≡ before_first is_space text.now }
    ensures rest { result.1.now ≡ after_first is_space text.now }
{
    match space_in(text) {
        Some(end) => (&text[..end], &text[end + 1..]),
        None => (text, &[]),
    }
}

/// Returns the number of a line that `word` spells: from 1 to 16,777,216, without a sign or leading zeros.
fn line_number(word: &[u8]) -> Option<u32>
    ensures { result ≡ line_number word.now }
{
    let number = spelled(word)?;
    if 1 <= number && number <= MAX_LINE {
        Some(number as u32)
    } else {
        None
    }
}

/// Returns M if `text` begins with `ended M`.
fn number_after_ended(text: &[u8]) -> Option<u32>
    ensures { result ≡ number_after_ended text.now }
{
    let (word, _) = split_word(after_front(b"ended ", text)?);
    line_number(word)
}

/// Returns M if `text` begins with `born N ended M`.
fn number_after_born(text: &[u8]) -> Option<u32>
    ensures { result ≡ number_after_born text.now }
{
    let (_, text) = split_word(after_front(b"born ", text)?);
    number_after_ended(text)
}

/// Returns the lot that ended by `line`, a line of a report, and the number of the script's line in which it ended.
/// `None` unless `line` begins as `= lot ID born N ended M`.
pub(crate) fn ended_lot(line: &[u8]) -> Option<(&[u8], u32)>
    ensures { option_map (λ (lot : Bor (List ℕ) × ℕ). (lot.0.now, lot.1)) result ≡ ended_lot line.now }
{
    let (id, text) = split_word(after_front(b"= lot ", line)?);
    Some((id, number_after_born(text)?))
}

/// Returns N if `text` begins with `born N`.
fn number_born(text: &[u8]) -> Option<u32>
    ensures { result ≡ number_born text.now }
{
    let (word, _) = split_word(after_front(b"born ", text)?);
    line_number(word)
}

/// Returns the lot of `line`, a line of a report, and the number of the script's line in which it was born. `None`
/// unless `line` begins as `= lot ID born N`.
pub(crate) fn born_lot(line: &[u8]) -> Option<(&[u8], u32)>
    ensures { option_map (λ (lot : Bor (List ℕ) × ℕ). (lot.0.now, lot.1)) result ≡ born_lot line.now }
{
    let (id, text) = split_word(after_front(b"= lot ", line)?);
    Some((id, number_born(text)?))
}
