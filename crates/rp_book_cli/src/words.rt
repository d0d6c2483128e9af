//! The words of the command line.
ghost use Rattle.std.specs.Prelude.{◌≡◌, string_bytes};
ghost use Rattle.std.specs.Char.{is_control};
ghost use Rattle.std.specs.List.{list_any};
ghost use Rattle.std.specs.Str.{chars};

use std::rt::Env;
use std::{env, io};

/// Returns the words behind the program's name.
pub fn words_of(rt: &(impl Env + AllocGlobal)) -> io::Result<Vec<String>> {
    let words = env::args(rt)?.skip(1).collect(rt.alloc())?;
    Ok(words)
}

/// Returns whether a control character, of U+0000 to U+001F or U+007F to U+009F, is in `word`.
fn has_control(word: &str) -> bool
    ensures { result ≡ list_any is_control (chars word.now) }
{
    word.chars().any(|character| character.is_control())
}

/// Returns whether a control character is in one of `words`. A terminal may act on such a character.
pub fn have_control(words: &[String]) -> bool
    ensures { result ≡ list_any (λ word. list_any is_control (chars (string_bytes word))) words.now }
{
    words.iter().any(|word| has_control(word.as_str()))
}
