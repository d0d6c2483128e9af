//! Tables of words.
ghost use Rattle.std.specs.Prelude.{◌≡◌};
ghost use Rattle.rp_language.specs.Grammar.{looked_up};
ghost use Rattle.rp_command.specs.Tables.{words_in};

/// Returns the value of a word in a table.
pub fn looked_up<T: Copy>(word: &[u8], table: &[(&[u8], T)]) -> Option<T>
    ensures { result ≡ looked_up word.now (words_in table.now) }
{
    for entry in table {
        if word == entry.0 {
            return Some(entry.1);
        }
    }
    None
}
