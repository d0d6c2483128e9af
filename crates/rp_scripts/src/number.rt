//! The numbers of a command line.
ghost use Rattle.std.specs.Prelude.{◌≡◌, ◌≤◌, IfSome};
ghost use Rattle.rp_reports.specs.Output.{number_between};

use rp_command::spelled;

/// Returns the number that `word`, a word of a command line, spells as in a script, where it is from `least` to
/// `greatest`; else `None`.
pub fn number_between(least: u64, greatest: u64, word: &[u8]) -> Option<u64>
    ensures value { result ≡ number_between least greatest word.now }
    ensures within { IfSome result (λ n. (least ≤ n) × (n ≤ greatest)) }
{
    let number = spelled(word)?;
    if i128::from(least) <= number && number <= i128::from(greatest) {
        Some(number as u64)
    } else {
        None
    }
}
