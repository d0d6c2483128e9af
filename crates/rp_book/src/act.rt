//! When lines were added, by whom and under which deed.
ghost use Rattle.std.specs.Prelude.{◌≡◌, ◌≤◌, length, map, option_map, slice_get, string_bytes, IfOk};
ghost use Rattle.rp_book.specs.Act.{HasActs, act_at, act_of, lines_from, start_at};

use std::alloc::{AllocError, Global};

/// When lines are added, by whom and under which deed, where that is told.
#[derive(Clone, Copy)]
pub struct Entry<'a> {
    pub added: &'a str,
    pub who: Option<&'a str>,
    pub deed: Option<&'a str>,
}

/// Lines that a book keeps, which were added at once: the numbers of the first and the last of them, when they were
/// added, by whom and under which deed, where that was told.
#[derive(Drop)]
pub struct Act {
    pub first: u32,
    pub last: u32,
    /// How many bytes the script has up to and with these lines.
    pub end: usize,
    pub added: String,
    pub who: Option<String>,
    pub deed: Option<String>,
}

/// Returns a text that may not be told, of its own.
fn own(alloc: Global, text: Option<&str>) -> Result<Option<String>, AllocError>
    ensures { IfOk result (λ own. option_map string_bytes own ≡ option_map (λ t. t.now) text.entry) }
{
    match text {
        Some(text) => Ok(Some(String::from_str(alloc, text)?)),
        None => Ok(None),
    }
}

impl Act {
    /// Returns the act of lines from `first` to `last`, at whose end the script has `end` bytes.
    pub fn new(
        alloc: Global,
        first: u32,
        last: u32,
        end: usize,
        entry: Entry<'_>,
    ) -> Result<Act, AllocError>
        ensures { IfOk result (λ act. act_of act ≡ act_at first last end entry.entry) }
    {
        let added = String::from_str(alloc, entry.added)?;
        let who = own(alloc, entry.who)?;
        let deed = own(alloc, entry.deed)?;
        Ok(Act {
            first,
            last,
            end,
            added,
            who,
            deed,
        })
    }
}

/// Returns how many bytes of a script come before the lines of the act at `place` of `acts`, the acts of the script.
pub fn start_of(acts: &[Act], place: usize) -> usize
    requires { place ≤ length acts.now }
    ensures { result ≡ start_at (map act_of acts.now) place }
{
    if place == 0 { 0 } else { acts[place - 1].end }
}

/// Returns the lines of the act at `place` of `acts`, the acts of `script`. Returns `None` if there is no such act, or
/// if an end of an act is not in the script.
pub fn act_lines<'a>(script: &'a [u8], acts: &[Act], place: usize) -> Option<&'a [u8]>
    ensures lines { (h : HasActs script.now (map act_of acts.now)) → option_map (λ lines. lines.now) result ≡ slice_get h.lines place }
    ensures slices { HasActs script.now (map act_of acts.now) → option_map (λ lines. lines.now) result ≡ slice_get (lines_from script.now 0 (map act_of acts.now)) place }
{
    let act = acts.get(place)?;
    script.get(start_of(acts, place)..act.end)
}
