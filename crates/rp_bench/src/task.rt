//! The arguments of the command line.
ghost use Rattle.std.specs.Prelude.{◌<◌, IfOk};

use crate::search::Search;
use anyhow::{Context, Result, bail, ensure};

/// The request of the arguments.
#[derive(Clone, Copy, Debug, PartialEq, Eq)]
pub struct Task {
    /// The search.
    pub search: Search,
    /// The number of its runs.
    pub times: u32,
}

/// Returns the number of runs in `word`, from 1 to 4294967295.
///
/// # Errors
///
/// An error if `word` is not a number from 1 to 4294967295.
fn read_times(word: &str) -> Result<u32>
    ensures { IfOk result (λ times. 0 < times) }
{
    let times = word
        .parse::<u32>()
        .context(format_args!("how often: {word}"))?;
    ensure!(times != 0, "how often: at least once");
    Ok(times)
}

/// Returns the task of `words`, the arguments after the program's name: a search and the number of its runs.
///
/// # Errors
///
/// An error if there are other arguments.
pub fn read_task(words: &[String]) -> Result<Task>
    ensures { IfOk result (λ task. 0 < task.times) }
{
    let [search, times] = words else {
        bail!("two words are wanted: decide, inside, along, outside or apart, and how often")
    };
    let Some(search) = Search::of_word(search) else {
        bail!("not a search: {search}; there are decide, inside, along, outside and apart")
    };
    let times = read_times(times)?;
    Ok(Task { search, times })
}
