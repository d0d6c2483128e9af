//! What the words of a command line ask for.
ghost use Rattle.std.specs.Prelude.{◌≡◌, ℕ, map, string_bytes};
ghost use Rattle.std.specs.Option.{option_map};
ghost use Rattle.rp_reports.specs.Output.{Task as ModelTask, number_between, task_of, task_of_one, task_of_two, task_of_three, with_numbers};
ghost use Rattle.rp_scripts.specs.Task.{meaning_of};

use crate::building::Building;
use crate::number::number_between;

/// What the words of a command line ask for.
#[derive(Clone, Copy, Debug, PartialEq, Eq)]
pub enum Task {
    /// What is done with a script that is read.
    Given(GivenTask),
    /// `check`: a report that is read is checked.
    Check,
    /// What is done with the script of a building, which is made.
    Made(MadeTask, Building),
}

/// What is done with a script that is read.
#[derive(Clone, Copy, Debug, PartialEq, Eq)]
pub enum GivenTask {
    /// `run`: its report is written.
    Run,
    /// `run brief`: its report is written without the proof lines.
    RunBrief,
    /// `script`: its commands are written, each in its one spelling.
    Spell,
    /// `upgrade`: it is written as a script of version 2.
    Upgrade,
}

/// What is done with a script that is made.
#[derive(Clone, Copy, Debug, PartialEq, Eq)]
pub enum MadeTask {
    /// `make N SEED`: it is written.
    Write,
    /// `trial N SEED`: it is run, and what is counted in its report is written.
    Try,
}

/// Returns the task of the words, if they are listed.
pub fn listed_task(words: &[String]) -> Option<Task>
    ensures { option_map meaning_of result ≡ task_of (map string_bytes words.now) }
{
    match words {
        [word] => task_of_one(word.as_str()),
        [word, next] => task_of_two(word.as_str(), next.as_str()),
        [word, storeys, seed] => task_of_three(word.as_str(), storeys.as_str(), seed.as_str()),
        _ => None,
    }
}

/// Returns the task of one word.
fn task_of_one(word: &str) -> Option<Task>
    ensures { option_map meaning_of result ≡ task_of_one word.now }
{
    if word == "run" {
        Some(Task::Given(GivenTask::Run))
    } else if word == "check" {
        Some(Task::Check)
    } else if word == "script" {
        Some(Task::Given(GivenTask::Spell))
    } else if word == "upgrade" {
        Some(Task::Given(GivenTask::Upgrade))
    } else {
        None
    }
}

/// Returns the task of two words.
fn task_of_two(word: &str, next: &str) -> Option<Task>
    ensures { option_map meaning_of result ≡ task_of_two word.now next.now }
{
    if word == "run" && next == "brief" {
        Some(Task::Given(GivenTask::RunBrief))
    } else {
        None
    }
}

/// Returns the task of a word and two numbers.
fn task_of_three(word: &str, storeys: &str, seed: &str) -> Option<Task>
    ensures { option_map meaning_of result
        ≡ task_of_three word.now (number_between 1 1000 storeys.now) (number_between 0 18446744073709551615 seed.now) }
{
    if word == "make" {
        Some(Task::Made(MadeTask::Write, building_of(storeys, seed)?))
    } else if word == "trial" {
        Some(Task::Made(MadeTask::Try, building_of(storeys, seed)?))
    } else {
        None
    }
}

/// Returns the building of two words, if both spell numbers within their bounds.
fn building_of(storeys: &str, seed: &str) -> Option<Building>
    ensures { (task : ℕ → ℕ → ModelTask) → option_map (λ b. task b.storeys b.seed) result
        ≡ with_numbers task (number_between 1 1000 storeys.now) (number_between 0 18446744073709551615 seed.now) }
{
    let storeys = number_between(1, 1000, storeys.as_bytes())?;
    let seed = number_between(0, u64::MAX, seed.as_bytes())?;
    Some(Building {
        storeys: storeys as u32,
        seed,
    })
}
