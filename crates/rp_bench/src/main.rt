#![tactic(auto)]
//! Runs one search of one cell several times, and prints its result, so that `bench/run` can time a call. The arguments
//! are a search and the number of its runs, as `inside 1000`. Other arguments and other lines end the program with
//! status 1.

mod cell;
mod rounds;
mod search;
mod task;

use anyhow::Result;
use cell::read_cell;
use rounds::{Tally, ask};
use search::Search;
use std::rt::Env;
use std::{env, io};
use task::read_task;

/// Returns the arguments after the program's name.
fn words_of(rt: &(impl Env + AllocGlobal)) -> io::Result<Vec<String>> {
    let words = env::args(rt)?.skip(1).collect(rt.alloc())?;
    Ok(words)
}

/// Prints the result of a search: `inside 4` for four points, `outside 3` or `apart 3` for three terms, or `none`. Then
/// it prints the sum of these numbers over all rounds, as `total 4000`, so that the result of each round is used.
fn print_tally(rt: &impl Print, search: Search, tally: Tally) -> io::Result<()> {
    match tally.last {
        Some(size) => println!(rt; "{} {size}", search.word())?,
        None => rt.println("none")?,
    }
    println!(rt; "total {}", tally.total)
}

fn main(rt: HostRuntime) -> Result<()> {
    let alloc = rt.alloc();
    let task = read_task(&words_of(&rt)?)?;
    let cell = read_cell(alloc, rt.stdin())?;
    print_tally(&rt, task.search, ask(&task, &cell))?;
    Ok(())
}
