#![tactic(auto)]
//! The program that keeps a book in an SQLite file: the words after its name are the file and what is to be done. Two
//! words need no book: they check proofs by seals.
//!
//! Lines come from standard input, answers go to standard output. Where nothing was done one line on standard error
//! says why.

mod act;
mod answers;
mod check;
mod copies;
mod copy;
mod date;
mod fault;
mod file;
mod input;
mod layers;
mod limits;
mod lines;
mod path;
mod queries;
mod questions;
mod seal_fault;
mod seal_text;
mod seals;
mod size;
mod standby;
mod version;
mod words;
mod work;

use check::{check_of, write_checked};
use fault::{Fault, status_of};
use std::process::ExitCode;
use std::thread::Threads;
use words::{have_control, words_of};
use work::work;

/// Does what the words of the command line ask for; lots are judged by `threads`. Returns whether a line is refused.
fn outcome_of<T: Threads + Sync>(rt: &HostRuntime, threads: &T) -> Result<bool, Fault> {
    let Ok(words) = words_of(rt) else {
        return Err(Fault::Words);
    };
    if have_control(&words) {
        return Err(Fault::Words);
    }
    if let Some(check) = check_of(&words) {
        write_checked(rt, check)?;
        return Ok(false);
    }
    work(rt, threads, &words)
}

fn main(rt: HostRuntime) -> ExitCode {
    match outcome_of(&rt, &rt) {
        Ok(refused) => ExitCode::from(u8::from(refused)),
        Err(fault) => {
            let _ = eprintln!(rt; "rpstore-book: {fault}");
            ExitCode::from(status_of(fault))
        }
    }
}
