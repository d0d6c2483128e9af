#![tactic(auto)]
//! The program: reads standard input, writes standard output, and ends with the status of the tool.
//!
//! The words behind the program's name say what it does. On a status from 2 to 7 one line on standard error says what
//! happened.

use rp_io::{BufferedSink, StdSink, StdSource};
use rp_tool::status::{OUT_OF_MEMORY, PUT_FAILED, READ_FAILED, TOO_LONG, UNLISTED};
use rp_tool::tool;
use std::process::ExitCode;
use std::rt::Env;
use std::thread::Threads;
use std::{env, io};

/// The words could not be read for another cause than want of memory, as where one is not UTF-8. The tool never
/// answers this.
const UNREADABLE_WORDS: u8 = 7;

/// Returns the words behind the program's name.
fn words_of(rt: &(impl Env + AllocGlobal)) -> io::Result<Vec<String>> {
    let words = env::args(rt)?.skip(1).collect(rt.alloc())?;
    Ok(words)
}

/// Returns the status where the words could not be read.
fn status_of_error(error: &io::Error) -> u8 {
    match error.kind() {
        io::ErrorKind::OutOfMemory => OUT_OF_MEMORY,
        _ => UNREADABLE_WORDS,
    }
}

/// Returns what a status says that is no answer.
fn message(status: u8) -> Option<&'static str> {
    match status {
        UNLISTED => Some(
            "no command has these words: use run, run brief, check, script, upgrade, make N SEED or trial N SEED, N from 1 to 1000. Nothing was read or written.",
        ),
        READ_FAILED => Some(
            "the input could not be read: name a file that you may read after '<'. Nothing was written.",
        ),
        PUT_FAILED => Some(
            "the output could not be written to its end: make room for it, drop the part that is there, and run again.",
        ),
        OUT_OF_MEMORY => Some(
            "out of memory, so the output is missing or a part of it: drop that part, free memory, and run again.",
        ),
        TOO_LONG => Some(
            "the input is too long: a script may have 16777216 bytes, a report for check 67108864. Nothing was written: divide the script.",
        ),
        UNREADABLE_WORDS => Some(
            "a word of the command line cannot be read: type it in UTF-8. Nothing was read or written.",
        ),
        _ => None,
    }
}

/// Does what `words` ask for, over standard input and standard output; lots are judged by `threads`. Output is written
/// in pieces of up to 65,536 bytes. Returns the status: `PUT_FAILED` also if the last piece is not written.
fn status_of<T: Threads + Sync>(rt: &HostRuntime, threads: &T, words: &[String]) -> u8 {
    let Ok(mut sink) = BufferedSink::new(rt.alloc(), StdSink::new(rt.stdout())) else {
        return OUT_OF_MEMORY;
    };
    let mut source = StdSource::new(rt.stdin());
    let status = tool(threads, rt.alloc(), words, &mut source, &mut sink);
    match sink.finish() {
        Ok(()) => status,
        Err(_) => PUT_FAILED,
    }
}

fn main(rt: HostRuntime) -> ExitCode {
    let status = match words_of(&rt) {
        Ok(words) => status_of(&rt, &rt, &words),
        Err(error) => status_of_error(&error),
    };
    if let Some(text) = message(status) {
        let _ = eprintln!(rt; "rpstore: {text}");
    }
    ExitCode::from(status)
}
