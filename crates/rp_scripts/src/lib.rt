#![tactic(auto)]
//! What is done with a script without the machine that answers it and without the check of a report.
//!
//! A script is cut into its lines ([`next_line`]) behind the mark of its version ([`split_mark`]). It is put with each
//! command in its one spelling ([`spell::spell`]), as one of version 2 ([`upgrade::upgrade`], line by line
//! [`upgrade_line`]), or made from a seed
//! ([`make::make`]). Beside that stand what the words of a command line ask for ([`listed_task`]), how the answer to a
//! line is put ([`put_answer`]), and what is counted in answers ([`Counts`]).
//!
//! Each call that puts says what came to the sink: the whole text, or where it fails a front of it. It fails only where
//! a put did, or for want of memory. Calls that answer `AllocError` do so only for want of memory.

mod answer;
mod building;
mod counts;
mod fault;
mod lines;
mod made;
pub mod make;
mod mark;
mod number;
mod output;
mod refusal;
pub mod spell;
mod task;
mod text;
pub mod upgrade;
mod upgraded;

pub use answer::put_answer;
pub use building::Building;
pub use counts::{Counts, Summary, write_summary};
pub use fault::OutputFault;
pub use lines::next_line;
pub use made::{MadeLine, MadeScript};
pub use mark::{put_mark, split_mark};
pub use output::put_lines;
pub use task::{GivenTask, MadeTask, Task, listed_task};
pub use text::write_count;
pub use upgraded::upgrade_line;
