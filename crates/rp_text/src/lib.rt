#![tactic(auto)]
//! The text of answers in a report, and the lines of a report, read back.
//!
//! [`write_answer`] appends the text of an answer, byte for byte: its echo, its proof lines unless it is to be brief,
//! and its verdict lines. [`write_line`] appends one line, an [`Echo`] or a verdict, and [`write_proof`] a proof line.
//! If memory runs out, they append a prefix. A proof line, a line that shows a slice and an echo are read iff they have
//! their one spelling, and reading takes no memory. A call returns `AllocError` only if memory runs out.

mod echo;
mod half_texts;
mod items;
mod lot;
mod mark;
mod numbers;
mod pieces;
mod proof;
mod proof_line;
mod readers;
mod slice;
mod slice_line;
mod space;
mod text;
mod verdict;

pub use echo::{Echo, read_echo};
pub use half_texts::HalfTexts;
pub use items::{WriteText, write_line};
pub use mark::{REPORT_MARK, SCRIPT_MARK};
pub use proof::write_proof;
pub use proof_line::read_proof;
pub use slice_line::read_slice;
pub use text::write_answer;
pub use verdict::write_verdict;
