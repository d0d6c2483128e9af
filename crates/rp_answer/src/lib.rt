#![tactic(auto)]
//! The answer to a line: verdict lines, or the reason why the line is refused; and the result of the row of a command.
//!
//! An [`Answer`] is the number of a line, its echo, its proof lines, and its verdicts. A row results in verdict lines,
//! or in the reason why it ends ([`RowEnd`]): a refusal, or a stop. Many begin with the form of one expression
//! ([`row_form`]). A call returns `AllocError` only if memory runs out.

mod answer;
mod form;
mod reply;

pub use answer::{Answer, Echo, Refusal, Verdict, Verdicts};
pub use form::{row_form, short_form};
pub use reply::{RowEnd, one_line, yes_or_no};
