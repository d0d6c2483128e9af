#![tactic(auto)]
//! What a registrar does with a book: adds lines, asks, and reads the script and its report.
//!
//! Lines are added only if none of them is refused after those that the book keeps ([`add::add`]). Questions are
//! answered as if they came after the book's lines, and are not kept:
//!
//! - lines that change no lot, each as soon as it has come ([`ask::ask`]);
//! - a question about a lot, with the acts in which the lot was born and ended and the lots that it became
//!   ([`history::history`]);
//! - a question about a place on a date, in a layer ([`date::as_of`]).
//!
//! Acts of another book are taken in as they are, if they continue the book ([`replay::replay`]).

pub mod add;
mod answers;
pub mod ask;
mod change;
mod children;
pub mod date;
mod events;
mod first;
pub mod history;
mod layers;
mod lines;
mod lot_line;
mod pieces;
mod read;
pub mod replay;
mod session;
mod stop;

pub use layers::{Addition, Choice, Inherited, last_choice};
pub use read::{put_report, put_script};
pub use stop::{Length, Stop};
