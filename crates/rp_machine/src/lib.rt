#![tactic(auto)]
//! The machine that answers one line of a script after the other.
//!
//! A [`Machine`] is by its type a version, which no step changes and by which lines are read, and a sound state: names
//! and ids are distinct, each name and lot stands for a list of parts, live lots of one layer share no point, and all
//! sizes keep their limits. A step's answer and the state after it are those that are computed from the lists of parts.
//! A refused line and want of memory leave the machine as it was. After each step the next number is above every birth
//! and every end. [`Machine::form`] makes the form of an expression test by test, or tells the first name that is not
//! there, or meets a limit exactly where the definition says. Calls that answer `AllocError` do so only for want of
//! memory.

mod fault;
mod form;
mod keeper;
mod machine;
mod rows;
mod state;
mod step;

pub use fault::FormFault;
pub use machine::Machine;
