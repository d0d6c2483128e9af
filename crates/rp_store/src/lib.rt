#![tactic(auto)]
//! What a state keeps, written once for the run and the check: the forms that names stand for, and all lots that were
//! ever registered, with their forms and their boxes in an index.
//!
//! A run keeps regions so, and the check of its report the parts that the lines show: both are [`Forms`]. What these
//! are worth is known to those alone; here they are lists of parts. Calls that answer `AllocError` do so only for want
//! of memory.

mod boxes;
mod forms;
mod hulls;
mod limits;
mod lots;
mod names;
mod settle;

pub use forms::Forms;
pub use lots::Lots;
pub use names::NamedForms;
