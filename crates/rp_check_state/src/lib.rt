#![tactic(auto)]
//! What the check of a report keeps between two answers, and sections, followed on the next lines.
//!
//! A [`Register`] is what is kept ([`RegisterState`](rp_register_state::RegisterState)), with the forms that the lines
//! of the report show. Calls that answer `AllocError` do so only for want of memory.

mod followed;
mod keeper;
mod register;
mod shown;
mod slices;

pub use followed::Followed;
pub use register::Register;
pub use slices::section;
