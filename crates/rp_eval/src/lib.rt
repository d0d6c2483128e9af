#![tactic(auto)]
//! The forms that commands make, and the questions that they ask of forms. The code is generic in the tester, which is
//! a search in a run and the lines of a report in its check, and in the names that are known.
//!
//! [`formed`] makes the form of an expression, [`operand_of`] one that may be read in place, and [`is_member`] tests a
//! point by signs alone. [`is_empty`], [`within`], [`equal`], [`found_relation`] and [`Question`] compare forms by the
//! eight relations of the region connection calculus (Randell, Cui and Cohn, 1992). [`pieces`] returns the groups into
//! which contact joins the parts of a form. Each function makes exactly the tests of its definition, and is stopped iff
//! the definition is.

mod compare;
mod contacts;
mod form;
mod member;
mod operand;
mod question;

pub use compare::{Rcc8, equal, found_relation, is_empty, outside, within};
pub use contacts::pieces;
pub use form::{first_unknown, formed};
pub use member::is_member;
pub use operand::{Operand, operand_of};
pub use question::Question;
pub use rp_unionfind::PieceList;
