#![tactic(auto)]
//! Regions of space as lists of parts, and their algebra: intersection, union, difference and complement, test by test.
//!
//! A [`Region`] is by its type a list of at most 1,024 parts. Each part is a cell of at most 32 half-spaces that has a
//! member, with its least box.
//!
//! - Each operation makes exactly the tests, the proof lines and the parts of its definition. It meets a limit iff the
//!   definition does, and its result has exactly the members that the definition says. This is true of the region of a
//!   prism as well.
//! - The first pair of parts that share a point, and the first pair in contact, are found by exactly the tests of the
//!   definitions: over all pairs, or over only those whose boxes meet. There is none iff the regions share no point, or
//!   are not in contact.
//! - Calls that return `AllocError` do so only for want of memory.

mod answers;
mod count;
mod difference;
mod fault;
mod front;
mod join;
mod pairs;
mod part;
mod prism;
mod region;
mod scratch;
mod witness;
mod work;

pub use fault::OpFault;
pub use part::Part;
pub use region::Region;
pub use scratch::Scratch;
pub use work::Work;
