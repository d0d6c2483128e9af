#![tactic(auto)]
//! The row of a subdivision. The code is generic in the tester and in the register.
//!
//! It returns the change, the refusal or the stop of its definition, and makes exactly its tests. The change is
//! returned and not made here: the register makes it. A call returns `AllocError` only if memory runs out.

mod child;
mod children;
mod order;
mod subdividing;

pub use child::Child;
pub use order::subdivision;
pub use subdividing::subdivide;
