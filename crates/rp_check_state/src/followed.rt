//! What a row that is followed on the lines of a report comes to.

use rp_register_state::Reply;
use rp_trail::Form;

/// What a command comes to, once its row was followed on the lines of a report.
#[derive(Drop)]
pub enum Followed {
    /// The row is at its end.
    Replied(Reply<Form>),
    /// It has asked something, and its verdict lines don't stand next: the line of this number is the first that is
    /// another one, or no line is left there. None of them is taken.
    Unshown(u32),
}
