//! Checks of sizes, and counts.
ghost use Rattle.std.specs.Prelude.{◌≡◌, ◌+◌, length};
ghost use Rattle.rp_model.specs.states.State.{parts_under_lots, most_kept_parts};
ghost use Rattle.rp_model.specs.commands.Reply.{check_size};
ghost use Rattle.rp_oracle.specs.Refines.{Refines};

use crate::keeper::Keeper;
use rp_oracle::{Oracle, Stopped};

/// Returns how many parts `form` has.
pub fn count_parts<T: Oracle>(form: &T::Form) -> usize
    ensures { result ≡ length (T.parts_of form.now) }
{
    T::parts(form).len()
}

/// Refuses with `Limit` iff all lots of `keeper` together would keep more than 65,536 parts with `parts` more.
pub fn check_room<T: Oracle, K: Keeper<T>>(keeper: &K, parts: usize) -> Result<(), Stopped>
    ensures { (w : T) → Refines (λ x. x) result w (check_size (parts_under_lots (K.state keeper.now).lots + parts) most_kept_parts w) }
{
    if !keeper.have_room_for(parts) {
        return Err(Stopped::Limit);
    }
    Ok(())
}
