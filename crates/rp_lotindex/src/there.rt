//! Which lots are there at a moment.
ghost use Rattle.std.specs.Prelude.{◌≡◌};
ghost use Rattle.rp_history.specs.Lots.{lot_of};
ghost use Rattle.rp_proximity.specs.There.{is_there, IsLine};

use rp_history::LotLine;
use rp_proximity::Moment;

/// Shows that the number of the line of `moment` is below 2^32.
pub(crate) fn show_line(moment: Moment)
    ensures { IsLine moment }
{
    match moment {
        Moment::Now => {}
        Moment::After(_line) => {}
    }
}

/// Returns whether `lot` is there at `moment`: live, or alive after the line.
pub(crate) fn is_there(lot: &LotLine, moment: Moment) -> bool
    ensures { result ≡ is_there moment (lot_of lot.now) }
{
    match moment {
        Moment::Now => lot.ended.is_none(),
        Moment::After(line) => lot.is_alive_after(line),
    }
}
