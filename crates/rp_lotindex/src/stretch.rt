//! Stretches of lines, to which lots that ended belong. The lines of a stretch are those whose numbers become equal
//! when halved a number of times. A lot that lived from one line to another belongs to the least stretch with both
//! lines. So all lots of a stretch were there at one line in its middle. A lot that was there after a line belongs to
//! one of the 32 stretches with that line. This follows the interval trees of Edelsbrunner, Dynamic data structures for
//! orthogonal intersection queries, 1980.
ghost use Rattle.std.specs.Prelude.{◌≡◌};
ghost use Rattle.rp_lotindex.specs.Stretches.{stretch_of};

/// The lines whose numbers become `mark` when they are halved `level` + 1 times.
#[derive(Clone, Copy)]
pub(crate) struct Stretch {
    pub(crate) level: u32,
    pub(crate) mark: u32,
}

impl Stretch {
    /// Returns the least stretch with both lines.
    pub(crate) fn of(born: u32, ended: u32) -> Stretch
        ensures { result ≡ stretch_of born ended }
    {
        let mut first = born / 2;
        let mut last = ended / 2;
        for level in 0..31 {
            if first == last {
                return Stretch { level, mark: first };
            }
            first /= 2;
            last /= 2;
        }
        Stretch {
            level: 31,
            mark: first,
        }
    }
}
