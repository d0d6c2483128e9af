//! The order in which the half-spaces of a list clip a line.
ghost use Rattle.std.specs.Prelude.{◌<◌, length};
ghost use Rattle.std.specs.List.{Contains};

use rp_space::Half;

/// The most half-spaces of a list.
const MOST: usize = 70;

/// The places of a list, in the order in which its half-spaces clip a line. A half-space that left nothing of a line
/// moves to the front, since it often leaves nothing of the next line. No result depends on the order.
#[derive(Clone, Copy)]
pub(crate) struct Order {
    places: [u8; MOST],
}

impl Order {
    /// Returns the order of the list itself.
    pub(crate) fn new() -> Order {
        let mut places = [0; MOST];
        for place in 0..MOST {
            places[place] = place as u8;
        }
        Order { places }
    }

    /// Returns the half-space of `system` with the rank `rank`.
    pub(crate) fn half<'a>(&self, system: &'a [Half], rank: usize) -> &'a Half
        requires { rank < length system.now }
        ensures { Contains system.now result.now }
    {
        let place = self.place(rank);
        if place < system.len() {
            &system[place]
        } else {
            &system[rank]
        }
    }

    /// Returns the place with the rank `rank`.
    fn place(&self, rank: usize) -> usize {
        match self.places.get(rank) {
            Some(place) => *place as usize,
            None => rank,
        }
    }

    /// Moves the place with the rank `rank` to the front.
    pub(crate) fn bring_forward(&mut self, rank: usize) {
        if rank < MOST {
            let place = self.places[rank];
            self.places.copy_within(0..rank, 1);
            self.places[0] = place;
        }
    }
}
