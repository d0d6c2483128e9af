//! The half-spaces of a cell and the cube's six, by their places.
ghost use Rattle.std.specs.Prelude.{◌≡◌, ◌<◌, [], ◌∷◌, ◌++◌, length, ◌≤◌, IsSome, Some};
ghost use Rattle.rp_clip.specs.Masks.{half_at};

use arrayvec::ArrayVec;
use rp_space::{Half, cube};
use std::marker::Model;

/// The place of the cube's first half-space.
const CUBE_PLACE: u32 = 64;

/// The half-spaces of a cell, at the places from 0 on, and the cube's six, at the places from 64 on.
#[derive(Drop)]
pub(crate) struct Planes {
    cell: ArrayVec<Half, 64>,
    cube: [Half; 6],
}

impl Model for Planes {
    ghost use Rattle.std.specs.Prelude.{◌≡◌, List};
    ghost use Rattle.rp_geometry.specs.Geometry.{HalfSpace, cube_half_spaces};

    ghost Value = { List HalfSpace };

    ghost view = { λ s. s.cell.items };

    ghost invariant = { λ s. s.cube ≡ cube_half_spaces };
}

impl Planes {
    /// Returns the cube's half-spaces alone.
    pub(crate) fn new() -> Planes
        ensures { result ≡ [] }
    {
        Planes {
            cell: ArrayVec::new(),
            cube: cube(),
        }
    }

    /// Returns the half-spaces of `cell`, at most 64, and the cube's.
    pub(crate) fn of(cell: &[Half]) -> Planes
        requires { length cell.now ≤ 64 }
        ensures { result ≡ cell.now }
    {
        let mut planes = Planes::new();
        for half in cell {
            planes.push(*half);
        }
        planes
    }

    /// Returns the cell's half-spaces, in order, at most 64.
    pub(crate) fn halves(&self) -> &[Half]
        ensures value { result.now ≡ self.now }
        ensures fits { length result.now ≤ 64 }
    {
        self.cell.as_slice()
    }

    /// Returns the number of the cell's half-spaces, at most 64.
    pub(crate) fn len(&self) -> u32
        ensures value { result ≡ length self.now }
        ensures fits { result ≤ 64 }
    {
        self.cell.len() as u32
    }

    /// Appends `h` to the cell's half-spaces, of which there are fewer than 64.
    pub(crate) fn push(&mut self, h: Half)
        requires { length self.old < 64 }
        ensures { self.new ≡ self.old ++ h ∷ [] }
    {
        self.cell.push(h);
    }

    /// Returns the half-space at `place`, at which there is one.
    pub(crate) fn at(&self, place: u32) -> Half
        requires { IsSome (half_at self.now place) }
        ensures { Some result ≡ half_at self.now place }
    {
        if place < CUBE_PLACE {
            self.cell[place as usize]
        } else {
            self.cube[(place - CUBE_PLACE) as usize]
        }
    }

    /// Removes the cell's half-spaces.
    pub(crate) fn clear(&mut self)
        ensures { self.new ≡ [] }
    {
        self.cell.clear();
    }

    /// Copies the half-spaces of `other`.
    pub(crate) fn copy_from(&mut self, other: &Planes)
        ensures { self.new ≡ other.now }
    {
        let halves = other.halves();
        self.clear();
        for half in halves {
            self.push(*half);
        }
    }
}
