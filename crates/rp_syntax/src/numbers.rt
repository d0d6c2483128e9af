//! Numbers, half-spaces, points and boxes of a line.
ghost use Rattle.std.specs.Prelude.{◌≡◌, IfOk, IsTrue, ◌&&◌, ◌≤◌, int_le};
ghost use Rattle.rp_command.specs.Held.{IsHeldBound};
ghost use Rattle.rp_command.specs.Versions.{version_of};
ghost use Rattle.rp_command.specs.Views.{expression_of};
ghost use Rattle.rp_language.specs.Expression.{prism};
ghost use Rattle.rp_language.specs.Grammar.{box_numbers, coordinate, corner_numbers, count_between, cube_coordinate, gives, half_space_numbers, height, many, number, point, prism_numbers, read_on};
ghost use Rattle.rp_space.specs.Boxes.{integer_box};
ghost use Rattle.rp_space.specs.Corners.{polygon_corner, polygon_corners};
ghost use Rattle.rp_syntax.specs.Reads.{Reads};

use crate::fault::ReadFault;
use crate::space::{half_space, rational_point};
use crate::words::Words;
use rp_command::{Expr, Version, Why, coordinate};
use rp_space::{Corner, Corners, Half, IntBox, Point};
use std::alloc::Global;

/// The greatest size of the first three numbers of a half-space, and of the numbers of a box.
const MAX_COEFFICIENT: i128 = 16777216;

/// The greatest size of the fourth number of a half-space.
const MAX_OFFSET: i128 = 844424930131968;

/// The greatest size of the first three numbers of a point, 2^101 - 1.
const MAX_COORDINATE: i128 = 2535301200456458802993406410751;

/// The greatest weight of a point, 2^75 - 1.
const MAX_WEIGHT: i128 = 37778931862957161709567;

/// The greatest size of the numbers of a corner, 2^23.
const MAX_CORNER: i128 = 8388608;

/// The fewest corners of a polygon.
const MIN_CORNERS: u32 = 3;

/// The most corners of a polygon.
const MAX_CORNERS: u32 = 256;

impl<'a> Words<'a> {
    /// Reads the next word as a coordinate in `version`, from `least` to `greatest`. `Range` if it is outside.
    #[tactic(auto, unfolding(rp_language::specs::Grammar::coordinate))]
    pub fn coordinate(
        &mut self,
        version: Version,
        least: i128,
        greatest: i128,
    ) -> Result<i128, ReadFault>
        requires least { IsHeldBound least }
        requires greatest { IsHeldBound greatest }
        ensures read { Reads (λ v. v) result self.new (coordinate (version_of version) least greatest self.old) }
        ensures within { IfOk result (λ v. IsTrue (int_le least v && int_le v greatest)) }
    {
        let word = self.next()?;
        let Some(v) = coordinate(version, word) else {
            return Err(ReadFault::Bad(Why::Syntax));
        };
        if least <= v && v <= greatest {
            Ok(v)
        } else {
            Err(ReadFault::Bad(Why::Range))
        }
    }

    /// Reads the next word as a whole number from `least` to `greatest`, spelled like a coordinate of version 1.
    #[tactic(auto, unfolding(rp_language::specs::Grammar::coordinate, rp_language::specs::Grammar::number))]
    fn number(&mut self, least: i128, greatest: i128) -> Result<i128, ReadFault>
        requires least { IsHeldBound least }
        requires greatest { IsHeldBound greatest }
        ensures read { Reads (λ v. v) result self.new (number least greatest self.old) }
        ensures within { IfOk result (λ v. IsTrue (int_le least v && int_le v greatest)) }
    {
        self.coordinate(Version::One, least, greatest)
    }

    /// Reads the next word as a count from `least` to `greatest`.
    pub fn count(&mut self, least: u32, greatest: u32) -> Result<u32, ReadFault>
        ensures { Reads (λ n. n) result self.new (count_between least greatest self.old) }
    {
        let count = self.number(least as i128, greatest as i128)?;
        Ok(count as u32)
    }

    /// Reads the four numbers of a half-space and returns it in lowest terms. `Zero` if all four are 0.
    #[tactic(auto, unfolding(rp_language::specs::Grammar::half_space_numbers))]
    pub fn half(&mut self) -> Result<Half, ReadFault>
        ensures { Reads (λ h. h) result self.new (half_space_numbers self.old) }
    {
        let a = self.number(-MAX_COEFFICIENT, MAX_COEFFICIENT)?;
        let b = self.number(-MAX_COEFFICIENT, MAX_COEFFICIENT)?;
        let c = self.number(-MAX_COEFFICIENT, MAX_COEFFICIENT)?;
        let d = self.number(-MAX_OFFSET, MAX_OFFSET)?;
        half_space(a, b, c, d)
    }

    /// Reads the four numbers of a point, in `version`, and returns it in lowest terms.
    #[tactic(auto, unfolding(rp_language::specs::Grammar::point))]
    pub fn point(&mut self, version: Version) -> Result<Point, ReadFault>
        ensures { Reads (λ p. p) result self.new (point (version_of version) self.old) }
    {
        let x = self.coordinate(version, -MAX_COORDINATE, MAX_COORDINATE)?;
        let y = self.coordinate(version, -MAX_COORDINATE, MAX_COORDINATE)?;
        let z = self.coordinate(version, -MAX_COORDINATE, MAX_COORDINATE)?;
        let w = self.number(1, MAX_WEIGHT)?;
        rational_point(x, y, z, w)
    }

    /// Reads one coordinate of the closed domain cube, in `version`: -2^24 to 2^24.
    fn side(&mut self, version: Version) -> Result<i32, ReadFault>
        ensures { Reads (λ v. v) result self.new (cube_coordinate (version_of version) self.old) }
    {
        let v = self.coordinate(version, -MAX_COEFFICIENT, MAX_COEFFICIENT)?;
        Ok(v as i32)
    }

    /// Reads the six numbers of a box, in `version`: its least corner, then its greatest.
    #[tactic(auto, unfolding(rp_language::specs::Grammar::box_numbers))]
    pub fn block(&mut self, version: Version) -> Result<IntBox, ReadFault>
        ensures { Reads integer_box result self.new (box_numbers (version_of version) self.old) }
    {
        let x1 = self.side(version)?;
        let y1 = self.side(version)?;
        let z1 = self.side(version)?;
        let x2 = self.side(version)?;
        let y2 = self.side(version)?;
        let z2 = self.side(version)?;
        Ok(IntBox {
            lo: [x1, y1, z1],
            hi: [x2, y2, z2],
        })
    }

    /// Reads the two numbers of a polygon's corner, in `version`, each from -2^23 to 2^23.
    #[tactic(auto, unfolding(rp_language::specs::Grammar::corner_numbers))]
    fn corner(&mut self, version: Version) -> Result<Corner, ReadFault>
        ensures { Reads polygon_corner result self.new (corner_numbers (version_of version) self.old) }
    {
        let x = self.coordinate(version, -MAX_CORNER, MAX_CORNER)?;
        let y = self.coordinate(version, -MAX_CORNER, MAX_CORNER)?;
        Ok(Corner {
            x: x as i32,
            y: y as i32,
        })
    }

    /// Reads `count` corners of a polygon, in `version`.
    fn corners(&mut self, alloc: Global, version: Version, count: u32) -> Result<Corners, ReadFault>
        ensures { Reads (λ corners. polygon_corners corners.items) result self.new (many count (corner_numbers (version_of version)) self.old) }
    {
        let mut corners = Corners::new(alloc);
        for _ in 0..count {
            let corner = self.corner(version)?;
            corners.push(corner)?;
        }
        Ok(corners)
    }

    /// Reads a prism in `version`: its two heights, a count from 3 to 256, and as many corners.
    #[tactic(auto, unfolding(rp_language::specs::Grammar::prism_numbers))]
    pub fn prism(&mut self, alloc: Global, version: Version) -> Result<Expr, ReadFault>
        ensures { Reads expression_of result self.new (read_on (λ s. gives (prism s)) (prism_numbers (version_of version) self.old)) }
    {
        let low = self.side(version)?;
        let high = self.side(version)?;
        let count = self.count(MIN_CORNERS, MAX_CORNERS)?;
        let corners = self.corners(alloc, version, count)?;
        Ok(Expr::Prism(low, high, corners))
    }

    /// Reads a height in `version`: -2^24 to 2^24 - 1.
    pub fn height(&mut self, version: Version) -> Result<i32, ReadFault>
        ensures { Reads (λ z. z) result self.new (height (version_of version) self.old) }
    {
        let z = self.coordinate(version, -MAX_COEFFICIENT, MAX_COEFFICIENT - 1)?;
        Ok(z as i32)
    }
}
