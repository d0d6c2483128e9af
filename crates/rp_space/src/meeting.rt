//! The common point of three planes, by Cramer's rule.
ghost use Rattle.std.specs.Prelude.{◌≡◌, ◌*◌, ◌^◌, true, false, pos, Some, IfSome, option_map};
ghost use Rattle.rp_algebra.specs.Integer.{is_zero};
ghost use Rattle.rp_algebra.specs.Within.{IsWithin};
ghost use Rattle.rp_geometry.specs.Geometry.{IsPoint, IsSmallPoint, point_of, reduced_point, side_value};
ghost use Rattle.rp_geometry.specs.searches.Vertex.{det2, cramer_point, meeting_point};
ghost use Rattle.rp_space.specs.PositivePoint.{positive_point};
ghost use Rattle.rp_space.specs.LevelAndUpright.{IsLevelWithUpright};
ghost use Rattle.rp_space.specs.ShortNumbers.{AreShort};
ghost use Rattle.rp_space.specs.TwoHalfSpaces.{two_of};

use crate::half::Half;
use crate::point::{Point, reduced};
use std::marker::Model;

/// Returns the common point of the planes of `f`, `g` and `h`, in lowest terms. Returns `None` iff the three planes do
/// not have exactly one common point.
pub fn meet(f: &Half, g: &Half, h: &Half) -> Option<Point>
    ensures { result ≡ meeting_point f.now g.now h.now }
{
    Pair::new(f, g).meet(h)
}

/// Returns the common point of the planes of `f`, `g` and `h`, with a positive weight and not yet in lowest terms.
/// The numbers are those that a [`Pair`] of the first two returns with the third.
/// `None` iff the three planes do not have exactly one common point.
///
/// Fewer products are made if one plane is level and the others are upright, as at the corners of boxes and prisms.
pub fn meeting_of(f: &Half, g: &Half, h: &Half) -> Option<Meeting>
    ensures value { result ≡ positive_point (cramer_point f.now g.now h.now) }
    ensures point { IfSome result IsPoint }
    ensures in_lowest_terms { option_map reduced_point result ≡ meeting_point f.now g.now h.now }
{
    if is_level_with_upright(f, g, h) {
        return meeting_on_level(f, g, h);
    }
    if is_level_with_upright(g, h, f) {
        return meeting_on_level(g, h, f);
    }
    if is_level_with_upright(h, f, g) {
        return meeting_on_level(h, f, g);
    }
    Pair::new(f, g).meeting(h)
}

/// Returns whether the planes of `f` and `g` are upright and that of `h` is level.
fn is_level_with_upright(f: &Half, g: &Half, h: &Half) -> bool
    ensures { result ≡ true → IsLevelWithUpright f.now g.now h.now }
{
    f.is_upright() && g.is_upright() && h.is_level()
}

/// Returns the common point of two upright planes and a level one.
fn meeting_on_level(f: &Half, g: &Half, h: &Half) -> Option<Meeting>
    requires { IsLevelWithUpright f.now g.now h.now }
    ensures value { result ≡ positive_point (cramer_point f.now g.now h.now) }
    ensures point { IfSome result IsPoint }
{
    let (fa, fb, _, fd) = f.numbers();
    let (ga, gb, _, gd) = g.numbers();
    let (_, _, c, d) = h.numbers();
    let ab = minor(fa, fb, ga, gb);
    let weight = c as i128 * ab;
    if weight == 0 {
        return None;
    }
    let x = c as i128 * minor(fb, fd, gb, gd);
    let y = c as i128 * minor(ga, gd, fa, fd);
    let z = -(d as i128 * ab);
    Some(positive(x, y, z, weight))
}

/// A point such as the common point of three planes, with a positive weight and not yet in lowest terms. So a side
/// value is computed without a divisor.
#[derive(Clone, Copy)]
pub struct Meeting {
    x: i128,
    y: i128,
    z: i128,
    w: i128,
}

impl Model for Meeting {
    ghost use Rattle.rp_geometry.specs.Geometry.{RationalPoint, point_of, IsSmallPoint};

    ghost Value = { RationalPoint };

    ghost view = { λ s. point_of s.x s.y s.z s.w };

    ghost invariant = { λ s. IsSmallPoint (point_of s.x s.y s.z s.w) };

    ghost inverse = { λ p. record { x = p.x; y = p.y; z = p.z; w = p.w } };
}

impl Default for Meeting {
    /// Returns the origin.
    fn default() -> Meeting {
        Meeting {
            x: 0,
            y: 0,
            z: 0,
            w: 1,
        }
    }
}

impl Meeting {
    /// Returns the point with the whole coordinates `x`, `y` and `z`.
    pub fn whole(x: i32, y: i32, z: i32) -> Meeting
        ensures { result ≡ point_of x y z (pos 1) }
    {
        Meeting {
            x: x as i128,
            y: y as i128,
            z: z as i128,
            w: 1,
        }
    }

    /// Returns the four numbers of the point, not yet in lowest terms.
    pub fn numbers(&self) -> (i128, i128, i128, i128)
        ensures numbers { point_of result.0 result.1 result.2 result.3 ≡ self.now }
        ensures small { IsSmallPoint self.now }
    {
        (self.x, self.y, self.z, self.w)
    }

    /// Returns the point in lowest terms.
    pub fn point(&self) -> Point
        ensures { result ≡ reduced_point self.now }
    {
        reduced(self.x, self.y, self.z, self.w)
    }

    /// Returns the side value of `h` at the point: its sign is that at the reduced point. Its size is below 2^127.
    pub fn side(&self, h: &Half) -> i128
        ensures { result ≡ side_value h.now self.now }
    {
        h.side_at(self.x, self.y, self.z, self.w)
    }
}

/// Two half-spaces, with the values that the common points of their planes and further planes share. A contract sees
/// the two half-spaces.
#[derive(Drop)]
pub struct Pair {
    first: Half,
    second: Half,
    ab: i128,
    ac: i128,
    bc: i128,
    ad: i128,
    bd: i128,
    cd: i128,
}

impl Model for Pair {
    ghost use Rattle.rp_space.specs.TwoHalfSpaces.{TwoHalfSpaces, two_of};

    ghost Value = { TwoHalfSpaces };

    ghost use Rattle.rp_space.specs.PairMinors.{HasMinors};

    ghost view = { λ p. two_of p.first p.second };

    ghost invariant = { HasMinors };
}

impl Pair {
    /// Returns the pair of `f` and `g`.
    pub fn new(f: &Half, g: &Half) -> Pair
        ensures { result ≡ two_of f.now g.now }
    {
        let (fa, fb, fc, fd) = f.numbers();
        let (ga, gb, gc, gd) = g.numbers();
        Pair {
            first: *f,
            second: *g,
            ab: minor(fa, fb, ga, gb),
            ac: minor(fa, fc, ga, gc),
            bc: minor(fb, fc, gb, gc),
            ad: minor(fa, fd, ga, gd),
            bd: minor(fb, fd, gb, gd),
            cd: minor(fc, fd, gc, gd),
        }
    }

    /// Returns the common point of the two planes and the plane of `h`, in lowest terms. Returns `None` iff the three
    /// planes do not have exactly one common point.
    pub fn meet(&self, h: &Half) -> Option<Point>
        ensures { result ≡ meeting_point self.now.first self.now.second h.now }
    {
        let meeting = self.meeting(h)?;
        Some(meeting.point())
    }

    /// Returns the common point of the two planes and the plane of `h`, with a positive weight and not yet in lowest
    /// terms. Returns `None` iff the three planes do not have exactly one common point.
    pub fn meeting(&self, h: &Half) -> Option<Meeting>
        ensures value { result ≡ positive_point (cramer_point self.now.first self.now.second h.now) }
        ensures point { IfSome result IsPoint }
        ensures in_lowest_terms { option_map reduced_point result ≡ meeting_point self.now.first self.now.second h.now }
    {
        let weight = self.weight(h);
        if weight == 0 {
            return None;
        }
        Some(positive(self.x(h), self.y(h), self.z(h), weight))
    }

    /// Returns the first coordinate of the common point, times the weight.
    fn x(&self, h: &Half) -> i128
        ensures value { result ≡ (cramer_point self.now.first self.now.second h.now).x }
        ensures small { IsWithin (18 * 2 ^ 96) result }
    {
        let (_, b, c, d) = h.numbers();
        c as i128 * self.bd - b as i128 * self.cd - d as i128 * self.bc
    }

    /// Returns the second coordinate of the common point, times the weight.
    fn y(&self, h: &Half) -> i128
        ensures value { result ≡ (cramer_point self.now.first self.now.second h.now).y }
        ensures small { IsWithin (18 * 2 ^ 96) result }
    {
        let (a, _, c, d) = h.numbers();
        a as i128 * self.cd - c as i128 * self.ad + d as i128 * self.ac
    }

    /// Returns the third coordinate of the common point, times the weight.
    fn z(&self, h: &Half) -> i128
        ensures value { result ≡ (cramer_point self.now.first self.now.second h.now).z }
        ensures small { IsWithin (18 * 2 ^ 96) result }
    {
        let (a, b, _, d) = h.numbers();
        b as i128 * self.ad - a as i128 * self.bd - d as i128 * self.ab
    }

    /// Returns the determinant of the coefficients: not 0 iff the three planes have exactly one common point.
    fn weight(&self, h: &Half) -> i128
        ensures value { result ≡ (cramer_point self.now.first self.now.second h.now).w }
        ensures small { IsWithin (6 * 2 ^ 72) result }
    {
        let (a, b, c, _) = h.numbers();
        a as i128 * self.bc - b as i128 * self.ac + c as i128 * self.ab
    }
}

/// Returns the 2 by 2 determinant with the rows (a, b) and (c, d).
fn minor(a: i64, b: i64, c: i64, d: i64) -> i128
    requires { AreShort a b c d }
    ensures { result ≡ det2 a b c d }
{
    a as i128 * d as i128 - b as i128 * c as i128
}

/// Returns the point of four numbers, of which the weight `w` is not 0, with a positive weight.
fn positive(x: i128, y: i128, z: i128, w: i128) -> Meeting
    requires x_small { IsWithin (18 * 2 ^ 96) x }
    requires y_small { IsWithin (18 * 2 ^ 96) y }
    requires z_small { IsWithin (18 * 2 ^ 96) z }
    requires w_small { IsWithin (6 * 2 ^ 72) w }
    requires nonzero { is_zero w ≡ false }
    ensures { Some result ≡ positive_point (point_of x y z w) }
{
    if w > 0 {
        return Meeting { x, y, z, w };
    }
    Meeting {
        x: -x,
        y: -y,
        z: -z,
        w: -w,
    }
}
