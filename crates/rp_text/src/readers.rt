//! Readers of the front of a text. Each returns a value and the rest of the text.
//! Each reader accepts exactly one spelling, so no value has to be written again and compared.
ghost use Rattle.std.specs.Prelude.{◌≡◌, ◌==◌, ◌<◌, option_map, ℕ, List, length};
ghost use Rattle.std.specs.List.{position};
ghost use denote.Ref.{Bor};
ghost use Rattle.rp_geometry.specs.Geometry.{point_of, half_space_of, is_within_bound, offset_bound};
ghost use Rattle.rp_space.specs.Boxes.{integer_box};
ghost use Rattle.rp_text.specs.Readers.{behind, kept_if, short_number, number_before, four_numbers, front, written_point, written_half_space, point, half_space, term, spaced_item, with_one_more, few_items, side_of, side, last_side, box_spelled};

use rp_command::spelled;
use rp_space::{Half, Inside, IntBox, Outside, Point, Term, is_multiplier};

/// The bound of the size of numbers that are read, 2^120. Every number of a proof line is far below.
const HELD: u128 = 1329227995784915872903807060280344576;

/// The greatest size of the offset of a half-space, which is the greatest of its numbers.
const MAX_OFFSET: i128 = 844424930131968;

/// The greatest size of the numbers of a box.
const MAX_SIDE: i128 = 16777216;

/// The most points or terms of a proof line.
const MAX_ITEMS: usize = 4;

/// Returns the rest of `line` after `word`; `None` iff `line` does not begin with `word`.
pub(crate) fn behind<'a>(word: &[u8], line: &'a [u8]) -> Option<&'a [u8]>
    ensures { option_map (λ (rest : Bor (List ℕ)). rest.now) result ≡ behind word.now line.now }
{
    line.strip_prefix(word)
}

/// Returns the index of the first byte `mark` in `line`; `None` iff it is not there.
pub(crate) fn place_of(mark: u8, line: &[u8]) -> Option<usize>
    ensures { result ≡ position (λ b. b == mark) line.now }
{
    line.iter().position(|byte| *byte == mark)
}

/// Returns the whole number that `word` spells; `None` if its size is 2^120 or more, or if it spells none.
fn short_number(word: &[u8]) -> Option<i128>
    ensures { result ≡ short_number word.now }
{
    let v = spelled(word)?;
    if v.unsigned_abs() < HELD {
        Some(v)
    } else {
        None
    }
}

/// Reads a number that ends before the first byte `mark`. Returns it with the text after `mark`.
#[tactic(auto, unfolding(crate::specs::Readers::number_before))]
pub(crate) fn number_before(mark: u8, line: &[u8]) -> Option<(i128, &[u8])>
    ensures { option_map front result ≡ number_before mark line.now }
{
    let end = place_of(mark, line)?;
    let v = short_number(&line[..end])?;
    Some((v, &line[end + 1..]))
}

/// Reads four numbers in parentheses, with one space between each two.
#[tactic(auto, unfolding(crate::specs::Readers::four_numbers))]
fn four_numbers(line: &[u8]) -> Option<((i128, i128, i128, i128), &[u8])>
    ensures { option_map front result ≡ four_numbers line.now }
{
    let line = behind(b"(", line)?;
    let (x, line) = number_before(b' ', line)?;
    let (y, line) = number_before(b' ', line)?;
    let (z, line) = number_before(b' ', line)?;
    let (w, line) = number_before(b')', line)?;
    Some(((x, y, z, w), line))
}

/// Returns the point of four numbers; `None` iff they are not in lowest terms or exceed their bounds.
fn written_point(x: i128, y: i128, z: i128, w: i128) -> Option<Point>
    ensures { result ≡ written_point (point_of x y z w) }
{
    let Ok(point) = Point::new(x, y, z, w) else {
        return None;
    };
    if point.numbers() == (x, y, z, w) {
        Some(point)
    } else {
        None
    }
}

/// Returns `v`; `None` iff its size exceeds 844424930131968, the bound of a half-space's offset.
fn short(v: i128) -> Option<i64>
    ensures { result ≡ kept_if (is_within_bound offset_bound v) v }
{
    if -MAX_OFFSET <= v && v <= MAX_OFFSET {
        Some(v as i64)
    } else {
        None
    }
}

/// Returns the half-space of four numbers; `None` iff they are not in lowest terms or exceed their bounds.
fn short_half(a: i64, b: i64, c: i64, d: i64) -> Option<Half>
    ensures { result ≡ written_half_space (half_space_of a b c d) }
{
    let Ok(half) = Half::new(a, b, c, d) else {
        return None;
    };
    if half.numbers() == (a, b, c, d) {
        Some(half)
    } else {
        None
    }
}

/// Returns the half-space of four numbers; `None` iff they are not in lowest terms or exceed their bounds.
fn written_half(a: i128, b: i128, c: i128, d: i128) -> Option<Half>
    ensures { result ≡ written_half_space (half_space_of a b c d) }
{
    short_half(short(a)?, short(b)?, short(c)?, short(d)?)
}

/// Reads a point.
#[tactic(auto, unfolding(crate::specs::Readers::point))]
pub(crate) fn point(line: &[u8]) -> Option<(Point, &[u8])>
    ensures { option_map front result ≡ point line.now }
{
    let ((x, y, z, w), line) = four_numbers(line)?;
    let point = written_point(x, y, z, w)?;
    Some((point, line))
}

/// Reads a half-space.
#[tactic(auto, unfolding(crate::specs::Readers::half_space))]
pub(crate) fn half_space(line: &[u8]) -> Option<(Half, &[u8])>
    ensures { option_map front result ≡ half_space line.now }
{
    let ((a, b, c, d), line) = four_numbers(line)?;
    let half = written_half(a, b, c, d)?;
    Some((half, line))
}

/// Reads a multiple of a half-space: a multiplier, `*` and the half-space.
#[tactic(auto, unfolding(crate::specs::Readers::term))]
fn term(line: &[u8]) -> Option<(Term, &[u8])>
    ensures { option_map front result ≡ term line.now }
{
    let (by, line) = number_before(b'*', line)?;
    let Some((half, line)) = half_space(line) else {
        return None;
    };
    if is_multiplier(by) {
        Some((Term { by, half }, line))
    } else {
        None
    }
}

/// Reads a space and a point.
pub(crate) fn spaced_point(line: &[u8]) -> Option<(Point, &[u8])>
    ensures { option_map front result ≡ spaced_item point line.now }
{
    point(behind(b" ", line)?)
}

/// Reads a space and a point, and adds the point to `points`. Returns the rest of `line`.
fn next_point<'a>(points: &mut Inside, line: &'a [u8]) -> Option<&'a [u8]>
    requires { length points.old < 4 }
    ensures { option_map (λ rest. (points.new, rest.now)) result ≡ option_map (with_one_more points.old) (spaced_item point line.now) }
{
    let Some((point, rest)) = spaced_point(line) else {
        return None;
    };
    points.push(point);
    Some(rest)
}

/// Reads one to four points, each after a space, up to the end of `line`.
pub(crate) fn points(line: &[u8]) -> Option<Inside>
    ensures { result ≡ few_items point line.now }
{
    let mut points = Inside::new();
    let mut rest = line;
    while !rest.is_empty() {
        if points.items().len() == MAX_ITEMS {
            return None;
        }
        rest = next_point(&mut points, rest)?;
    }
    if points.items().is_empty() {
        None
    } else {
        Some(points)
    }
}

/// Reads a space and a multiple of a half-space.
fn spaced_term(line: &[u8]) -> Option<(Term, &[u8])>
    ensures { option_map front result ≡ spaced_item term line.now }
{
    term(behind(b" ", line)?)
}

/// Reads a space and a multiple of a half-space, and adds the multiple to `terms`. Returns the rest of `line`.
fn next_term<'a>(terms: &mut Outside, line: &'a [u8]) -> Option<&'a [u8]>
    requires { length terms.old < 4 }
    ensures { option_map (λ rest. (terms.new, rest.now)) result ≡ option_map (with_one_more terms.old) (spaced_item term line.now) }
{
    let Some((term, rest)) = spaced_term(line) else {
        return None;
    };
    terms.push(term);
    Some(rest)
}

/// Reads one to four multiples of half-spaces, each after a space, up to the end of `line`.
pub(crate) fn terms(line: &[u8]) -> Option<Outside>
    ensures { result ≡ few_items term line.now }
{
    let mut terms = Outside::new();
    let mut rest = line;
    while !rest.is_empty() {
        if terms.items().len() == MAX_ITEMS {
            return None;
        }
        rest = next_term(&mut terms, rest)?;
    }
    if terms.items().is_empty() {
        None
    } else {
        Some(terms)
    }
}

/// Returns `v` as a number of a box; `None` iff it is not from -16777216 to 16777216.
pub(crate) fn side_of(v: i128) -> Option<i32>
    ensures { result ≡ side_of v }
{
    if -MAX_SIDE <= v && v <= MAX_SIDE {
        Some(v as i32)
    } else {
        None
    }
}

/// Reads a number of a box and the space after it.
#[tactic(auto, unfolding(crate::specs::Readers::side))]
fn side(line: &[u8]) -> Option<(i32, &[u8])>
    ensures { option_map front result ≡ side line.now }
{
    let (v, line) = number_before(b' ', line)?;
    Some((side_of(v)?, line))
}

/// Reads the last number of a box, which ends with `line`.
#[tactic(auto, unfolding(crate::specs::Readers::last_side))]
fn last_side(line: &[u8]) -> Option<i32>
    ensures { result ≡ last_side line.now }
{
    side_of(short_number(line)?)
}

/// Reads the six numbers of a box, up to the end of `line`.
#[tactic(auto, unfolding(crate::specs::Readers::box_spelled))]
pub(crate) fn block(line: &[u8]) -> Option<IntBox>
    ensures { option_map integer_box result ≡ box_spelled line.now }
{
    let (x1, line) = side(line)?;
    let (y1, line) = side(line)?;
    let (z1, line) = side(line)?;
    let (x2, line) = side(line)?;
    let (y2, line) = side(line)?;
    let z2 = last_side(line)?;
    Some(IntBox {
        lo: [x1, y1, z1],
        hi: [x2, y2, z2],
    })
}
