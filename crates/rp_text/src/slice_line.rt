//! Reads lines that show slices.
ghost use Rattle.std.specs.Prelude.{◌≡◌, ◌<◌, option_map, length};
ghost use Rattle.rp_geometry.specs.Geometry.{is_within_bound};
ghost use Rattle.rp_geometry.specs.sections.Trace.{trace_of};
ghost use Rattle.rp_geometry.specs.sections.Slice.{ring, flat};
ghost use Rattle.rp_geometry.specs.sections.Flat.{is_one_to_three};
ghost use Rattle.rp_reports.specs.SliceText.{trace_bound, is_three_to_36, slice_read};
ghost use Rattle.rp_cert.specs.Section.{slice_shown};
ghost use Rattle.rp_text.specs.Readers.{kept_if, front, spaced_item, with_one_more, items};
ghost use Rattle.rp_text.specs.SliceReaders.{three_numbers, written_edge, edge, step, ring_steps, flat_terms, slice};

use crate::readers::{behind, number_before, side_of, spaced_point, terms};
use rp_cert::{Edge, RingStep, RingSteps, Slice};
use rp_space::Outside;

/// The greatest size of the offset of an edge, 2^50.
const MAX_EDGE_OFFSET: i128 = 1125899906842624;

/// The most steps of a ring.
const MAX_STEPS: usize = 36;

/// Reads three numbers in parentheses, with one space between each two.
#[tactic(auto, unfolding(crate::specs::SliceReaders::three_numbers))]
fn three_numbers(line: &[u8]) -> Option<((i128, i128, i128), &[u8])>
    ensures { option_map front result ≡ three_numbers line.now }
{
    let line = behind(b"(", line)?;
    let (a, line) = number_before(b' ', line)?;
    let (b, line) = number_before(b' ', line)?;
    let (d, line) = number_before(b')', line)?;
    Some(((a, b, d), line))
}

/// Returns `v` as the offset of an edge; `None` iff its size exceeds 2^50.
fn edge_offset(v: i128) -> Option<i64>
    ensures { result ≡ kept_if (is_within_bound trace_bound v) v }
{
    if -MAX_EDGE_OFFSET <= v && v <= MAX_EDGE_OFFSET {
        Some(v as i64)
    } else {
        None
    }
}

/// Returns the edge of three numbers; `None` iff one exceeds its bound.
fn written_edge(a: i128, b: i128, d: i128) -> Option<Edge>
    ensures { result ≡ written_edge (trace_of a b d) }
{
    let a = side_of(a)?;
    let b = side_of(b)?;
    let d = edge_offset(d)?;
    Some(Edge { a, b, d })
}

/// Reads an edge.
#[tactic(auto, unfolding(crate::specs::SliceReaders::edge))]
fn edge(line: &[u8]) -> Option<(Edge, &[u8])>
    ensures { option_map front result ≡ edge line.now }
{
    let ((a, b, d), line) = three_numbers(line)?;
    let edge = written_edge(a, b, d)?;
    Some((edge, line))
}

/// Reads a step of a ring: an edge, a space and the point where it ends.
#[tactic(auto, unfolding(crate::specs::SliceReaders::step))]
fn step(line: &[u8]) -> Option<(RingStep, &[u8])>
    ensures { option_map front result ≡ step line.now }
{
    let Some((edge, line)) = edge(line) else {
        return None;
    };
    let Some((end, line)) = spaced_point(line) else {
        return None;
    };
    Some((RingStep { edge, end }, line))
}

/// Reads a space and a step of a ring.
fn spaced_step(line: &[u8]) -> Option<(RingStep, &[u8])>
    ensures { option_map front result ≡ spaced_item step line.now }
{
    step(behind(b" ", line)?)
}

/// Reads a space and a step, and adds the step to `steps`. Returns the rest of `line`.
fn next_step<'a>(steps: &mut RingSteps, line: &'a [u8]) -> Option<&'a [u8]>
    requires { length steps.old < 36 }
    ensures { option_map (λ rest. (steps.new, rest.now)) result ≡ option_map (with_one_more steps.old) (spaced_item step line.now) }
{
    let Some((step, rest)) = spaced_step(line) else {
        return None;
    };
    steps.push(step);
    Some(rest)
}

/// Reads at most 36 steps, each after a space, up to the end of `line`.
fn all_steps(line: &[u8]) -> Option<RingSteps>
    ensures { result ≡ items step 36 line.now }
{
    let mut steps = RingSteps::new();
    let mut rest = line;
    while !rest.is_empty() {
        if steps.items().len() == MAX_STEPS {
            return None;
        }
        rest = next_step(&mut steps, rest)?;
    }
    Some(steps)
}

/// Returns whether a ring may have `n` steps: 3 to 36.
fn is_three_to_36(n: usize) -> bool
    ensures { result ≡ is_three_to_36 n }
{
    3 <= n && n <= 36
}

/// Reads the 3 to 36 steps of a ring, up to the end of `line`.
fn ring_steps(line: &[u8]) -> Option<RingSteps>
    ensures { result ≡ ring_steps line.now }
{
    let Some(steps) = all_steps(line) else {
        return None;
    };
    if is_three_to_36(steps.items().len()) {
        Some(steps)
    } else {
        None
    }
}

/// Returns whether a flat certificate may have `n` terms: 1 to 3.
fn is_one_to_three(n: usize) -> bool
    ensures { result ≡ is_one_to_three n }
{
    1 <= n && n <= 3
}

/// Reads the 1 to 3 terms of a flat certificate, up to the end of `line`.
fn flat_terms(line: &[u8]) -> Option<Outside>
    ensures { result ≡ flat_terms line.now }
{
    let Some(terms) = terms(line) else {
        return None;
    };
    if is_one_to_three(terms.items().len()) {
        Some(terms)
    } else {
        None
    }
}

/// Reads the steps after `ring`.
fn ring(line: &[u8]) -> Option<Slice>
    ensures { option_map slice_shown result ≡ option_map ring (ring_steps line.now) }
{
    Some(Slice::Ring(ring_steps(line)?))
}

/// Reads the terms after `flat`.
fn flat(line: &[u8]) -> Option<Slice>
    ensures { option_map slice_shown result ≡ option_map flat (flat_terms line.now) }
{
    Some(Slice::Flat(flat_terms(line)?))
}

/// Reads a slice from a verdict line, by the word that begins it.
fn slice(line: &[u8]) -> Option<Slice>
    ensures { option_map slice_shown result ≡ slice line.now }
{
    if let Some(rest) = behind(b"= ring", line) {
        return ring(rest);
    }
    if let Some(rest) = behind(b"= flat", line) {
        return flat(rest);
    }
    None
}

/// Reads a slice from `line`, a verdict line without its line end.
///
/// Returns `None` iff `line` is not the one spelling of a slice within its bounds:
///
/// * a ring of 3 to 36 steps; edges with numbers up to 16777216 and an offset up to 2^50; ends in lowest terms and
///   within the bounds of points;
/// * a flat certificate of 1 to 3 multiples of half-spaces.
///
/// Takes no memory, and reads each byte a few times at most, for any line.
pub fn read_slice(line: &[u8]) -> Option<Slice>
    ensures { option_map slice_shown result ≡ slice_read line.now }
{
    slice(line)
}
