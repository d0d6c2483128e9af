//! Reads proof lines.
ghost use Rattle.std.specs.Prelude.{◌≡◌, option_map};
ghost use Rattle.rp_geometry.specs.searches.ProofLine.{in_line, out_line, at_line, apart_line, box_line};
ghost use Rattle.rp_reports.specs.ProofText.{proof_read};
ghost use Rattle.rp_cert.specs.Lines.{line_of};
ghost use Rattle.rp_text.specs.Readers.{few_items, ended, point, term, dropped, box_spelled, proof};

use crate::readers::{behind, block, half_space, point, points, terms};
use rp_cert::Proof;
use rp_space::Point;

/// Reads the points after `in`, which show a member: one to four.
fn inside(line: &[u8]) -> Option<Proof>
    ensures { option_map line_of result ≡ option_map in_line (few_items point line.now) }
{
    Some(Proof::In(points(line)?))
}

/// Reads the terms after `out`, which show that there is no member: one to four.
fn outside(line: &[u8]) -> Option<Proof>
    ensures { option_map line_of result ≡ option_map out_line (few_items term line.now) }
{
    Some(Proof::Out(terms(line)?))
}

/// Reads the point after `at`, which is a point of a weak system.
fn at(line: &[u8]) -> Option<Proof>
    ensures { option_map line_of result ≡ option_map at_line (ended (point line.now)) }
{
    let Some((point, rest)) = point(line) else {
        return None;
    };
    at_alone(point, rest)
}

/// Returns the proof that `point` is a point of a weak system; `None` if text follows it in `rest`.
fn at_alone(point: Point, rest: &[u8]) -> Option<Proof>
    ensures { option_map line_of result ≡ option_map at_line (ended (Some (point, rest.now))) }
{
    if rest.is_empty() {
        Some(Proof::At(point))
    } else {
        None
    }
}

/// Reads the terms after `apart`, which show that a weak system has no point: one to four.
fn apart(line: &[u8]) -> Option<Proof>
    ensures { option_map line_of result ≡ option_map apart_line (few_items term line.now) }
{
    Some(Proof::Apart(terms(line)?))
}

/// Reads the half-space after `drop`, and one to four terms.
#[tactic(auto, unfolding(crate::specs::Readers::dropped))]
fn dropped(line: &[u8]) -> Option<Proof>
    ensures { option_map line_of result ≡ dropped line.now }
{
    let Some((half, line)) = half_space(line) else {
        return None;
    };
    Some(Proof::Dropped(half, terms(line)?))
}

/// Reads the least box after `box`.
fn bounds(line: &[u8]) -> Option<Proof>
    ensures { option_map line_of result ≡ option_map box_line (box_spelled line.now) }
{
    Some(Proof::Bounds(block(line)?))
}

/// Reads a proof line, by the word that begins it.
fn proof(line: &[u8]) -> Option<Proof>
    ensures { option_map line_of result ≡ proof line.now }
{
    if let Some(rest) = behind(b"  in", line) {
        return inside(rest);
    }
    if let Some(rest) = behind(b"  out", line) {
        return outside(rest);
    }
    if let Some(rest) = behind(b"  at ", line) {
        return at(rest);
    }
    if let Some(rest) = behind(b"  apart", line) {
        return apart(rest);
    }
    if let Some(rest) = behind(b"  drop ", line) {
        return dropped(rest);
    }
    if let Some(rest) = behind(b"  box ", line) {
        return bounds(rest);
    }
    None
}

/// Reads a proof line from `line`, a line of a report without its line end.
///
/// Returns `None` iff `line` is not the one spelling of a proof line within its bounds:
///
/// * 1 to 4 points or terms, each multiplier from 1 to 2^75 - 1;
/// * half-spaces and points in lowest terms and within the bounds of their kinds;
/// * boxes with numbers from -16777216 to 16777216.
///
/// Takes no memory, and reads each byte a few times at most, for any line.
pub fn read_proof(line: &[u8]) -> Option<Proof>
    ensures { option_map line_of result ≡ proof_read line.now }
{
    proof(line)
}
