//! A position in a report: the lines still to come, and the number of tests counted.
ghost use Rattle.std.specs.Prelude.{◌≡◌, ◌+◌, ◌≤◌, ◌<◌, ◌++◌, ◌↔◌, true, false, length, IsTrue, IfOk, IfErr};
ghost use Rattle.std.specs.Option.{option_map};
ghost use Rattle.rp_geometry.specs.Geometry.{RationalPoint};
ghost use Rattle.rp_geometry.specs.sets.Shape.{shape_of_cell};
ghost use Rattle.rp_geometry.specs.sets.Sets.{IsNonempty};
ghost use Rattle.rp_geometry.specs.laws.CellLaws.{IsSolution};
ghost use Rattle.rp_semantics.specs.Walk.{most_tests};
ghost use Rattle.rp_reports.specs.Output.{most_report_bytes, report_lines};
ghost use Rattle.rp_reports.specs.Check.{tells_limit, next_proof, next_slice, taken, taken_if, with_no_tests, follow_count, follow_strict, follow_weak};
ghost use Rattle.rp_cert.specs.Lines.{line_of};
ghost use Rattle.rp_cert.specs.Section.{slice_shown};
ghost use Rattle.rp_oracle.specs.Refines.{counted, Refines};
ghost use Rattle.rp_trail.specs.Stops.{IsOfLine, IsNotDue};
ghost use Rattle.rp_trail.specs.Lines.{next_line};

use crate::few::{Few, MOST_FEW, put};
use crate::kept::keep_halves;
use crate::lines::split_line;
use rp_cert::{Proof, Slice, check_inside, check_outside, check_weak};
use rp_oracle::{MAX_TESTS, Stopped};
use rp_space::{Half, joined};
use rp_text::{read_proof, read_slice};
use std::marker::Model;

/// The line that a report has in place of the line that is due, if a limit was met.
const LIMIT_LINE: &[u8] = b"= refused limit";

/// A position in a report: the lines still to come, the number of the next one, and the number of tests that a command
/// has counted, at most 65,536. The bytes of the report are neither copied nor read again.
#[derive(Drop)]
pub struct Trail<'a> {
    /// The next line, without its line end.
    line: Option<&'a [u8]>,
    /// The text after the next line.
    rest: &'a [u8],
    /// The number of the next line; if no line is left, the number of lines plus 1.
    number: u32,
    tests: u32,
}

impl<'a> Model for Trail<'a> {
    ghost use Rattle.std.specs.Prelude.{◌+◌, ◌≤◌, length};
    ghost use Rattle.rp_semantics.specs.Walk.{most_tests};
    ghost use Rattle.rp_reports.specs.Check.{Trail};
    ghost use Rattle.rp_reports.specs.Output.{most_report_bytes};
    ghost use Rattle.rp_trail.specs.Lines.{lines_left, count_next};

    ghost Value = { Trail };

    ghost view = { λ a. record { lines = lines_left a.line a.rest.now; number = a.number; tests = a.tests } };

    ghost invariant = { λ a. (a.tests ≤ most_tests) × (a.number + count_next a.line + length a.rest.now ≤ most_report_bytes + 1) };
}

impl<'a> Trail<'a> {
    /// Returns a trail over the lines of `report`, of at most 67,108,864 bytes, from the first, with no tests. The
    /// lines end at each line feed, and no carriage return is removed; the last line may lack its line feed.
    pub fn new(report: &'a [u8]) -> Trail<'a>
        requires { length report.now ≤ most_report_bytes }
        ensures { result ≡ record { lines = report_lines report.now; number = 1; tests = 0 } }
    {
        let (line, rest) = split_line(report);
        Trail {
            line,
            rest,
            number: 1,
            tests: 0,
        }
    }

    /// Returns a second trail from this position on, to look at the lines after the next one.
    pub fn ahead(&self) -> Trail<'a>
        ensures { result ≡ self.now }
    {
        Trail {
            line: self.line,
            rest: self.rest,
            number: self.number,
            tests: self.tests,
        }
    }

    /// Returns the next line, without its line feed; `None` iff none is left.
    pub fn peek(&self) -> Option<&'a [u8]>
        ensures { option_map (λ line. line.now) result ≡ next_line self.now.lines }
    {
        self.line
    }

    /// Takes the next line, of which there is one.
    pub fn take(&mut self)
        requires { 0 < length self.old.lines }
        ensures { self.new ≡ taken self.old }
    {
        let (line, rest) = split_line(self.rest);
        self.line = line;
        self.rest = rest;
        self.number += 1;
    }

    /// Returns the number of the next line, from 1. If none is left, it is the number of lines plus 1.
    pub fn number(&self) -> u32
        ensures { result ≡ self.now.number }
    {
        self.number
    }

    /// Begins a command: the number of tests becomes 0.
    pub fn begin(&mut self)
        ensures { self.new ≡ with_no_tests self.old }
    {
        self.tests = 0;
    }

    /// Counts `n` more tests. Returns false iff there would be more than 65,536; the count is then as before.
    pub fn count(&mut self, n: u64) -> bool
        ensures { follow_count n self.old ≡ counted result self.new }
    {
        let left = MAX_TESTS - self.tests;
        if n > left as u64 {
            return false;
        }
        self.tests += n as u32;
        true
    }

    /// Takes a strict test of the cell of `first` followed by `second`, at most 64 half-spaces together. Returns
    /// whether the cell has a point. The next line must show it: by points that pass as an inside certificate of the
    /// cell, or multiples that pass as a strict outside certificate. The test is not counted.
    ///
    /// # Errors
    ///
    /// `LimitReported` if the next line reports a limit; `Wrong` if it is any other line, or no line is left. No line is then
    /// taken. `Limit` and `Memory` never.
    pub fn strict(&mut self, first: &[Half], second: &[Half]) -> Result<bool, Stopped>
        requires { length first.now + length second.now ≤ 64 }
        ensures comes { Refines (λ found. found) result self.new (follow_strict (first.now ++ second.now) self.old) }
        ensures right { IfOk result (λ found. IsTrue found ↔ IsNonempty (shape_of_cell (first.now ++ second.now))) }
        ensures line { IfErr result IsOfLine }
    {
        if first.len() + second.len() > MOST_FEW {
            return self.strict_test(joined(first, second).as_slice());
        }
        let mut cell = Few::new();
        put(&mut cell, first);
        put(&mut cell, second);
        self.strict_test(cell.as_slice())
    }

    /// Takes a weak test of the cell of `first` followed by `second`, at most 64 half-spaces together. Returns whether
    /// its weak system has a point. The next line must show it: by a point of the weak system, or multiples that pass
    /// as a weak outside certificate. The test is not counted.
    ///
    /// # Errors
    ///
    /// `LimitReported` if the next line reports a limit; `Wrong` if it is any other line, or no line is left. No line is then
    /// taken. `Limit` and `Memory` never.
    pub fn weak(&mut self, first: &[Half], second: &[Half]) -> Result<bool, Stopped>
        requires { length first.now + length second.now ≤ 64 }
        ensures comes { Refines (λ found. found) result self.new (follow_weak (first.now ++ second.now) self.old) }
        ensures right { IfOk result (λ found. IsTrue found ↔ ((p : RationalPoint) × IsSolution false (first.now ++ second.now) p)) }
        ensures line { IfErr result IsOfLine }
    {
        if first.len() + second.len() > MOST_FEW {
            return self.weak_test(joined(first, second).as_slice());
        }
        let mut cell = Few::new();
        put(&mut cell, first);
        put(&mut cell, second);
        self.weak_test(cell.as_slice())
    }

    /// Takes a strict test of a cell.
    pub(crate) fn strict_test(&mut self, cell: &[Half]) -> Result<bool, Stopped>
        ensures comes { Refines (λ found. found) result self.new (follow_strict cell.now self.old) }
        ensures right { IfOk result (λ found. IsTrue found ↔ IsNonempty (shape_of_cell cell.now)) }
        ensures line { IfErr result IsOfLine }
    {
        keep_halves(cell);
        let Some(proof) = self.next_proof() else {
            return Err(self.nothing_due());
        };
        match proof {
            Proof::In(points) => self.take_if(check_inside(cell, points.items()), true),
            Proof::Out(terms) => self.take_if(check_outside(cell, terms.items(), true), false),
            _ => Err(self.nothing_due()),
        }
    }

    /// Takes a weak test of a cell.
    pub(crate) fn weak_test(&mut self, cell: &[Half]) -> Result<bool, Stopped>
        ensures comes { Refines (λ found. found) result self.new (follow_weak cell.now self.old) }
        ensures right { IfOk result (λ found. IsTrue found ↔ ((p : RationalPoint) × IsSolution false cell.now p)) }
        ensures line { IfErr result IsOfLine }
    {
        keep_halves(cell);
        let Some(proof) = self.next_proof() else {
            return Err(self.nothing_due());
        };
        match proof {
            Proof::At(point) => self.take_if(check_weak(cell, &point), true),
            Proof::Apart(terms) => self.take_if(check_outside(cell, terms.items(), false), false),
            _ => Err(self.nothing_due()),
        }
    }

    /// Returns the next line as a proof line; `None` if it is none, or no line is left.
    pub(crate) fn next_proof(&self) -> Option<Proof>
        ensures { option_map line_of result ≡ next_proof self.now.lines }
    {
        read_proof(self.peek()?)
    }

    /// Returns the slice that the next line shows; `None` if it shows none, or no line is left.
    pub(crate) fn next_slice(&self) -> Option<Slice>
        ensures { option_map slice_shown result ≡ next_slice self.now.lines }
    {
        read_slice(self.peek()?)
    }

    /// Takes the next line and returns `shown`, if `passes`; otherwise `Wrong`.
    pub(crate) fn take_if<T: Drop>(&mut self, passes: bool, shown: T) -> Result<T, Stopped>
        requires { 0 < length self.old.lines }
        ensures comes { Refines (λ x. x) result self.new (taken_if passes shown self.old) }
        ensures line { IfErr result IsOfLine }
    {
        if !passes {
            return Err(Stopped::Wrong);
        }
        self.take();
        Ok(shown)
    }

    /// Returns the reason why a test has no answer when the next line does not fit: it reports a limit, or it is wrong.
    pub(crate) fn nothing_due(&self) -> Stopped
        ensures due { IsNotDue result self.now }
        ensures line { IsOfLine result }
    {
        if self.tells_limit() {
            Stopped::LimitReported
        } else {
            Stopped::Wrong
        }
    }

    /// Returns whether the next line reports a limit: it is `= refused limit`.
    pub fn tells_limit(&self) -> bool
        ensures { result ≡ tells_limit self.now.lines }
    {
        self.line.is_some_and(|line| line == LIMIT_LINE)
    }
}
