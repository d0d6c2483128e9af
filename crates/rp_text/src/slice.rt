//! The text of slices.
ghost use Rattle.rp_reports.specs.Text.{trace_text, step_text, slice_text};
ghost use Rattle.rp_cert.specs.Section.{slice_shown};

use crate::items::{WriteText, write_operands};
use crate::numbers::write_in_parentheses;
use crate::pieces::append_byte;
use rp_cert::{Edge, RingStep, Slice};
use std::alloc::AllocError;

impl WriteText for Edge {
    ghost text = { trace_text };

    fn write_text(&self, out: &mut Vec<u8>) -> Result<(), AllocError> {
        write_in_parentheses(&(self.a as i64), &[self.b as i64, self.d], out)
    }
}

impl WriteText for RingStep {
    ghost text = { step_text };

    fn write_text(&self, out: &mut Vec<u8>) -> Result<(), AllocError> {
        self.edge.write_text(out)?;
        append_byte(b' ', out)?;
        self.end.write_text(out)
    }
}

impl WriteText for Slice {
    ghost text = { λ s. slice_text (slice_shown s) };

    fn write_text(&self, out: &mut Vec<u8>) -> Result<(), AllocError> {
        match self {
            Slice::Ring(steps) => write_operands(b"ring", steps.items(), out),
            Slice::Flat(terms) => write_operands(b"flat", terms.items(), out),
        }
    }
}
