//! The text of half-spaces, points, boxes, multiples and names.
ghost use Rattle.rp_language.specs.Grammar.{spaced, one, box_words};
ghost use Rattle.rp_reports.specs.Text.{half_space_text, point_text, term_text};
ghost use Rattle.rp_space.specs.Boxes.{integer_box};

use crate::items::WriteText;
use crate::numbers::{write_in_parentheses, write_spaced};
use crate::pieces::{append, append_byte};
use rp_lists::Name;
use rp_space::{Half, IntBox, Point, Term};
use std::alloc::AllocError;

impl WriteText for Half {
    ghost text = { half_space_text };

    fn write_text(&self, out: &mut Vec<u8>) -> Result<(), AllocError> {
        let (a, b, c, d) = self.numbers();
        write_in_parentheses(&a, &[b, c, d], out)
    }
}

impl WriteText for Point {
    ghost text = { point_text };

    fn write_text(&self, out: &mut Vec<u8>) -> Result<(), AllocError> {
        let (x, y, z, w) = self.numbers();
        write_in_parentheses(&x, &[y, z, w], out)
    }
}

impl WriteText for IntBox {
    ghost text = { λ b. spaced (box_words one (integer_box b)) };

    fn write_text(&self, out: &mut Vec<u8>) -> Result<(), AllocError> {
        let [x1, y1, z1] = self.lo;
        let [x2, y2, z2] = self.hi;
        write_spaced(&x1, &[y1, z1, x2, y2, z2], out)
    }
}

impl WriteText for Term {
    ghost text = { term_text };

    fn write_text(&self, out: &mut Vec<u8>) -> Result<(), AllocError> {
        self.by.write_text(out)?;
        append_byte(b'*', out)?;
        self.half.write_text(out)
    }
}

impl WriteText for Name {
    ghost text = { λ x. x };

    fn write_text(&self, out: &mut Vec<u8>) -> Result<(), AllocError> {
        append(self.bytes(), out)
    }
}
