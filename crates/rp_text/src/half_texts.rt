//! A cache of half-spaces' texts. Most of a report repeats the half-spaces of few planes; their texts are copied from
//! here.
ghost use Rattle.std.specs.Prelude.{◌≡◌};
ghost use Rattle.rp_reports.specs.Text.{half_space_text};
ghost use Rattle.rp_text.specs.Fronts.{Writes};

use crate::items::WriteText;
use crate::pieces::append;
use arrayvec::ArrayVec;
use rp_space::Half;
use std::alloc::AllocError;
use std::marker::Model;

/// The most bytes of a text that is cached.
const ROOM: usize = 56;

/// The number of entries of the cache.
const PLACES: usize = 64;

/// A half-space with its text; the text is empty if none is cached.
#[derive(Drop)]
struct HalfText {
    half: Half,
    text: ArrayVec<u8, ROOM>,
}

impl Model for HalfText {
    ghost use Rattle.std.specs.Prelude.{ℕ, List};
    ghost use Rattle.rp_geometry.specs.Geometry.{HalfSpace};
    ghost use Rattle.rp_text.specs.HalfTexts.{IsTextOf};

    ghost Value = { HalfSpace × List ℕ };

    ghost view = { λ s. (s.half, s.text.items) };

    ghost invariant = { λ s. IsTextOf s.half s.text.items };
}

impl Default for HalfText {
    /// Returns a half-space without a text.
    fn default() -> HalfText {
        HalfText {
            half: Half::default(),
            text: ArrayVec::new(),
        }
    }
}

impl HalfText {
    /// Appends the text of `half` to `out`, and caches it.
    fn write(&mut self, half: &Half, out: &mut Vec<u8>) -> Result<(), AllocError>
        ensures { Writes result out.old.items out.new.items (half_space_text half.now) }
    {
        if self.half != *half || self.text.is_empty() {
            return self.write_anew(half, out);
        }
        append(self.text.as_slice(), out)
    }

    /// Appends the text of `half` to `out`, and caches it instead of the text that was cached.
    fn write_anew(&mut self, half: &Half, out: &mut Vec<u8>) -> Result<(), AllocError>
        ensures { Writes result out.old.items out.new.items (half_space_text half.now) }
    {
        let from = out.len();
        half.write_text(out)?;
        *self = kept(half, &out[from..]);
        Ok(())
    }
}

/// Returns `half` with its text `text`; with no text if it is longer than 56 bytes.
fn kept(half: &Half, text: &[u8]) -> HalfText
    requires { text.now ≡ half_space_text half.now }
{
    let mut kept = ArrayVec::new();
    // A text without room is not cached; then it is written anew each time.
    let _ = kept.try_extend_from_slice(text);
    HalfText {
        half: *half,
        text: kept,
    }
}

/// A cache of half-spaces' texts. The entry of a half-space is computed from its coefficients and has the last text
/// that was written to it.
#[derive(Drop)]
pub struct HalfTexts {
    texts: ArrayVec<HalfText, PLACES>,
}

impl HalfTexts {
    /// Returns the empty cache.
    pub fn new() -> HalfTexts {
        let mut texts = ArrayVec::new();
        for _ in 0..PLACES {
            texts.push(HalfText::default());
        }
        HalfTexts { texts }
    }

    /// Appends the text of `half` to `out`, and caches it.
    pub(crate) fn write(&mut self, half: &Half, out: &mut Vec<u8>) -> Result<(), AllocError>
        ensures { Writes result out.old.items out.new.items (half_space_text half.now) }
    {
        match self.texts.get_mut(place_of(half)) {
            Some(text) => text.write(half, out),
            None => half.write_text(out),
        }
    }
}

/// Returns the entry of a half-space in the cache.
fn place_of(half: &Half) -> usize {
    let (a, b, c, d) = half.numbers();
    (a * 7 + b * 31 + c * 127 + d).rem_euclid(PLACES as i64) as usize
}
