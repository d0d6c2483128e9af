//! The text of proof lines. The texts of half-spaces are cached, since most occur again.
ghost use Rattle.std.specs.Prelude.{[], ◌∷◌, ◌++◌, codes, map};
ghost use Rattle.rp_language.specs.Grammar.{space};
ghost use Rattle.rp_reports.specs.Text.{half_space_text, term_text, items_text, line_end, proof_text, proof_texts, text_of_lines};
ghost use Rattle.rp_cert.specs.Lines.{line_of};
ghost use Rattle.rp_text.specs.Fronts.{Writes};
ghost use Rattle.rp_text.specs.LineTexts.{lines_text};

use crate::half_texts::HalfTexts;
use crate::items::{WriteText, write_operand, write_operands};
use crate::pieces::{append, append_byte};
use rp_cert::Proof;
use rp_space::{Half, Term};
use std::alloc::AllocError;

/// Appends a multiple of a half-space: the multiplier, `*` and the half-space.
fn write_term(term: &Term, texts: &mut HalfTexts, out: &mut Vec<u8>) -> Result<(), AllocError>
    ensures { Writes result out.old.items out.new.items (term_text term.now) }
{
    term.by.write_text(out)?;
    append_byte(b'*', out)?;
    texts.write(&term.half, out)
}

/// Appends a space and a multiple of a half-space.
fn write_spaced_term(
    term: &Term,
    texts: &mut HalfTexts,
    out: &mut Vec<u8>,
) -> Result<(), AllocError>
    ensures { Writes result out.old.items out.new.items (space ∷ term_text term.now) }
{
    append_byte(b' ', out)?;
    write_term(term, texts, out)
}

/// Appends multiples of half-spaces, each after a space.
fn write_terms(terms: &[Term], texts: &mut HalfTexts, out: &mut Vec<u8>) -> Result<(), AllocError>
    ensures { Writes result out.old.items out.new.items (items_text term_text terms.now) }
{
    for term in terms {
        write_spaced_term(term, texts, out)?;
    }
    Ok(())
}

/// Appends `word` and multiples of half-spaces, each after a space.
fn write_word_terms(
    word: &[u8],
    terms: &[Term],
    texts: &mut HalfTexts,
    out: &mut Vec<u8>,
) -> Result<(), AllocError>
    ensures { Writes result out.old.items out.new.items (word.now ++ items_text term_text terms.now) }
{
    append(word, out)?;
    write_terms(terms, texts, out)
}

/// Appends the proof line of a half-space that is dropped: `half`, and the multiples `terms` of others.
fn write_dropped(
    half: &Half,
    terms: &[Term],
    texts: &mut HalfTexts,
    out: &mut Vec<u8>,
) -> Result<(), AllocError>
    ensures { Writes result out.old.items out.new.items (codes "  drop " ++ half_space_text half.now ++ items_text term_text terms.now) }
{
    append(b"  drop ", out)?;
    texts.write(half, out)?;
    write_terms(terms, texts, out)
}

/// Appends the text of a proof line, without a line end.
fn write_proof_text(
    proof: &Proof,
    texts: &mut HalfTexts,
    out: &mut Vec<u8>,
) -> Result<(), AllocError>
    ensures { Writes result out.old.items out.new.items (proof_text (line_of proof.now)) }
{
    match proof {
        Proof::In(points) => write_operands(b"  in", points.items(), out),
        Proof::Out(terms) => write_word_terms(b"  out", terms.items(), texts, out),
        Proof::At(point) => write_operand(b"  at", point, out),
        Proof::Apart(terms) => write_word_terms(b"  apart", terms.items(), texts, out),
        Proof::Dropped(half, terms) => write_dropped(half, terms.items(), texts, out),
        Proof::Bounds(block) => write_operand(b"  box", block, out),
    }
}

/// Appends the line of `proof` to `out`, with a line end. The texts of its half-spaces are copied from the cache
/// `texts`, and others are added to it.
///
/// # Errors
///
/// `AllocError` if memory runs out. `out` then has what it had, and a prefix of the text.
pub fn write_proof(
    proof: &Proof,
    texts: &mut HalfTexts,
    out: &mut Vec<u8>,
) -> Result<(), AllocError>
    ensures { Writes result out.old.items out.new.items (proof_text (line_of proof.now) ++ line_end ∷ []) }
{
    write_proof_text(proof, texts, out)?;
    append_byte(b'\n', out)
}

/// Appends proof lines, each with a line end.
fn write_proofs(proofs: &[Proof], out: &mut Vec<u8>) -> Result<(), AllocError>
    ensures { Writes result out.old.items out.new.items (lines_text (λ p. proof_text (line_of p)) proofs.now) }
{
    let mut texts = HalfTexts::new();
    for proof in proofs {
        write_proof(proof, &mut texts, out)?;
    }
    Ok(())
}

/// Appends the proof lines of an answer, each with a line end; none if the report is `brief`.
pub(crate) fn write_told_proofs(
    proofs: &[Proof],
    brief: bool,
    out: &mut Vec<u8>,
) -> Result<(), AllocError>
    ensures { Writes result out.old.items out.new.items (text_of_lines (proof_texts brief (map line_of proofs.now))) }
{
    if brief {
        return Ok(());
    }
    write_proofs(proofs, out)
}
