//! The answer to a line of a script as the lines of its report.
ghost use Rattle.std.specs.Prelude.{◌≡◌, ◌≤◌, [], ◌∷◌, ◌++◌, IfErr, IfOk, OnErr, OnOk};
ghost use Rattle.std.specs.List.{list_any};
ghost use Rattle.rp_io.specs.Bytes.{Appends, AppendsPrefix};
ghost use Rattle.rp_cert.specs.Lines.{line_of};
ghost use Rattle.rp_answer.specs.Views.{answer_of};
ghost use Rattle.rp_reports.specs.Output.{is_refused_line};
ghost use Rattle.rp_reports.specs.Text.{answer_lines, line_end, proof_text, proof_texts, text_of_lines};
ghost use Rattle.rp_text.specs.LineTexts.{lines_text};
ghost use Rattle.rp_scripts.specs.Output.{HasOutputCause};

use crate::fault::OutputFault;
use crate::refusal::has_refusal;
use rp_answer::Answer;
use rp_cert::Proof;
use rp_io::Sink;
use rp_text::{Echo, HalfTexts, WriteText, write_line, write_proof};

/// Puts the report lines of `answer` to `sink`, and where `brief` those without the proof lines; `text` is a buffer for
/// one of them. Answers whether one of them is a refusal; `Put` only where a put failed, `Memory` only for want of
/// memory, and then a front of these lines was put.
pub fn put_answer<K: Sink>(
    answer: &Answer,
    brief: bool,
    text: &mut Vec<u8>,
    sink: &mut K,
) -> Result<bool, OutputFault>
    ensures counts { K.faults sink.old ≤ K.faults sink.new }
    ensures put { OnOk result (Appends (K.said sink.old) (K.said sink.new)
        (text_of_lines (answer_lines brief (answer_of answer.now)))) }
    ensures refused { IfOk result (λ refused. refused ≡ list_any is_refused_line (answer_lines brief (answer_of answer.now))) }
    ensures front { OnErr result (AppendsPrefix (K.said sink.old) (K.said sink.new)
        (text_of_lines (answer_lines brief (answer_of answer.now)))) }
    ensures cause { IfErr result (HasOutputCause (K.faults sink.old) (K.faults sink.new)) }
{
    if !answer.verdicts.items().is_empty() {
        let echo = Echo {
            number: answer.n,
            line: answer.echo.items(),
        };
        put_line(&echo, text, sink)?;
        put_proofs(told_proofs(answer, brief), text, sink)?;
        put_each(answer.verdicts.items(), text, sink)?;
    }
    Ok(has_refusal(answer))
}

/// Returns the proof lines that a report tells: none where it is brief.
fn told_proofs(answer: &Answer, brief: bool) -> &[Proof]
    ensures { lines_text (λ p. proof_text (line_of p)) result.now ≡ text_of_lines (proof_texts brief (answer_of answer.now).proofs) }
{
    if brief { &[] } else { answer.proofs.items() }
}

/// Puts proof lines, one put for each. The texts of half-spaces are kept between them.
fn put_proofs<K: Sink>(
    proofs: &[Proof],
    text: &mut Vec<u8>,
    sink: &mut K,
) -> Result<(), OutputFault>
    ensures counts { K.faults sink.old ≤ K.faults sink.new }
    ensures put { OnOk result (Appends (K.said sink.old) (K.said sink.new) (lines_text (λ p. proof_text (line_of p)) proofs.now)) }
    ensures front { OnErr result (AppendsPrefix (K.said sink.old) (K.said sink.new) (lines_text (λ p. proof_text (line_of p)) proofs.now)) }
    ensures cause { IfErr result (HasOutputCause (K.faults sink.old) (K.faults sink.new)) }
{
    if proofs.is_empty() {
        return Ok(());
    }
    let mut texts = HalfTexts::new();
    for proof in proofs {
        put_proof(proof, &mut texts, text, sink)?;
    }
    Ok(())
}

/// Puts one proof line with its line end.
fn put_proof<K: Sink>(
    proof: &Proof,
    texts: &mut HalfTexts,
    text: &mut Vec<u8>,
    sink: &mut K,
) -> Result<(), OutputFault>
    ensures counts { K.faults sink.old ≤ K.faults sink.new }
    ensures put { OnOk result (Appends (K.said sink.old) (K.said sink.new) (proof_text (line_of proof.now) ++ line_end ∷ [])) }
    ensures front { OnErr result (AppendsPrefix (K.said sink.old) (K.said sink.new) (proof_text (line_of proof.now) ++ line_end ∷ [])) }
    ensures cause { IfErr result (HasOutputCause (K.faults sink.old) (K.faults sink.new)) }
{
    text.clear();
    write_proof(proof, texts, text)?;
    sink.put(text)?;
    Ok(())
}

/// Puts several lines, one put for each.
fn put_each<T: WriteText, K: Sink>(
    lines: &[T],
    text: &mut Vec<u8>,
    sink: &mut K,
) -> Result<(), OutputFault>
    ensures counts { K.faults sink.old ≤ K.faults sink.new }
    ensures put { OnOk result (Appends (K.said sink.old) (K.said sink.new) (lines_text T.text lines.now)) }
    ensures front { OnErr result (AppendsPrefix (K.said sink.old) (K.said sink.new) (lines_text T.text lines.now)) }
    ensures cause { IfErr result (HasOutputCause (K.faults sink.old) (K.faults sink.new)) }
{
    for line in lines {
        put_line(line, text, sink)?;
    }
    Ok(())
}

/// Puts one line with its line end.
fn put_line<T: WriteText, K: Sink>(
    line: &T,
    text: &mut Vec<u8>,
    sink: &mut K,
) -> Result<(), OutputFault>
    ensures counts { K.faults sink.old ≤ K.faults sink.new }
    ensures put { OnOk result (Appends (K.said sink.old) (K.said sink.new) (T.text line.now ++ line_end ∷ [])) }
    ensures front { OnErr result (AppendsPrefix (K.said sink.old) (K.said sink.new) (T.text line.now ++ line_end ∷ [])) }
    ensures cause { IfErr result (HasOutputCause (K.faults sink.old) (K.faults sink.new)) }
{
    text.clear();
    write_line(line, text)?;
    sink.put(text)?;
    Ok(())
}
