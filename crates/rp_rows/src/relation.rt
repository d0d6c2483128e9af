//! The relation of two forms.
ghost use Rattle.std.specs.Prelude.{◌≡◌};
ghost use Rattle.rp_model.specs.commands.Verdict.{Verdict as ModelVerdict};
ghost use Rattle.rp_model.specs.commands.Rcc.{row_relation};
ghost use Rattle.rp_eval.specs.Relations.{relation_of};
ghost use Rattle.rp_answer.specs.Views.{verdict_of};
ghost use Rattle.rp_answer.specs.Replies.{Tells};

use rp_answer::{Refusal, RowEnd, Verdict, Verdicts, one_line};
use rp_eval::{Rcc8, found_relation};
use rp_oracle::Oracle;
use std::alloc::Global;

/// Returns the verdict line of the relation of `a` to `b`. Refuses the first of the two that has no part.
pub(crate) fn relation<T: Oracle>(
    alloc: Global,
    a: &T::Form,
    b: &T::Form,
    tests: &mut T,
) -> Result<Verdicts, RowEnd>
    ensures { Tells result tests.new (row_relation T.tester (T.parts_of a.now) (T.parts_of b.now) tests.old) }
{
    if T::parts(a).is_empty() {
        return Err(RowEnd::Refused(Refusal::EmptyRegion(1)));
    }
    if T::parts(b).is_empty() {
        return Err(RowEnd::Refused(Refusal::EmptyRegion(2)));
    }
    let relation = found_relation(alloc, a, b, tests)?;
    Ok(one_line(alloc, relation_verdict(relation))?)
}

/// Returns the verdict of a relation.
fn relation_verdict(relation: Rcc8) -> Verdict
    ensures { verdict_of result ≡ ModelVerdict.relation (relation_of relation) }
{
    match relation {
        Rcc8::DC => Verdict::DC,
        Rcc8::EC => Verdict::EC,
        Rcc8::PO => Verdict::PO,
        Rcc8::EQ => Verdict::EQ,
        Rcc8::TPP => Verdict::TPP,
        Rcc8::NTPP => Verdict::NTPP,
        Rcc8::TPPi => Verdict::TPPi,
        Rcc8::NTPPi => Verdict::NTPPi,
    }
}
