//! The answer to a line.

use rp_cert::{Proofs, Slice};
use rp_command::Why;
use rp_history::LotLine;
use rp_lists::{Listed, Name, Numbers};
use rp_space::Halves;
use std::alloc::{AllocError, Global};
use std::boxed::Box;

/// The reason why a line is refused.
#[derive(Clone, Copy)]
pub enum Refusal {
    /// The line is no command.
    Bad(Why),
    /// The first name or lot, in reading order, that is not there.
    Unknown(Name),
    /// A new name or id that is there already.
    Known(Name),
    /// An id of the line that occurred before in it.
    Repeated(Name),
    /// A lot that is in another layer than the first lot of the line.
    Layers(Name),
    /// The two new ids are equal.
    Same,
    /// There are fewer than two lots or children.
    Few,
    /// The region has no point.
    Empty,
    /// The work of the line exceeds a limit.
    Limit,
    /// A live lot of the layer that shares a point with the region.
    Overlaps(Name),
    /// The first (1) or the second (2) side of a cut would have no point.
    EmptySide(u8),
    /// The child with this number, from 1, has no point.
    EmptyChild(u32),
    /// The child with this number, from 1, is not within the lot.
    Outside(u32),
    /// Two children, by their numbers from 1, share a point.
    ChildrenOverlap(u32, u32),
    /// A point of the lot is in no child.
    Gap,
    /// The first (1) or the second (2) of two regions has no point.
    EmptyRegion(u8),
}

/// A verdict line.
#[derive(Drop)]
pub enum Verdict {
    /// The answer to the question is yes.
    Yes,
    /// The answer to the question is no.
    No,
    /// The command is done.
    Ok,
    /// Two regions are not in contact.
    DC,
    /// They are in contact and share no point.
    EC,
    /// They share a point, and neither is within the other.
    PO,
    /// They have the same points.
    EQ,
    /// The first is a proper part of the second and touches its outside.
    TPP,
    /// The first is a proper part of the second and does not touch its outside.
    NTPP,
    /// The second is a proper part of the first and touches its outside.
    TPPi,
    /// The second is a proper part of the first and does not touch its outside.
    NTPPi,
    /// The number of pieces; a line for each follows.
    Pieces(u32),
    /// A piece, by the numbers of its parts, from 1.
    Piece(Numbers),
    /// The number of parts; a line for each follows.
    Parts(u32),
    /// A part, by its half-spaces: the points that all of them hold.
    Part(Halves),
    /// The parcel that answers the question, or one of several.
    Parcel(Name),
    /// No parcel has the point.
    Nobody,
    /// The number of neighbours; a line for each follows.
    Neighbours(u32),
    /// No two live parcels share a point; the number of live parcels.
    Clear(u32),
    /// The number of live parcels; a line for each follows.
    Parcels(u32),
    /// The number of lots; a line for each follows.
    Lots(u32),
    /// A lot.
    Lot(LotLine),
    /// The number of parts of the section; a line with a slice of each follows.
    Sections(u32),
    /// The slice of a part at a height. It is boxed, since a slice is large and the other variants are small.
    Slice(Box<Slice>),
    /// The number of steps of a chain; a line for each of its parcels follows.
    Access(u32),
    /// There is no chain.
    NoAccess,
    /// The number of steps to a parcel.
    Level(u32, Name),
    /// The line is refused.
    Refused(Refusal),
}

/// The bytes of a line that are echoed.
pub type Echo = Listed<u8>;

/// The verdict lines of an answer.
pub type Verdicts = Listed<Verdict>;

/// The answer to a line: its number, the echoed bytes, the proof lines of its tests, and the verdicts.
/// A blank line has an answer without verdicts; the echo of a line that is too long is empty.
#[derive(Drop)]
pub struct Answer {
    /// The number of the line in its script, from 1.
    pub n: u32,
    /// The bytes of the line.
    pub echo: Echo,
    /// The proof lines.
    pub proofs: Proofs,
    /// The verdict lines.
    pub verdicts: Verdicts,
}

impl Answer {
    ghost use Rattle.std.specs.Prelude.{◌≡◌, ◌∷◌, [], map, IfOk};
    ghost use Rattle.rp_model.specs.commands.Verdict.{refused, limit};
    ghost use Rattle.rp_reports.specs.Report.{blank_answer};
    ghost use Rattle.rp_cert.specs.Lines.{line_of};
    ghost use Rattle.rp_answer.specs.Views.{verdict_of, answer_of};

    /// Returns the answer to line `n`, which is blank: it has no verdicts and an empty echo.
    pub fn blank(alloc: Global, n: u32) -> Answer
        ensures { answer_of result ≡ blank_answer n }
    {
        Answer {
            n,
            echo: Echo::new(alloc),
            proofs: Proofs::new(alloc),
            verdicts: Verdicts::new(alloc),
        }
    }

    /// Returns the answer to line `n`, with `echo`, whose work exceeds a limit: the verdict refuses it with `limit`,
    /// and there are no proof lines.
    ///
    /// # Errors
    ///
    /// `AllocError` if memory runs out.
    pub fn past_limit(alloc: Global, n: u32, echo: &[u8]) -> Result<Answer, AllocError>
        ensures { IfOk result (λ a. answer_of a ≡ record { number = n; echo = echo.now; proofs = []; verdicts = refused limit ∷ [] }) }
    {
        let verdict = Verdict::Refused(Refusal::Limit);
        Answer::with_verdict(alloc, n, echo, Proofs::new(alloc), verdict)
    }

    /// Returns the answer to line `n`, with `echo`, the lines of `proofs` and the one verdict line of `verdict`.
    ///
    /// # Errors
    ///
    /// `AllocError` if memory runs out.
    pub fn with_verdict(
        alloc: Global,
        n: u32,
        echo: &[u8],
        proofs: Proofs,
        verdict: Verdict,
    ) -> Result<Answer, AllocError>
        ensures { IfOk result (λ a. answer_of a ≡ record { number = n; echo = echo.now; proofs = map line_of proofs.items; verdicts = verdict_of verdict ∷ [] }) }
    {
        let mut verdicts = Verdicts::new(alloc);
        verdicts.push(verdict)?;
        Answer::with_verdicts(alloc, n, echo, proofs, verdicts)
    }

    /// Returns the answer to line `n`, with `echo`, the lines of `proofs` and those of `verdicts`.
    ///
    /// # Errors
    ///
    /// `AllocError` if memory runs out.
    pub fn with_verdicts(
        alloc: Global,
        n: u32,
        echo: &[u8],
        proofs: Proofs,
        verdicts: Verdicts,
    ) -> Result<Answer, AllocError>
        ensures { IfOk result (λ a. answer_of a ≡ record { number = n; echo = echo.now; proofs = map line_of proofs.items; verdicts = map verdict_of verdicts.items }) }
    {
        let echo = Echo::copy_of(alloc, echo)?;
        Ok(Answer {
            n,
            echo,
            proofs,
            verdicts,
        })
    }
}
