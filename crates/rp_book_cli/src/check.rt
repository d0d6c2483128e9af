//! Proofs that are checked without a book.

use crate::fault::Fault;
use crate::seal_fault::{SealFault, Text};
use crate::seal_text::{found_text, read_text, seal_in};
use rp_book_service::Stop;
use rp_seal_text::{read_act_proof, read_link};
use rp_sealed_book::{check_act, check_link};

/// What is checked: the paths of the files.
#[derive(Clone, Copy)]
pub enum Check<'a> {
    /// An act, by its proof and the seal of a book.
    Act {
        proof: &'a str,
        seal: &'a str,
    },
    /// A link between the seals of two books.
    Link {
        old: &'a str,
        new: &'a str,
        link: &'a str,
    },
}

/// Reads the words of a check; `None` if they are those of a book.
pub fn check_of(words: &[String]) -> Option<Check<'_>> {
    match words {
        [word, proof, seal] if word.as_str() == "check-act" => Some(Check::Act {
            proof: proof.as_str(),
            seal: seal.as_str(),
        }),
        [word, old, new, link] if word.as_str() == "check-link" => Some(Check::Link {
            old: old.as_str(),
            new: new.as_str(),
            link: link.as_str(),
        }),
        _ => None,
    }
}

/// Writes that the register of the seal at `seal` has the act of the proof at `proof`.
fn write_act_checked(rt: &HostRuntime, proof: &str, seal: &str) -> Result<(), Fault> {
    let proof = read_text(rt, proof, Text::Proof)?;
    let proof = found_text(read_act_proof(rt.alloc(), &proof), Text::Proof)?;
    let seal = read_text(rt, seal, Text::Seal)?;
    let seal = seal_in(rt.alloc(), &seal)?;
    if !check_act(rt.alloc(), &proof, &seal).map_err(Stop::Memory)? {
        return Err(Fault::Seal(SealFault::NotIncluded));
    }
    let number = proof.act.number;
    let size = seal.size;
    let done = println!(rt; "accepted act {number} of {size}");
    done.map_err(|_| Fault::Stopped(Stop::Put))
}

/// Writes that the register of the seal at `new` continues that of the seal at `old`, by the link at `link`.
fn write_link_checked(rt: &HostRuntime, old: &str, new: &str, link: &str) -> Result<(), Fault> {
    let old = read_text(rt, old, Text::Seal)?;
    let old = seal_in(rt.alloc(), &old)?;
    let new = read_text(rt, new, Text::Seal)?;
    let new = seal_in(rt.alloc(), &new)?;
    if old.origin.as_str() != new.origin.as_str() {
        return Err(Fault::Seal(SealFault::OtherOrigin));
    }
    let link = read_text(rt, link, Text::Link)?;
    let link = found_text(read_link(rt.alloc(), &link), Text::Link)?;
    if !check_link(&old, &new, &link) {
        return Err(Fault::Seal(SealFault::NotContinued));
    }
    let from = old.size;
    let to = new.size;
    let done = println!(rt; "accepted {from} of {to} acts");
    done.map_err(|_| Fault::Stopped(Stop::Put))
}

/// Writes that a check holds.
///
/// # Errors
/// `Seal` if it does not, or if a file is not read as what it is to be.
pub fn write_checked(rt: &HostRuntime, check: Check<'_>) -> Result<(), Fault> {
    match check {
        Check::Act { proof, seal } => write_act_checked(rt, proof, seal),
        Check::Link { old, new, link } => write_link_checked(rt, old, new, link),
    }
}
