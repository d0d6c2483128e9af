//! Why a seal, or a text that goes with one, does not show what is asked.

/// A text that goes with a seal.
#[derive(Clone, Copy)]
pub enum Text {
    /// The seal itself.
    Seal,
    /// An act with the proof that a sealed register has it.
    Proof,
    /// The proof that one sealed register continues another.
    Link,
    /// The acts of a book, from standard input.
    Acts,
}

/// Why a seal, or a text that goes with one, does not show what is asked. The book is as it was.
#[derive(Clone, Copy)]
pub enum SealFault {
    /// The origin of a seal is empty.
    NoOrigin,
    /// The word is no number of an act.
    NoNumber,
    /// The file cannot be read.
    Unread(Text),
    /// The file has another text.
    Other(Text),
    /// The book does not begin with the sealed acts.
    Differs,
    /// The two seals have different origins.
    OtherOrigin,
    /// The proof does not lead from the act to the seal.
    NotIncluded,
    /// The link does not lead from the old seal to the new one.
    NotContinued,
    /// The book has fewer acts than were sealed.
    Shorter,
    /// The book has no act with the number.
    NoAct,
    /// The acts of another book do not continue the book.
    NoContinuation,
}

/// Returns what is said of a file that cannot be read.
fn unread_message(text: Text) -> &'static str {
    match text {
        Text::Seal =>
            "the file of the seal cannot be read, so nothing was written: look at its path, and ask who may read it",
        Text::Proof =>
            "the file of the proof cannot be read, so nothing was written: look at its path, and ask who may read it",
        Text::Link =>
            "the file of the link cannot be read, so nothing was written: look at its path, and ask who may read it",
        Text::Acts =>
            "the input could not be read; the book is as it was: name a file that you may read after '<'",
    }
}

/// Returns what is said of a file that has another text.
fn other_message(text: Text) -> &'static str {
    match text {
        Text::Seal => {
            "the file is no seal, and nothing was accepted: a seal begins with three lines, the origin, the number of acts and the root hash in base64"
        }
        Text::Proof => {
            "the file is no proof of an act, or a byte of it was changed, and nothing was accepted: ask for the file that 'prove' wrote"
        }
        Text::Link => {
            "the file is no link, or a byte of it was changed, and nothing was accepted: ask for the file that 'link' wrote"
        }
        Text::Acts => {
            "the input is no stream of acts, or it was cut off or changed; the book is as it was: ask for what 'acts' wrote"
        }
    }
}

/// Returns what is said of a fault.
pub fn seal_message(fault: SealFault) -> &'static str {
    match fault {
        SealFault::NoOrigin => {
            "the origin of a seal is the name of the register, as example.org/town; nothing was written"
        }
        SealFault::NoNumber => {
            "an act is named by its number, as 117, from 1 on; nothing was written"
        }
        SealFault::Unread(text) => unread_message(text),
        SealFault::Other(text) => other_message(text),
        SealFault::Differs => {
            "refused: the book does not begin with the sealed acts. An act was changed, or the seal is of another book"
        }
        SealFault::OtherOrigin => {
            "refused: the seals have different origins, so they are of two registers: take two seals of one register"
        }
        SealFault::NotIncluded => {
            "refused: the proof does not lead from this act to this seal. A proof fits the seal of as many acts as its line 'size' says"
        }
        SealFault::NotContinued => {
            "refused: the link does not lead from the old seal to the new one. A link fits the seals of as many acts as its lines 'from' and 'to' say"
        }
        SealFault::Shorter => {
            "refused: the book has fewer acts than were sealed. It is an older copy, or the seal is of another book"
        }
        SealFault::NoAct =>
            "the book has no act with this number, so nothing was written: 'size' says how many it has",
        SealFault::NoContinuation => {
            "refused: the acts do not continue the book, which is as it was: ask the other book for 'acts N', where N is one more than the acts that 'size' says"
        }
    }
}

/// Returns the status of a fault.
pub fn seal_status(fault: SealFault) -> u8 {
    match fault {
        SealFault::NoOrigin | SealFault::NoNumber => 2,
        SealFault::Unread(_) => 3,
        SealFault::Differs
        | SealFault::OtherOrigin
        | SealFault::NotIncluded
        | SealFault::NotContinued
        | SealFault::NoContinuation => 12,
        SealFault::Other(_) => 13,
        SealFault::Shorter | SealFault::NoAct => 14,
    }
}
