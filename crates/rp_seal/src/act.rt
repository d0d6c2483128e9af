//! An act of a book, as it is sealed.

/// An act of a book with its lines: one entry of the log that a book's seals speak of.
#[derive(Clone, Copy)]
pub struct SealedAct<'a> {
    /// The number of the act.
    pub number: u32,
    /// The number of the act's first line.
    pub first: u32,
    /// The number of the act's last line.
    pub last: u32,
    /// When the act was added.
    pub added: &'a str,
    /// Who added the act, if the book says so.
    pub who: Option<&'a str>,
    /// The deed under which the act was added, if the book says so.
    pub deed: Option<&'a str>,
    /// The act's lines with their line ends.
    pub lines: &'a [u8],
}
