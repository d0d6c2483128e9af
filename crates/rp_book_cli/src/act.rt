//! What the words ask for.

use crate::date::date_of;
use crate::fault::Fault;
use crate::layers::layer_of;
use crate::seal_fault::SealFault;
use rp_command::Version;

/// How lines are added: in which layer if one is named, by whom and under which deed, and how their answers are
/// written.
#[derive(Clone, Copy)]
pub struct Options<'a> {
    pub layer: Option<&'a str>,
    pub who: Option<&'a str>,
    pub deed: Option<&'a str>,
    /// The answers are written without their proof lines.
    pub brief: bool,
}

/// What is read from a book.
#[derive(Clone, Copy)]
pub enum Query<'a> {
    /// The answers to questions.
    Ask,
    /// What became of a lot, with the acts.
    History(&'a str),
    /// Whose a place was on a date, in a layer if one is named.
    AsOf {
        date: &'a str,
        layer: Option<&'a str>,
        place: &'a [String],
    },
    /// The script.
    Script,
    /// The report.
    Report,
    /// How full the book is.
    Size,
    /// The number of the last line that was added on the date or before.
    Line(&'a str),
    /// The seal of the acts, under an origin.
    Seal(&'a str),
    /// A comparison of the book with the seal in a file.
    Verify(&'a str),
    /// An act, with the proof that the book has it.
    Prove(u32),
    /// The proof that the book continues the acts of the seal in a file.
    Link(&'a str),
    /// The acts from a number on.
    Acts(u32),
}

/// What is done with a book.
#[derive(Clone, Copy)]
pub enum Act<'a> {
    /// Makes a book of a version. One of version 1 has no act yet.
    New(Version),
    /// Adds lines.
    Add(Options<'a>),
    /// Copies the acts to a new book at a path.
    Copy(&'a str),
    /// Adds the acts that another book wrote.
    Replay,
    /// Writes what is read from the book.
    Read(Query<'a>),
}

/// Reads the options of `add`, in any order, each at most once. Returns them with the words after them.
fn options_of(words: &[String]) -> Result<(Options<'_>, &[String]), Fault> {
    let mut options = Options {
        layer: None,
        who: None,
        deed: None,
        brief: false,
    };
    let mut rest = words;
    while let Some((word, more)) = rest.split_first() {
        match word.as_str() {
            "--brief" if !options.brief => {
                options.brief = true;
                rest = more;
            }
            "--layer" if options.layer.is_none() => {
                let Some((layer, more)) = more.split_first() else {
                    return Err(Fault::Unlisted);
                };
                options.layer = Some(layer_of(layer.as_str())?);
                rest = more;
            }
            _ => break,
        }
    }
    Ok((options, rest))
}

/// Reads the words after `add`. No WHO and no DEED begins with `--`, so that a mistyped option is never kept as a name.
fn add_of(words: &[String]) -> Result<Act<'_>, Fault> {
    let (options, rest) = options_of(words)?;
    if rest.iter().any(|word| word.as_str().starts_with("--")) {
        return Err(Fault::Unlisted);
    }
    let (who, deed) = match rest {
        [] => (None, None),
        [who] => (Some(who.as_str()), None),
        [who, deed] => (Some(who.as_str()), Some(deed.as_str())),
        _ => return Err(Fault::Unlisted),
    };
    Ok(Act::Add(Options {
        who,
        deed,
        ..options
    }))
}

/// Reads the words after `asof`: a date, a layer if there are six words, and the four words of a point.
fn as_of_of(words: &[String]) -> Result<Act<'_>, Fault> {
    let (date, layer, place) = match words {
        [date, place @ ..] if place.len() == 4 => (date, None, place),
        [date, layer, place @ ..] if place.len() == 4 => (date, Some(layer.as_str()), place),
        _ => return Err(Fault::Unlisted),
    };
    let date = date_of(date.as_str())?;
    let layer = match layer {
        Some(layer) => Some(layer_of(layer)?),
        None => None,
    };
    Ok(Act::Read(Query::AsOf { date, layer, place }))
}

/// Reads a word with none after it.
fn act_of_one(word: &str) -> Result<Act<'_>, Fault> {
    match word {
        "new" => Ok(Act::New(Version::Two)),
        "ask" => Ok(Act::Read(Query::Ask)),
        "script" => Ok(Act::Read(Query::Script)),
        "report" => Ok(Act::Read(Query::Report)),
        "size" => Ok(Act::Read(Query::Size)),
        "acts" => Ok(Act::Read(Query::Acts(1))),
        "replay" => Ok(Act::Replay),
        _ => Err(Fault::Unlisted),
    }
}

/// Reads the number of an act, which is at least 1.
fn number_of(word: &str) -> Result<u32, Fault> {
    match word.parse() {
        Ok(0) | Err(_) => Err(Fault::Seal(SealFault::NoNumber)),
        Ok(number) => Ok(number),
    }
}

/// Reads a word about seals and acts with another after it.
fn seal_query<'a>(word: &str, next: &'a str) -> Result<Query<'a>, Fault> {
    match word {
        "seal" if next.is_empty() => Err(Fault::Seal(SealFault::NoOrigin)),
        "seal" => Ok(Query::Seal(next)),
        "verify" => Ok(Query::Verify(next)),
        "prove" => Ok(Query::Prove(number_of(next)?)),
        "link" => Ok(Query::Link(next)),
        "acts" => Ok(Query::Acts(number_of(next)?)),
        _ => Err(Fault::Unlisted),
    }
}

/// Reads a word with another after it.
fn act_of_two<'a>(word: &str, next: &'a str) -> Result<Act<'a>, Fault> {
    match (word, next) {
        ("new", "1") => Ok(Act::New(Version::One)),
        ("copy", _) => Ok(Act::Copy(next)),
        ("history", _) => Ok(Act::Read(Query::History(next))),
        ("line", _) => Ok(Act::Read(Query::Line(date_of(next)?))),
        _ => Ok(Act::Read(seal_query(word, next)?)),
    }
}

/// Reads the words after the name of the file.
fn act_after<'a>(word: &'a str, rest: &'a [String]) -> Result<Act<'a>, Fault> {
    match (word, rest) {
        ("add", _) => add_of(rest),
        ("asof", _) => as_of_of(rest),
        (_, []) => act_of_one(word),
        (_, [next]) => act_of_two(word, next.as_str()),
        _ => Err(Fault::Unlisted),
    }
}

/// Returns the file that words name, and what they ask for.
///
/// # Errors
/// `Unlisted` if the words are none of the listed ones; `NoDate` or `NoDay` if a word is no date; `NoLayer` if a word is no layer;
/// `Seal` if a word is no origin or no number of an act.
pub fn act_of(words: &[String]) -> Result<(&str, Act<'_>), Fault> {
    let [path, word, rest @ ..] = words else {
        return Err(Fault::Unlisted);
    };
    let act = act_after(word.as_str(), rest)?;
    Ok((path.as_str(), act))
}
