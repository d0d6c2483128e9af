//! Layers that words name, and what standard error says of layers.

use crate::fault::Fault;
use rp_book::{Act, Book};
use rp_book_service::history::act_of_line;
use rp_book_service::{Addition, Choice, Inherited, last_choice};
use rp_lists::Name;
use rp_scripts::next_line;
use std::{fmt, io, str};

/// Returns `word`, which is to be a layer.
///
/// # Errors
/// `NoLayer` if `word` is no name.
pub fn layer_of(word: &str) -> Result<&str, Fault> {
    match Name::new(word.as_bytes()) {
        Some(_) => Ok(word),
        None => Err(Fault::NoLayer),
    }
}

/// Returns the name of a layer, if one is named.
pub fn name_of(layer: Option<&str>) -> Option<Name> {
    Name::new(layer?.as_bytes())
}

/// Returns the text of a name, which has letters, digits, `_`, `-` and `.` alone.
fn text_of(name: &Name) -> &str {
    str::from_utf8(name.bytes()).unwrap_or("")
}

/// A layer, the line that chose it, and the act of that line.
#[derive(Clone, Copy)]
struct Chosen<'a> {
    choice: Choice,
    act: Option<&'a Act>,
}

impl fmt::Display for Chosen<'_> {
    fn fmt<W: fmt::Write>(&self, f: &mut fmt::Formatter<W>) -> fmt::Result {
        let layer = text_of(&self.choice.layer);
        let line = self.choice.line;
        write!(f, "layer {layer}, which line {line} chose")?;
        let Some(act) = self.act else {
            return Ok(());
        };
        let added = act.added.as_str();
        write!(f, " (added {added} UTC")?;
        if let Some(who) = &act.who {
            let who = who.as_str();
            write!(f, " by {who}")?;
        }
        f.write_str(")")
    }
}

/// Returns a choice of a layer in `book`, with its act.
fn chosen_in<B: Book>(book: &B, choice: Choice) -> Chosen<'_> {
    Chosen {
        choice,
        act: act_of_line(book.acts(), choice.line),
    }
}

/// Says on standard error which `layers` were chosen for the first time.
fn tell_new(rt: &impl Eprint, layers: &[Name]) -> io::Result<()> {
    for layer in layers {
        let name = text_of(layer);
        eprintln!(rt;
            "rpstore-book: layer {name} is named here for the first time; a mistyped one would be new too"
        )?;
    }
    Ok(())
}

/// Says on standard error in which layer a lot was registered that an earlier act of `book` chose.
fn tell_inherited<B: Book>(rt: &impl Eprint, book: &B, inherited: Inherited) -> io::Result<()> {
    let line = inherited.line;
    let chosen = chosen_in(book, inherited.choice);
    eprintln!(rt;
        "rpstore-book: line {line} registers in {chosen}; to choose the layer of an act: add --layer LAYER"
    )
}

/// Says on standard error what lines that were added to `book` do with layers, where the lines themselves do not say
/// it.
pub fn tell_addition<B: Book>(rt: &impl Eprint, book: &B, addition: &Addition) -> io::Result<()> {
    if let Some(inherited) = addition.inherited {
        tell_inherited(rt, book, inherited)?;
    }
    tell_new(rt, &addition.layers)
}

/// Says on standard error in which layer a question was asked that names none: the last that `book` chooses.
fn tell_last<B: Book>(rt: &impl Eprint, book: &B) -> io::Result<()> {
    match last_choice(book.text()) {
        Some(choice) => {
            let chosen = chosen_in(book, choice);
            eprintln!(rt;
                "rpstore-book: asked in {chosen}; to ask in another: asof DATE LAYER X Y Z W"
            )
        }
        None => eprintln!(rt;
            "rpstore-book: asked in layer base, since no line chooses one; to ask in another: asof DATE LAYER X Y Z W"
        ),
    }
}

/// Returns whether a line of `script` chooses `layer`, or the script begins in it.
fn has_layer(script: &[u8], layer: &str) -> bool {
    if layer == "base" {
        return true;
    }
    let mut rest = script;
    while let Some((line, behind)) = next_line(rest) {
        if let Some(name) = line.strip_prefix(b"layer ".as_slice()) {
            if name == layer.as_bytes() {
                return true;
            }
        }
        rest = behind;
    }
    false
}

/// Says on standard error in which layer of `book` a question was asked, if it names none, and that the book does not
/// have the layer that it names.
pub fn tell_asked<B: Book>(rt: &impl Eprint, book: &B, layer: Option<&str>) -> io::Result<()> {
    match layer {
        None => tell_last(rt, book),
        Some(layer) if has_layer(book.text(), layer) => Ok(()),
        Some(layer) => eprintln!(rt;
            "rpstore-book: no line of the book chooses layer {layer}, so nothing is in it; is it mistyped?"
        ),
    }
}
