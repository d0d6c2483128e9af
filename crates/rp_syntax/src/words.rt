//! The words of a line, read from left to right.
ghost use Rattle.std.specs.Prelude.{◌≡◌, ◌∷◌};
ghost use Rattle.std.specs.List.{position};
ghost use Rattle.rp_language.specs.Grammar.{words_of, next_word, end_of_line, count_node, name};
ghost use Rattle.rp_syntax.specs.Places.{is_space, words_left};
ghost use Rattle.rp_syntax.specs.Reads.{Reads};

use crate::fault::ReadFault;
use rp_command::Why;
use rp_lists::Name;
use std::marker::Model;

/// The most nodes that the expressions of a line may have together.
const MAX_NODES: u32 = 1024;

/// Returns the index of the first space.
fn space_in(text: &[u8]) -> Option<usize>
    ensures { result ≡ position is_space text.now }
{
    text.iter().position(|byte| *byte == b' ')
}

/// Splits a text at its first space. Returns the word before the space and, if there is a space, the text after it.
fn split_word(text: &[u8]) -> (&[u8], Option<&[u8]>)
    ensures { words_of text.now ≡ result.0.now ∷ words_left result.1 }
{
    match space_in(text) {
        Some(end) => (&text[..end], Some(&text[end + 1..])),
        None => (text, None),
    }
}

/// A position in a line: the words that are still to be read, and the number of expression nodes that have begun.
/// A word is the text between single spaces; it may be empty.
#[derive(Drop)]
pub struct Words<'a> {
    rest: Option<&'a [u8]>,
    nodes: u32,
}

impl<'a> Model for Words<'a> {
    ghost use Rattle.rp_language.specs.Grammar.{Place};
    ghost use Rattle.rp_syntax.specs.Places.{words_left};

    ghost Value = { Place };

    ghost view = { λ a. record { words = words_left a.rest; nodes = a.nodes } };
}

impl<'a> Words<'a> {
    /// Returns the position before the first word of `line`.
    pub fn new(line: &'a [u8]) -> Words<'a>
        ensures { result ≡ record { words = words_of line.now; nodes = 0 } }
    {
        Words {
            rest: Some(line),
            nodes: 0,
        }
    }

    /// Reads the next word. `Bad(Syntax)` if the line has ended.
    pub fn next(&mut self) -> Result<&'a [u8], ReadFault>
        ensures { Reads (λ w. w.now) result self.new (next_word self.old) }
    {
        let Some(rest) = self.rest else {
            return Err(ReadFault::Bad(Why::Syntax));
        };
        let (word, rest) = split_word(rest);
        self.rest = rest;
        Ok(word)
    }

    /// Checks that no word is left. `Bad(Syntax)` if one is.
    pub fn end(&self) -> Result<(), ReadFault>
        ensures { Reads (λ _. tt) result self.now (end_of_line self.now) }
    {
        match self.rest {
            None => Ok(()),
            Some(_) => Err(ReadFault::Bad(Why::Syntax)),
        }
    }

    /// Counts one more node. `Bad(Nodes)` if 1,024 are already counted.
    pub fn count_node(&mut self) -> Result<(), ReadFault>
        ensures { Reads (λ _. tt) result self.new (count_node self.old) }
    {
        if self.nodes >= MAX_NODES {
            return Err(ReadFault::Bad(Why::Nodes));
        }
        self.nodes += 1;
        Ok(())
    }

    /// Reads the next word as a name. `Bad(Syntax)` if it is none.
    pub fn name(&mut self) -> Result<Name, ReadFault>
        ensures { Reads (λ x. x) result self.new (name self.old) }
    {
        match Name::new(self.next()?) {
            Some(name) => Ok(name),
            None => Err(ReadFault::Bad(Why::Syntax)),
        }
    }
}
