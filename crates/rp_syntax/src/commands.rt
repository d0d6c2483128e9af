//! Whole commands.
ghost use Rattle.std.specs.Prelude.{◌≡◌, IfOk, map};
ghost use Rattle.rp_command.specs.Versions.{version_of};
ghost use Rattle.rp_command.specs.Views.{child_of, command_of, expression_of, verb_of};
ghost use Rattle.rp_language.specs.Expression.{Expression, Command as ModelCommand};
ghost use Rattle.rp_language.specs.Grammar.{Version as ModelVersion, keyword, verb_table, verb_words, equals_word, let_verb, member_verb, register_verb, cut_verb, subdivide_verb, consolidate_verb, asof_verb, section_verb, access_verb, many, child, name, end_of_line, command_words};
ghost use Rattle.rp_syntax.specs.Reads.{Reads, both_read};

use crate::fault::ReadFault;
use crate::words::Words;
use rp_command::{Command, Entries, Expr, Verb, Version, Why, verb_for};
use rp_lists::{Name, Names};
use std::alloc::Global;

/// The most children of a subdivision.
const MAX_CHILDREN: u32 = 1024;

/// The most lots of a consolidation.
const MAX_LOTS: u32 = 65536;

/// The greatest number of a line.
const MAX_LINES: u32 = 16777216;

impl<'a> Words<'a> {
    /// Reads the next word and returns the command that it begins. `Bad(Syntax)` if it begins none.
    fn verb(&mut self) -> Result<Verb, ReadFault>
        ensures { Reads verb_of result self.new (keyword verb_table self.old) }
    {
        let word = self.next()?;
        match verb_for(word) {
            Some(verb) => Ok(verb),
            None => Err(ReadFault::Bad(Why::Syntax)),
        }
    }

    /// Reads the word `=`. `Bad(Syntax)` if the next word is another or the line has ended.
    fn equals(&mut self) -> Result<(), ReadFault>
        ensures { Reads (λ _. tt) result self.new (equals_word self.old) }
    {
        let word = self.next()?;
        if word == b"=".as_slice() {
            return Ok(());
        }
        Err(ReadFault::Bad(Why::Syntax))
    }

    /// Reads the operands of `let`: a name, `=` and an expression in `version`.
    fn definition(&mut self, alloc: Global, version: Version) -> Result<Command, ReadFault>
        ensures { Reads command_of result self.new (verb_words (version_of version) let_verb self.old) }
    {
        let name = self.name()?;
        self.equals()?;
        let region = self.expression(alloc, version)?;
        Ok(Command::Let(name, region))
    }

    /// Reads the operands of `member`: an expression and a point, in `version`.
    fn member(&mut self, alloc: Global, version: Version) -> Result<Command, ReadFault>
        ensures { Reads command_of result self.new (verb_words (version_of version) member_verb self.old) }
    {
        let region = self.expression(alloc, version)?;
        let point = self.point(version)?;
        Ok(Command::Member(region, point))
    }

    /// Reads two expressions in `version`, and makes a command of both by `make`.
    fn comparison<F: FnOnce(Expr, Expr) -> Command>(
        &mut self,
        alloc: Global,
        version: Version,
        make: F,
    ) -> Result<Command, ReadFault>
        requires { F.IsAlwaysCallable make }
        ensures { (of : Expression → Expression → ModelCommand) → ((a b : Expr) (c : Command) → F.post make a b c → command_of c ≡ of (expression_of a) (expression_of b)) → Reads command_of result self.new (both_read (version_of version) of self.old) }
    {
        let first = self.expression(alloc, version)?;
        let second = self.expression(alloc, version)?;
        Ok(make(first, second))
    }

    /// Reads the operands of `register`: a name and an expression in `version`.
    fn registration(&mut self, alloc: Global, version: Version) -> Result<Command, ReadFault>
        ensures { Reads command_of result self.new (verb_words (version_of version) register_verb self.old) }
    {
        let id = self.name()?;
        let region = self.expression(alloc, version)?;
        Ok(Command::Register(id, region))
    }

    /// Reads the operands of `cut`: the name of a lot, an expression in `version` and the names of two new lots.
    fn cut(&mut self, alloc: Global, version: Version) -> Result<Command, ReadFault>
        ensures { Reads command_of result self.new (verb_words (version_of version) cut_verb self.old) }
    {
        let lot = self.name()?;
        let region = self.expression(alloc, version)?;
        let first = self.name()?;
        let second = self.name()?;
        Ok(Command::Cut(lot, region, first, second))
    }

    /// Reads a child of a subdivision: a name and an expression in `version`.
    fn child(&mut self, alloc: Global, version: Version) -> Result<(Name, Expr), ReadFault>
        ensures { Reads child_of result self.new (child (version_of version) self.old) }
    {
        let id = self.name()?;
        let region = self.expression(alloc, version)?;
        Ok((id, region))
    }

    /// Reads `count` children of a subdivision, in `version`.
    fn children(
        &mut self,
        alloc: Global,
        version: Version,
        count: u32,
    ) -> Result<Entries, ReadFault>
        ensures { Reads (λ entries. map child_of entries.items) result self.new (many count (child (version_of version)) self.old) }
    {
        let mut children = Entries::new(alloc);
        for _ in 0..count {
            let child = self.child(alloc, version)?;
            children.push(child)?;
        }
        Ok(children)
    }

    /// Reads the operands of `subdivide`: the name of a lot, a count from 0 to 1,024 and as many children, in
    /// `version`.
    fn subdivision(&mut self, alloc: Global, version: Version) -> Result<Command, ReadFault>
        ensures { Reads command_of result self.new (verb_words (version_of version) subdivide_verb self.old) }
    {
        let lot = self.name()?;
        let count = self.count(0, MAX_CHILDREN)?;
        let children = self.children(alloc, version, count)?;
        Ok(Command::Subdivide(lot, children))
    }

    /// Reads the ids of `count` lots.
    fn lots(&mut self, alloc: Global, count: u32) -> Result<Names, ReadFault>
        ensures { Reads (λ lots. lots.items) result self.new (many count name self.old) }
    {
        let mut lots = Names::new(alloc);
        for _ in 0..count {
            let lot = self.name()?;
            lots.push(lot)?;
        }
        Ok(lots)
    }

    /// Reads the operands of `consolidate`: the name of the new lot, a count from 0 to 65,536 and as many lots' names.
    fn consolidation(&mut self, alloc: Global) -> Result<Command, ReadFault>
        ensures { (v : ModelVersion) → Reads command_of result self.new (verb_words v consolidate_verb self.old) }
    {
        let new = self.name()?;
        let count = self.count(0, MAX_LOTS)?;
        let lots = self.lots(alloc, count)?;
        Ok(Command::Consolidate(new, lots))
    }

    /// Reads the operands of `asof`: the number of a line, from 0 to 16,777,216, and a point in `version`.
    fn as_of(&mut self, version: Version) -> Result<Command, ReadFault>
        ensures { Reads command_of result self.new (verb_words (version_of version) asof_verb self.old) }
    {
        let line = self.count(0, MAX_LINES)?;
        let point = self.point(version)?;
        Ok(Command::Asof(line, point))
    }

    /// Reads the operands of `section`: an expression and a height, in `version`.
    fn section(&mut self, alloc: Global, version: Version) -> Result<Command, ReadFault>
        ensures { Reads command_of result self.new (verb_words (version_of version) section_verb self.old) }
    {
        let region = self.expression(alloc, version)?;
        let z = self.height(version)?;
        Ok(Command::Section(region, z))
    }

    /// Reads the operands of `access`: the names of two lots.
    fn access(&mut self) -> Result<Command, ReadFault>
        ensures { (v : ModelVersion) → Reads command_of result self.new (verb_words v access_verb self.old) }
    {
        let from = self.name()?;
        let to = self.name()?;
        Ok(Command::Access(from, to))
    }

    /// Reads the operands of the command `verb`, in `version`.
    fn command_for(
        &mut self,
        alloc: Global,
        version: Version,
        verb: Verb,
    ) -> Result<Command, ReadFault>
        ensures { Reads command_of result self.new (verb_words (version_of version) (verb_of verb) self.old) }
    {
        match verb {
            Verb::Let => self.definition(alloc, version),
            Verb::Member => self.member(alloc, version),
            Verb::Empty => self.expression(alloc, version).map(Command::Empty),
            Verb::Pieces => self.expression(alloc, version).map(Command::Pieces),
            Verb::Show => self.expression(alloc, version).map(Command::Show),
            Verb::Equal => self.comparison(alloc, version, Command::Equal),
            Verb::Within => self.comparison(alloc, version, Command::Within),
            Verb::Overlap => self.comparison(alloc, version, Command::Overlap),
            Verb::Contact => self.comparison(alloc, version, Command::Contact),
            Verb::Rcc => self.comparison(alloc, version, Command::Rcc),
            Verb::Register => self.registration(alloc, version),
            Verb::Cut => self.cut(alloc, version),
            Verb::Subdivide => self.subdivision(alloc, version),
            Verb::Consolidate => self.consolidation(alloc),
            Verb::Retire => self.name().map(Command::Retire),
            Verb::Neighbours => self.name().map(Command::Neighbours),
            Verb::History => self.name().map(Command::History),
            Verb::At => self.point(version).map(Command::At),
            Verb::Asof => self.as_of(version),
            Verb::Audit => Ok(Command::Audit),
            Verb::List => Ok(Command::List),
            Verb::Layer => self.name().map(Command::Layer),
            Verb::Section => self.section(alloc, version),
            Verb::Access => self.access(),
        }
    }

    /// Returns `read` if the line has ended; otherwise `Bad(Syntax)`.
    fn last<T: Drop>(&self, read: T) -> Result<T, ReadFault>
        ensures same { IfOk result (λ given. given ≡ read) }
        ensures end { Reads (λ _. tt) result self.now (end_of_line self.now) }
    {
        self.end()?;
        Ok(read)
    }

    /// Reads a whole command in `version`, up to the end of the line. The fault is the first in reading order.
    #[tactic(auto, unfolding(rp_language::specs::Grammar::command_words))]
    pub fn command(&mut self, alloc: Global, version: Version) -> Result<Command, ReadFault>
        ensures { Reads command_of result self.new (command_words (version_of version) self.old) }
    {
        let verb = self.verb()?;
        let command = self.command_for(alloc, version, verb)?;
        self.last(command)
    }
}
