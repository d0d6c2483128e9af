//! Expressions in prefix form.
ghost use Rattle.rp_command.specs.Versions.{version_of};
ghost use Rattle.rp_command.specs.Views.{expression_of};
ghost use Rattle.rp_language.specs.Expression.{Expression, intersection, union, difference};
ghost use Rattle.rp_language.specs.Grammar.{keyword, node_table, expression, expression_within, node_words, two_operands};
ghost use Rattle.rp_syntax.specs.Keywords.{node_of};
ghost use Rattle.rp_syntax.specs.Reads.{Reads};

use crate::fault::ReadFault;
use crate::keywords::{Node, node_for};
use crate::words::Words;
use rp_command::{Expr, Version, Why};
use std::alloc::Global;

/// The limit of levels of an expression. No line reaches it, since each level counts one of at most 1,024 nodes.
const MAX_LEVELS: u32 = 1025;

impl<'a> Words<'a> {
    /// Reads the next word and returns the kind of node that it begins. `Bad(Syntax)` if it begins none.
    fn node(&mut self) -> Result<Node, ReadFault>
        ensures { Reads node_of result self.new (keyword node_table self.old) }
    {
        let word = self.next()?;
        match node_for(word) {
            Some(node) => Ok(node),
            None => Err(ReadFault::Bad(Why::Syntax)),
        }
    }

    /// Reads an expression in `version`.
    #[tactic(auto, unfolding(rp_language::specs::Grammar::expression))]
    pub fn expression(&mut self, alloc: Global, version: Version) -> Result<Expr, ReadFault>
        ensures { Reads expression_of result self.new (expression (version_of version) self.old) }
    {
        self.expression_within(alloc, version, MAX_LEVELS)
    }

    /// Reads an expression in `version` with at most `room` levels.
    #[cycle(expression)]
    fn expression_within(
        &mut self,
        alloc: Global,
        version: Version,
        room: u32,
    ) -> Result<Expr, ReadFault>
        ensures { Reads expression_of result self.new (expression_within (version_of version) room self.old) }
    {
        if room == 0 {
            return Err(ReadFault::Bad(Why::Syntax));
        }
        let node = self.node()?;
        self.count_node()?;
        self.behind(alloc, version, room - 1, node)
    }

    /// Reads the operands of `node`, in `version`, each with at most `room` levels.
    #[cycle(expression)]
    fn behind(
        &mut self,
        alloc: Global,
        version: Version,
        room: u32,
        node: Node,
    ) -> Result<Expr, ReadFault>
        ensures { Reads expression_of result self.new (node_words (version_of version) (expression_within (version_of version) room) (node_of node) self.old) }
    {
        match node {
            Node::Half => self.half().map(Expr::Half),
            Node::Block => self.block(version).map(Expr::Block),
            Node::Prism => self.prism(alloc, version),
            Node::All => Ok(Expr::All),
            Node::Nothing => Ok(Expr::Nothing),
            Node::Name => self.name().map(Expr::Name),
            Node::Lot => self.name().map(Expr::Lot),
            Node::And => self.intersection(alloc, version, room),
            Node::Or => self.union(alloc, version, room),
            Node::Minus => self.difference(alloc, version, room),
            Node::Not => self.operand(alloc, version, room).map(Expr::Not),
        }
    }

    /// Reads an operand in `version` with at most `room` levels, and puts it in a box.
    #[cycle(expression)]
    fn operand(
        &mut self,
        alloc: Global,
        version: Version,
        room: u32,
    ) -> Result<Box<Expr>, ReadFault>
        ensures { Reads (λ operand. expression_of operand.value) result self.new (expression_within (version_of version) room self.old) }
    {
        let operand = self.expression_within(alloc, version, room)?;
        Ok(Box::new(alloc, operand)?)
    }

    /// Reads two operands in `version`, each with at most `room` levels.
    #[cycle(expression)]
    fn operands(
        &mut self,
        alloc: Global,
        version: Version,
        room: u32,
    ) -> Result<(Box<Expr>, Box<Expr>), ReadFault>
        ensures { (of : Expression → Expression → Expression) → Reads (λ both. of (expression_of both.0.value) (expression_of both.1.value)) result self.new (two_operands (expression_within (version_of version) room) of self.old) }
    {
        let first = self.operand(alloc, version, room)?;
        let second = self.operand(alloc, version, room)?;
        Ok((first, second))
    }

    /// Reads the two operands of an intersection, each with at most `room` levels.
    #[cycle(expression)]
    fn intersection(
        &mut self,
        alloc: Global,
        version: Version,
        room: u32,
    ) -> Result<Expr, ReadFault>
        ensures { Reads expression_of result self.new (two_operands (expression_within (version_of version) room) intersection self.old) }
    {
        let (first, second) = self.operands(alloc, version, room)?;
        Ok(Expr::And(first, second))
    }

    /// Reads the two operands of a union, each with at most `room` levels.
    #[cycle(expression)]
    fn union(&mut self, alloc: Global, version: Version, room: u32) -> Result<Expr, ReadFault>
        ensures { Reads expression_of result self.new (two_operands (expression_within (version_of version) room) union self.old) }
    {
        let (first, second) = self.operands(alloc, version, room)?;
        Ok(Expr::Or(first, second))
    }

    /// Reads the two operands of a difference, each with at most `room` levels.
    #[cycle(expression)]
    fn difference(&mut self, alloc: Global, version: Version, room: u32) -> Result<Expr, ReadFault>
        ensures { Reads expression_of result self.new (two_operands (expression_within (version_of version) room) difference self.old) }
    {
        let (first, second) = self.operands(alloc, version, room)?;
        Ok(Expr::Minus(first, second))
    }
}
