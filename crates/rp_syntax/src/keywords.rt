//! The words that begin a node of an expression.
ghost use Rattle.std.specs.Prelude.{◌≡◌, option_map};
ghost use Rattle.rp_language.specs.Grammar.{looked_up, node_table};
ghost use Rattle.rp_syntax.specs.Keywords.{node_of};

use rp_command::looked_up;

/// The kinds of nodes of an expression.
#[derive(Clone, Copy)]
pub enum Node {
    Half,
    Block,
    All,
    Nothing,
    And,
    Or,
    Minus,
    Not,
    Name,
    Lot,
    Prism,
}

/// The words that begin a node.
const NODES: [(&[u8], Node); 11] = [
    (b"half", Node::Half),
    (b"box", Node::Block),
    (b"all", Node::All),
    (b"none", Node::Nothing),
    (b"and", Node::And),
    (b"or", Node::Or),
    (b"minus", Node::Minus),
    (b"not", Node::Not),
    (b"name", Node::Name),
    (b"lot", Node::Lot),
    (b"prism", Node::Prism),
];

/// Returns the kind of node that `word` begins; `None` iff it begins none.
pub fn node_for(word: &[u8]) -> Option<Node>
    ensures { option_map node_of result ≡ looked_up word.now node_table }
{
    looked_up(word, &NODES)
}
