//! Expressions and commands.
ghost use Rattle.std.specs.Prelude.{◌≡◌, option_map};
ghost use Rattle.std.specs.List.{flat_map};
ghost use Rattle.rp_command.specs.Operands.{operands_in, operand_of, verb_in};
ghost use Rattle.rp_command.specs.Views.{command_of, verb_of};
ghost use Rattle.rp_language.specs.Grammar.{looked_up, verb_table, word_of_verb};

use crate::table::looked_up;
use rp_lists::{Listed, Name, Names};
use rp_space::{Corners, Half, IntBox, Point};

/// An expression for a region. Half-spaces are in lowest terms.
#[derive(Drop)]
pub enum Expr {
    /// The points that a half-space holds.
    Half(Half),
    /// The points of a box, its upper sides left out.
    Block(IntBox),
    /// The points of a polygon, which may cross or touch itself, raised from the first height to below the second.
    Prism(i32, i32, Corners),
    /// The whole domain cube.
    All,
    /// No point.
    Nothing,
    /// The region of a name.
    Name(Name),
    /// The region of a live lot.
    Lot(Name),
    /// The points of both.
    And(Box<Expr>, Box<Expr>),
    /// The points of either.
    Or(Box<Expr>, Box<Expr>),
    /// The points of the first that are none of the second.
    Minus(Box<Expr>, Box<Expr>),
    /// The points of the cube that are none of it.
    Not(Box<Expr>),
}

/// The children of a subdivision: an id and a region for each.
pub type Entries = Listed<(Name, Expr)>;

/// A command of a script. Each has the words of its line, in order.
pub enum Command {
    /// Gives a name to a region.
    Let(Name, Expr),
    /// Whether a point is a member of a region.
    Member(Expr, Point),
    /// Whether a region has no point.
    Empty(Expr),
    /// The connected pieces of a region.
    Pieces(Expr),
    /// The parts of a region.
    Show(Expr),
    /// Whether two regions have the same points.
    Equal(Expr, Expr),
    /// Whether every point of the first region is one of the second.
    Within(Expr, Expr),
    /// Whether two regions share a point.
    Overlap(Expr, Expr),
    /// Whether the closures of two regions share a point.
    Contact(Expr, Expr),
    /// Which of the eight relations of the region connection calculus two regions have (Randell, Cui and Cohn).
    Rcc(Expr, Expr),
    /// Registers a lot.
    Register(Name, Expr),
    /// Cuts a lot by a region into two lots.
    Cut(Name, Expr, Name, Name),
    /// Subdivides a lot into children.
    Subdivide(Name, Entries),
    /// Consolidates lots into a new one.
    Consolidate(Name, Names),
    /// Retires a lot.
    Retire(Name),
    /// The lots in contact with a lot.
    Neighbours(Name),
    /// The lineage of a lot.
    History(Name),
    /// The lot at a point.
    At(Point),
    /// The lot at a point as it was after a line.
    Asof(u32, Point),
    /// Whether live lots share no point.
    Audit,
    /// The live lots.
    List,
    /// Sets the layer that later lines speak of.
    Layer(Name),
    /// The parts of a region at a height.
    Section(Expr, i32),
    /// A least chain of live lots from one lot to another, each in contact with the next.
    Access(Name, Name),
}

// A derived drop is inlined, with the variants of each expression, in every function that has a command or a line; this
// one is a call there.
impl Drop for Command {
    fn drop(self) {
        match self {
            Command::Let(_, region)
            | Command::Member(region, _)
            | Command::Empty(region)
            | Command::Pieces(region)
            | Command::Show(region)
            | Command::Register(_, region)
            | Command::Cut(_, region, _, _)
            | Command::Section(region, _) => drop(region),
            Command::Equal(a, b)
            | Command::Within(a, b)
            | Command::Overlap(a, b)
            | Command::Contact(a, b)
            | Command::Rcc(a, b) => {
                drop(a);
                drop(b);
            }
            Command::Subdivide(_, entries) => drop(entries),
            Command::Consolidate(_, ids) => drop(ids),
            Command::Retire(_)
            | Command::Neighbours(_)
            | Command::History(_)
            | Command::At(_)
            | Command::Asof(_, _)
            | Command::Audit
            | Command::List
            | Command::Layer(_)
            | Command::Access(_, _) => {}
        }
    }
}

/// The verbs of commands. Each is the place of its row in [`VERBS`].
#[derive(Clone, Copy)]
pub enum Verb {
    Let,
    Member,
    Empty,
    Pieces,
    Show,
    Equal,
    Within,
    Overlap,
    Contact,
    Rcc,
    Register,
    Cut,
    Subdivide,
    Consolidate,
    Retire,
    Neighbours,
    History,
    At,
    Asof,
    Audit,
    List,
    Layer,
    Section,
    Access,
}

/// The word that begins a command of each verb.
const VERBS: [(&[u8], Verb); 24] = [
    (b"let", Verb::Let),
    (b"member", Verb::Member),
    (b"empty", Verb::Empty),
    (b"pieces", Verb::Pieces),
    (b"show", Verb::Show),
    (b"equal", Verb::Equal),
    (b"within", Verb::Within),
    (b"overlap", Verb::Overlap),
    (b"contact", Verb::Contact),
    (b"rcc", Verb::Rcc),
    (b"register", Verb::Register),
    (b"cut", Verb::Cut),
    (b"subdivide", Verb::Subdivide),
    (b"consolidate", Verb::Consolidate),
    (b"retire", Verb::Retire),
    (b"neighbours", Verb::Neighbours),
    (b"history", Verb::History),
    (b"at", Verb::At),
    (b"asof", Verb::Asof),
    (b"audit", Verb::Audit),
    (b"list", Verb::List),
    (b"layer", Verb::Layer),
    (b"section", Verb::Section),
    (b"access", Verb::Access),
];

/// Returns the verb that a word names.
pub fn verb_for(word: &[u8]) -> Option<Verb>
    ensures { option_map verb_of result ≡ looked_up word.now verb_table }
{
    looked_up(word, &VERBS)
}

impl Verb {
    /// Returns the word of the verb.
    pub fn word(self) -> &'static [u8]
        ensures { result.now ≡ word_of_verb (verb_of self) }
    {
        VERBS[self as usize].0
    }
}

/// An operand of a command.
#[derive(Clone, Copy)]
pub enum Operand<'a> {
    /// A name or an id.
    Name(&'a Name),
    /// An expression.
    Region(&'a Expr),
    /// A point.
    Point(&'a Point),
    /// A height.
    Height(i32),
    /// The number of a line.
    Line(u32),
    /// The sign between a name and its expression.
    Equals,
    /// The ids of lots.
    Names(&'a Names),
    /// The children of a subdivision.
    Children(&'a Entries),
    /// The place of an operand that the command does not have.
    Missing,
}

impl Command {
    /// Returns the verb of the command.
    pub fn verb(&self) -> Verb
        ensures { verb_of result ≡ verb_in (command_of self.now) }
    {
        match self {
            Command::Let(_, _) => Verb::Let,
            Command::Member(_, _) => Verb::Member,
            Command::Empty(_) => Verb::Empty,
            Command::Pieces(_) => Verb::Pieces,
            Command::Show(_) => Verb::Show,
            Command::Equal(_, _) => Verb::Equal,
            Command::Within(_, _) => Verb::Within,
            Command::Overlap(_, _) => Verb::Overlap,
            Command::Contact(_, _) => Verb::Contact,
            Command::Rcc(_, _) => Verb::Rcc,
            Command::Register(_, _) => Verb::Register,
            Command::Cut(_, _, _, _) => Verb::Cut,
            Command::Subdivide(_, _) => Verb::Subdivide,
            Command::Consolidate(_, _) => Verb::Consolidate,
            Command::Retire(_) => Verb::Retire,
            Command::Neighbours(_) => Verb::Neighbours,
            Command::History(_) => Verb::History,
            Command::At(_) => Verb::At,
            Command::Asof(_, _) => Verb::Asof,
            Command::Audit => Verb::Audit,
            Command::List => Verb::List,
            Command::Layer(_) => Verb::Layer,
            Command::Section(_, _) => Verb::Section,
            Command::Access(_, _) => Verb::Access,
        }
    }

    /// Returns the operands of the command, in order.
    pub fn operands(&self) -> [Operand<'_>; 4]
        ensures { flat_map operand_of result ≡ operands_in (command_of self.now) }
    {
        let missing = Operand::Missing;
        match self {
            Command::Let(name, region) => [
                Operand::Name(name),
                Operand::Equals,
                Operand::Region(region),
                missing,
            ],
            Command::Member(region, point) => [
                Operand::Region(region),
                Operand::Point(point),
                missing,
                missing,
            ],
            Command::Empty(region) | Command::Pieces(region) | Command::Show(region) => [
                Operand::Region(region),
                missing,
                missing,
                missing,
            ],
            Command::Equal(a, b)
            | Command::Within(a, b)
            | Command::Overlap(a, b)
            | Command::Contact(a, b)
            | Command::Rcc(a, b) => [Operand::Region(a), Operand::Region(b), missing, missing],
            Command::Register(id, region) => [
                Operand::Name(id),
                Operand::Region(region),
                missing,
                missing,
            ],
            Command::Cut(id, region, first, second) => [
                Operand::Name(id),
                Operand::Region(region),
                Operand::Name(first),
                Operand::Name(second),
            ],
            Command::Subdivide(id, children) => [
                Operand::Name(id),
                Operand::Children(children),
                missing,
                missing,
            ],
            Command::Consolidate(id, ids) => [
                Operand::Name(id),
                Operand::Names(ids),
                missing,
                missing,
            ],
            Command::Retire(id)
            | Command::Neighbours(id)
            | Command::History(id)
            | Command::Layer(id) => [Operand::Name(id), missing, missing, missing],
            Command::At(point) => [Operand::Point(point), missing, missing, missing],
            Command::Asof(line, point) => [
                Operand::Line(*line),
                Operand::Point(point),
                missing,
                missing,
            ],
            Command::Audit | Command::List => [missing, missing, missing, missing],
            Command::Section(region, z) => [
                Operand::Region(region),
                Operand::Height(*z),
                missing,
                missing,
            ],
            Command::Access(from, to) => [Operand::Name(from), Operand::Name(to), missing, missing],
        }
    }
}

/// The reason why a line is no command: its first fault in reading order.
#[derive(Clone, Copy, Debug)]
pub enum Why {
    /// A word that does not fit its place, a missing word or one too many.
    Syntax,
    /// A number outside the bounds of its place.
    Range,
    /// A half-space of four zeros.
    Zero,
    /// The word that begins the 1,025th node of the line's expressions.
    Nodes,
    /// The line has more than 65,536 bytes, or 262,144 in version 2.
    Long,
}

/// The result of reading a line.
#[derive(Drop)]
pub enum Line {
    /// The line is empty or a note.
    Blank,
    /// The line is a command.
    Cmd(Command),
    /// The line is no command.
    Bad(Why),
}
