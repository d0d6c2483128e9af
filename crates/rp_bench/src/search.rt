//! The searches that can be run.
ghost use Rattle.std.specs.Prelude.{◌≡◌, ◌≤◌, length, IfSome, Some};
ghost use Rattle.rp_bench.specs.declared.search.Search.TheVariants.{Decide};
ghost use Rattle.rp_bench.specs.Found.{search_of, size_found, word_of};

use rp_cell::{Strict, decide_strict};
use rp_elim::first_outside;
use rp_space::Half;
use rp_vertex::{first_inside, first_inside_over_triples};

/// A search for a certificate of a cell.
#[derive(Clone, Copy, Debug, PartialEq, Eq)]
pub enum Search {
    /// Whichever of the two the cell has, as the program decides.
    Decide,
    /// Points that show that the cell has a point, over triples of planes.
    Inside,
    /// The same points as `Inside`, along the lines of two planes.
    Along,
    /// Multiples of half-spaces that show that the cell has no point.
    Outside,
    /// Multiples of half-spaces that show that the cell's weak system has no point.
    Apart,
}

impl Search {
    /// Returns the search of `word`; `None` iff `word` names none.
    pub fn of_word(word: &str) -> Option<Search>
        ensures { result ≡ search_of word.now }
    {
        match word {
            "decide" => Some(Search::Decide),
            "inside" => Some(Search::Inside),
            "along" => Some(Search::Along),
            "outside" => Some(Search::Outside),
            "apart" => Some(Search::Apart),
            _ => None,
        }
    }

    /// Returns the word of a search.
    pub fn word(self) -> &'static str
        ensures { result.now ≡ word_of self }
    {
        match self {
            Search::Decide => "decide",
            Search::Inside => "inside",
            Search::Along => "along",
            Search::Outside => "outside",
            Search::Apart => "apart",
        }
    }

    /// Returns the number of points or terms that the search finds in `cell`, which has at most 64 half-spaces; `None`
    /// iff it finds nothing.
    pub fn size_found(self, cell: &[Half]) -> Option<usize>
        requires { length cell.now ≤ 64 }
        ensures size { result ≡ size_found self cell.now }
        ensures few { IfSome result (λ size. size ≤ 4) }
    {
        match self {
            Search::Decide => Some(size_decided(cell)),
            Search::Inside => first_inside_over_triples(cell).map(|points| points.items().len()),
            Search::Along => first_inside(cell).map(|points| points.items().len()),
            Search::Outside => first_outside(cell, true).map(|terms| terms.items().len()),
            Search::Apart => first_outside(cell, false).map(|terms| terms.items().len()),
        }
    }
}

/// Returns the number of points or terms in the decision whether `cell`, of at most 64 half-spaces, has a point.
fn size_decided(cell: &[Half]) -> usize
    requires { length cell.now ≤ 64 }
    ensures size { Some result ≡ size_found Decide cell.now }
    ensures few { result ≤ 4 }
{
    match decide_strict(cell) {
        Strict::Inside(points) => points.items().len(),
        Strict::Outside(terms) => terms.items().len(),
    }
}
