//! Decisions whether a cell has a point, and whether its weak system has one.
ghost use Rattle.std.specs.Prelude.{◌≡◌, ◌≤◌, ◌++◌, true, false, length, IsTrue, IfSome, Some};
ghost use Rattle.rp_geometry.specs.Geometry.{RationalPoint, with_cube};
ghost use Rattle.rp_geometry.specs.sets.Shape.{shape_of_cell};
ghost use Rattle.rp_geometry.specs.sets.Sets.{IsEmpty, IsNonempty};
ghost use Rattle.rp_geometry.specs.laws.CellLaws.{IsSolution};
ghost use Rattle.rp_geometry.specs.searches.Certificate.{is_outside_certificate};
ghost use Rattle.rp_geometry.specs.searches.Elimination.{first_outside};
ghost use Rattle.rp_geometry.specs.searches.Vertex.{first_weak_point};
ghost use Rattle.rp_geometry.specs.searches.ProofLine.{strict_line, weak_line, out_line, apart_line};
ghost use Rattle.rp_elim.specs.FewTerms.{first_of_two};
ghost use Rattle.rp_cell.specs.Decisions.{line_of_strict, line_of_weak, DecidesStrict, DecidesWeak};

use crate::held::Held;
use rp_clip::{inside_on_polygons, weak_on_polygon};
use rp_elim::{first_outside, first_outside_between, first_outside_of_two};
use rp_space::{Half, Inside, Outside, Point, keep_bounds};
use rp_vertex::{first_inside, first_weak, inside_on_few_lines, weak_on_few_lines};

/// The decision whether a cell has a point.
#[derive(Drop)]
pub enum Strict {
    /// There is a point: an average of these points is strictly inside.
    Inside(Inside),
    /// There is no point: these multiples of the cell's half-spaces and the cube's add up to a contradiction.
    Outside(Outside),
}

/// The decision whether the weak system of a cell has a point: a point of the closed cube at which no half-space of the
/// cell is negative. If the cell has a point, these points are its closure.
#[derive(Drop)]
pub enum Weak {
    /// There is a point: this one.
    At(Point),
    /// There is no point: these multiples of the cell's half-spaces and the cube's add up to a contradiction.
    Outside(Outside),
}

/// The fewest half-spaces of a cell for which refutations by two of them are tried first: with fewer, points are found
/// as fast.
const FEW_FOR_PAIRS: usize = 7;

/// The fewest half-spaces of a cell that is stored with its vertices to be decided: with fewer the searches are as
/// fast.
const FEW: usize = 10;

/// The fewest half-spaces of a cell whose points are searched on polygons first, as long as its first plane has a
/// vertex.
const MANY: usize = 16;

/// Decides whether `cell` has a point. Returns the first inside certificate if it has one, otherwise the first outside
/// certificate. There always is one of the two (Motzkin's theorem of the alternative). `cell` has at most 64
/// half-spaces. Takes no memory.
pub fn decide_strict(cell: &[Half]) -> Strict
    requires { length cell.now ≤ 64 }
    ensures decides { DecidesStrict cell.now result }
    ensures line { line_of_strict result ≡ strict_line cell.now }
{
    match try_decide_strict(cell) {
        Some(found) => found,
        None => decide_by_vertices(cell),
    }
}

/// Decides whether `cell` has a point, as [`decide_strict`] does, if it needs no stored vertices for it; otherwise
/// returns `None`. `cell` has at most 64 half-spaces. Takes no memory.
pub fn try_decide_strict(cell: &[Half]) -> Option<Strict>
    requires { length cell.now ≤ 64 }
    ensures decides { IfSome result (λ found. DecidesStrict cell.now found) }
    ensures line { IfSome result (λ found. line_of_strict found ≡ strict_line cell.now) }
{
    if cell.len() < FEW_FOR_PAIRS {
        return Some(search_strict(cell));
    }
    if cell.len() < MANY {
        return refute_soon(cell);
    }
    match inside_on_polygons(cell) {
        Some(points) => Some(Strict::Inside(points)),
        None => refute_soon(cell),
    }
}

/// Decides whether `cell` has a point, by a refutation by at most two half-spaces, otherwise by few further searches.
/// After `None` the vertices are needed. `cell` has at most 64 half-spaces.
fn refute_soon(cell: &[Half]) -> Option<Strict>
    requires { length cell.now ≤ 64 }
    ensures decides { IfSome result (λ found. DecidesStrict cell.now found) }
    ensures line { IfSome result (λ found. line_of_strict found ≡ strict_line cell.now) }
{
    if let Some(terms) = refute_by_two(cell) {
        return Some(Strict::Outside(terms));
    }
    if cell.len() < FEW {
        return Some(search_strict(cell));
    }
    try_strict(cell)
}

/// Decides whether `cell` has a point, by a search on a few lines. After `None` the vertices are needed. `cell` has at
/// most 64 half-spaces.
fn try_strict(cell: &[Half]) -> Option<Strict>
    requires { length cell.now ≤ 64 }
    ensures decides { IfSome result (λ found. DecidesStrict cell.now found) }
    ensures line { IfSome result (λ found. line_of_strict found ≡ strict_line cell.now) }
{
    match inside_on_few_lines(cell) {
        Some(points) => Some(Strict::Inside(points)),
        None => None,
    }
}

/// Decides whether `cell`, of at most 64 half-spaces, has a point, over stored vertices. It is a function of its own so
/// that no other function makes room for them.
pub fn decide_by_vertices(cell: &[Half]) -> Strict
    requires { length cell.now ≤ 64 }
    ensures decides { DecidesStrict cell.now result }
    ensures line { line_of_strict result ≡ strict_line cell.now }
{
    Held::new(cell).strict()
}

/// Decides whether `cell`, of at most 64 half-spaces, has a point, by a search over the vertices in their order.
pub(crate) fn search_strict(cell: &[Half]) -> Strict
    requires { length cell.now ≤ 64 }
    ensures decides { DecidesStrict cell.now result }
    ensures line { line_of_strict result ≡ strict_line cell.now }
{
    match first_inside(cell) {
        Some(points) => Strict::Inside(points),
        None => Strict::Outside(refute_strict(cell)),
    }
}

/// Decides whether the weak system of `cell` has a point. Returns the first weak point if it has one, otherwise the
/// first outside certificate that is not strict. There always is one of the two (Farkas' lemma). `cell` has at most 64
/// half-spaces. Takes no memory.
pub fn decide_weak(cell: &[Half]) -> Weak
    requires { length cell.now ≤ 64 }
    ensures decides { DecidesWeak cell.now result }
    ensures line { line_of_weak result ≡ weak_line cell.now }
{
    match weak_soon(cell) {
        Some(found) => found,
        None => hold_weak(cell),
    }
}

/// Decides whether the weak system of `cell` has a point, as [`decide_weak`] does, if it needs no stored vertices for
/// it; otherwise returns `None`. `cell` has at most 64 half-spaces. Takes no memory.
pub fn weak_soon(cell: &[Half]) -> Option<Weak>
    requires { length cell.now ≤ 64 }
    ensures decides { IfSome result (λ found. DecidesWeak cell.now found) }
    ensures line { IfSome result (λ found. line_of_weak found ≡ weak_line cell.now) }
{
    if cell.len() < FEW_FOR_PAIRS {
        return Some(search_weak(cell));
    }
    match point_soon(cell) {
        Some(p) => Some(Weak::At(p)),
        None => refute_weak_soon(cell),
    }
}

/// Returns the first weak point of `cell`, if a first short search finds it: on a few lines, or on the polygon of the
/// first plane of a large cell. After `None` it is open whether there is one. In cells of fewer than 10 half-spaces it
/// does not search. `cell` has at most 64 half-spaces.
fn point_soon(cell: &[Half]) -> Option<Point>
    requires { length cell.now ≤ 64 }
    ensures first { IfSome result (λ p. first_weak_point cell.now ≡ Some p) }
    ensures passes { IfSome result (λ p. IsSolution false cell.now p) }
{
    if cell.len() < FEW {
        return None;
    }
    if cell.len() < MANY {
        return weak_on_few_lines(cell);
    }
    weak_on_polygon(cell)
}

/// Decides whether the weak system of `cell` has a point, by a refutation by at most two half-spaces, otherwise by few
/// further searches. After `None` the vertices are needed. `cell` has at most 64 half-spaces.
fn refute_weak_soon(cell: &[Half]) -> Option<Weak>
    requires { length cell.now ≤ 64 }
    ensures decides { IfSome result (λ found. DecidesWeak cell.now found) }
    ensures line { IfSome result (λ found. line_of_weak found ≡ weak_line cell.now) }
{
    // The call makes it known that all half-spaces keep their bounds.
    keep_bounds(cell);
    if let Some(terms) = first_outside_of_two(cell, false) {
        return Some(Weak::Outside(terms));
    }
    if cell.len() < FEW {
        return Some(search_weak(cell));
    }
    if cell.len() < MANY {
        return None;
    }
    try_weak(cell)
}

/// Decides whether the weak system of `cell` has a point, by a search on a few lines of one plane. After `None` the
/// vertices are needed. `cell` has at most 64 half-spaces.
fn try_weak(cell: &[Half]) -> Option<Weak>
    requires { length cell.now ≤ 64 }
    ensures decides { IfSome result (λ found. DecidesWeak cell.now found) }
    ensures line { IfSome result (λ found. line_of_weak found ≡ weak_line cell.now) }
{
    match weak_on_few_lines(cell) {
        Some(p) => Some(Weak::At(p)),
        None => None,
    }
}

/// Decides whether the weak system of `cell`, of at most 64 half-spaces, has a point, over stored vertices. It is a
/// function of its own so that no other function makes room for them.
pub fn hold_weak(cell: &[Half]) -> Weak
    requires { length cell.now ≤ 64 }
    ensures decides { DecidesWeak cell.now result }
    ensures line { line_of_weak result ≡ weak_line cell.now }
{
    Held::new(cell).weak()
}

/// Decides whether the weak system of `cell`, of at most 64 half-spaces, has a point, by a search over the vertices in
/// their order.
pub(crate) fn search_weak(cell: &[Half]) -> Weak
    requires { length cell.now ≤ 64 }
    ensures decides { DecidesWeak cell.now result }
    ensures line { line_of_weak result ≡ weak_line cell.now }
{
    match first_weak(cell) {
        Some(p) => Weak::At(p),
        None => Weak::Outside(refute_weak(cell)),
    }
}

/// Returns the first outside certificate of `cell` if it has at most two terms. Then the cell has no point. After
/// `None` it is open whether it has one; no other certificate is searched for. `cell` has at most 64 half-spaces. Takes
/// no memory.
pub fn refute_by_two(cell: &[Half]) -> Option<Outside>
    requires { length cell.now ≤ 64 }
    ensures found { result ≡ first_of_two true (with_cube cell.now) }
    ensures first { IfSome result (λ terms. first_outside true cell.now ≡ Some terms) }
    ensures passes { IfSome result (λ terms. IsTrue (is_outside_certificate true cell.now terms)) }
    ensures empty { IfSome result (λ _. IsEmpty (shape_of_cell cell.now)) }
    ensures line { IfSome result (λ terms. out_line terms ≡ strict_line cell.now) }
{
    // The call makes it known that all half-spaces keep their bounds.
    keep_bounds(cell);
    first_outside_of_two(cell, true)
}

/// Returns the first outside certificate of `first` and `second` together if it has at most two terms. Then they share
/// no point. After `None` it is open whether they do. Each of the two cells has a point. So only one half-space of
/// `first` with one of `second` may refute, and the cells need not be joined. Takes no memory.
pub fn refute_between(first: &[Half], second: &[Half]) -> Option<Outside>
    requires first { IsNonempty (shape_of_cell first.now) }
    requires second { IsNonempty (shape_of_cell second.now) }
    ensures { IfSome result (λ terms. out_line terms ≡ strict_line (first.now ++ second.now)) }
{
    // The two calls make it known that all half-spaces keep their bounds.
    keep_bounds(first);
    keep_bounds(second);
    first_outside_between(first, second, true)
}

/// Returns the first outside certificate of the weak systems of `first` and `second` together if it has at most two
/// terms. Then they are not in contact. After `None` it is open whether they are. Each of the two cells has a point.
/// Takes no memory.
pub fn refute_weak_between(first: &[Half], second: &[Half]) -> Option<Outside>
    requires first { IsNonempty (shape_of_cell first.now) }
    requires second { IsNonempty (shape_of_cell second.now) }
    ensures { IfSome result (λ terms. apart_line terms ≡ weak_line (first.now ++ second.now)) }
{
    // The two calls make it known that all half-spaces keep their bounds.
    keep_bounds(first);
    keep_bounds(second);
    first_outside_between(first, second, false)
}

/// Returns the first outside certificate of `cell`, which has no point. It searches for no points. `cell` has at most
/// 64 half-spaces. Takes no memory.
pub fn refute_strict(cell: &[Half]) -> Outside
    requires few { length cell.now ≤ 64 }
    requires empty { IsEmpty (shape_of_cell cell.now) }
    ensures first { first_outside true cell.now ≡ Some result }
    ensures passes { IsTrue (is_outside_certificate true cell.now result) }
    ensures line { out_line result ≡ strict_line cell.now }
{
    keep_bounds(cell);
    first_outside(cell, true).unwrap()
}

/// Returns the first outside certificate, not strict, of `cell`, whose weak system has no point. It searches for no
/// points. `cell` has at most 64 half-spaces. Takes no memory.
pub fn refute_weak(cell: &[Half]) -> Outside
    requires few { length cell.now ≤ 64 }
    requires empty { (p : RationalPoint) → ¬ IsSolution false cell.now p }
    ensures first { first_outside false cell.now ≡ Some result }
    ensures passes { IsTrue (is_outside_certificate false cell.now result) }
    ensures line { apart_line result ≡ weak_line cell.now }
{
    keep_bounds(cell);
    first_outside(cell, false).unwrap()
}
