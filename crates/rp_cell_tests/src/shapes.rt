use rp_space::{Half, Term};
use std::process::Abort;

/// Returns the half-space of four numbers, which are within their bounds.
pub fn half(rt: &impl Abort, numbers: (i64, i64, i64, i64)) -> Half {
    let (a, b, c, d) = numbers;
    Half::new(a, b, c, d).expect(rt, "no half-space")
}

/// Returns the multiple `by` of the half-space of `numbers`.
pub fn term(rt: &impl Abort, by: i128, numbers: (i64, i64, i64, i64)) -> Term {
    let half = half(rt, numbers);
    Term { by, half }
}

/// Returns a tetrahedron with a corner at the origin, whose fourth side cuts the axes at 7/2, 7/3 and 7/5.
pub fn tetrahedron(rt: &impl Abort) -> [Half; 4] {
    [
        half(rt, (1, 0, 0, 0)),
        half(rt, (0, 1, 0, 0)),
        half(rt, (0, 0, 1, 0)),
        half(rt, (-2, -3, -5, 7)),
    ]
}
