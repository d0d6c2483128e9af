use crate::shapes::{half, term, tetrahedron};
use rp_elim::{first_outside, first_outside_behind, first_outside_through};

#[test]
fn four_half_spaces_refute(rt: HostRuntime) {
    let [x, y, z, slanted] = tetrahedron(&rt);
    let far = half(&rt, (1, 0, 0, -4));
    let wanted = [
        term(&rt, 3, (0, 1, 0, 0)),
        term(&rt, 5, (0, 0, 1, 0)),
        term(&rt, 1, (-2, -3, -5, 7)),
        term(&rt, 2, (1, 0, 0, -4)),
    ];
    let found = first_outside(&[x, y, z, slanted, far], true).expect(&rt, "nothing is found");
    assert_eq!(rt; found.items(), wanted.as_slice());
    assert!(rt; first_outside(&[x, y, z, far], true).is_none());
    let found = first_outside_through(&[x, y, z], &slanted, &[far], true)
        .ok_or("nothing is found")
        .expect(&rt, "nothing is found");
    assert_eq!(rt; found.items(), wanted.as_slice());
    let [first, second, third, fourth] = wanted;
    let found = first_outside_behind(&[x, y], &[z, far], &slanted, true)
        .ok_or("nothing is found")
        .expect(&rt, "nothing is found");
    assert_eq!(rt; found.items(), [first, second, fourth, third].as_slice());
}
