use rp_access::{Links, Route, chain, check_levels, levels};

#[test]
fn levels_of_a_ring_are_least(rt: HostRuntime) {
    let alloc = rt.alloc();
    // 0, 1, 2, 3 in a ring, 4 at 2, and 5 and 6 apart from these.
    let pairs = [(3, 0), (0, 1), (2, 3), (1, 2), (4, 2), (5, 6)];
    let g = Links::from_pairs(alloc, 7, &pairs).expect(&rt, "no memory");
    let found = levels(alloc, &g, 4).expect(&rt, "no memory");
    let expected = [Some(3), Some(2), Some(1), Some(2), Some(0), None, None];
    assert_eq!(rt; found.as_slice(), expected.as_slice());
    assert!(rt; check_levels(&g, 4, &expected));
    let route = chain(alloc, &g, 0, 4).expect(&rt, "no memory");
    assert_eq!(rt;
        route.expect(&rt, "no chain").items(),
        [0, 1, 2, 4].as_slice()
    );
}

#[test]
fn numbers_are_joined(rt: HostRuntime) {
    let alloc = rt.alloc();
    let mut g = Links::new(alloc, 2).expect(&rt, "no memory");
    g.join(alloc, 0, 1).expect(&rt, "no memory");
    let found = levels(alloc, &g, 1).expect(&rt, "no memory");
    assert_eq!(rt; found.as_slice(), [Some(1), Some(0)].as_slice());
}

#[test]
fn routes_grow(rt: HostRuntime) {
    let mut route = Route::new(rt.alloc());
    route.reserve(2).expect(&rt, "no memory");
    route.push(7).expect(&rt, "no memory");
    route.push(5).expect(&rt, "no memory");
    assert_eq!(rt; route.items(), [7, 5].as_slice());
}
