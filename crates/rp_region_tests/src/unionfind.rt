use rp_unionfind::groups_of_links;

#[test]
fn groups_come_in_the_order_of_their_first_numbers(rt: HostRuntime) {
    let groups = groups_of_links(rt.alloc(), 6, &[(2, 4), (1, 6), (3, 6)]).expect(&rt, "no memory");
    let wanted = [[1, 3, 6].as_slice(), [2, 4].as_slice(), [5].as_slice()];
    assert_eq!(rt; groups.items().len(), 3);
    for (group, numbers) in groups.items().iter().zip(wanted) {
        assert!(rt; group.items() == numbers, "{group:?}");
    }
}
