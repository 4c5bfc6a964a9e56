use draws::Draws;

#[test]
fn the_first_number_of_the_seed_0_is_as_published(rt: HostRuntime) {
    assert!(rt; Draws::of(0).draw(u32::MAX) == 167_951_807 && Draws::of(0).draw(8) == 7);
}
