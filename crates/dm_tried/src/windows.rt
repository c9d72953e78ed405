use dm_event::PartSet;
use dm_placement::Window;
use std::test::Fail;

#[test]
fn a_window_forgets_all_but_the_last_256(rt: HostRuntime) -> Result<(), Fail> {
    let mut first = PartSet::empty();
    first.add(1);
    let mut window = Window::new(rt.alloc())?;
    window.note(first);
    for _ in 0..255 {
        window.note(PartSet::empty());
    }
    assert_eq!(rt; window.sets(0), Some(first));
    window.note(first);
    assert_eq!(rt; window.sets(0), Some(PartSet::empty()));
    assert_eq!(rt; window.sets(255), Some(first));
    assert_eq!(rt; window.sets(256), None);
    Ok(())
}
