use mb_window::{Refused, Window};
use std::process::Abort;

/// The item at position 8 is there to be changed, until the window is cleared.
fn assert_changed(rt: &impl Abort, window: &mut Window<i32>) {
    assert!(rt; window.get(8) == Some(&80));
    if let Some(item) = window.get_mut(8) {
        *item = 82;
    }
    assert!(rt; window.get(8) == Some(&82));
    assert!(rt; window.low() == 4);
    window.clear();
    assert!(rt; window.get(8).is_none());
}

#[test]
fn items_stand_in_the_window(rt: HostRuntime) {
    let mut window = Window::make(rt.alloc(), 0, 8).expect(&rt, "memory");
    assert!(rt; window.put(8, 80) == Ok(()));
    assert!(rt; window.put(9, 90) == Err(Refused::Beyond { low: 0, item: 90 }));
    assert!(rt; window.put(0, 1) == Err(Refused::Below { low: 0, item: 1 }));
    assert!(rt; window.put(8, 81) == Err(Refused::Filled { item: 81 }));
    window.raise(4);
    assert!(rt; window.first_gap() == 5);
    assert!(rt; window.put(12, 120) == Ok(()));
    assert_changed(&rt, &mut window);
}
