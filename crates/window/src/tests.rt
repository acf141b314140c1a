// A window on examples, used as the layer above uses it.
use crate::Window;
use std::test::Fail;

// Cuts a piece to what lies inside the window and before `end`, and takes what is left of it in. Where it starts and stops.
fn take_in(window: &mut Window, place: u64, piece: &mut [u8], end: u64) -> (usize, usize) {
    let cut = window.cut(place, piece.len(), end);
    let (start, stop) = (cut.start, cut.end);
    let at = place + start as u64;
    let part = &mut piece[cut];
    window.overlay(at, part);
    window.learn(at, part);
    (start, stop)
}

#[test]
fn known_bytes_stay(rt: HostRuntime) -> Result<(), Fail> {
    let mut window = Window::new(rt.alloc(), 10)?;
    assert_eq!(rt; take_in(&mut window, 2, &mut [1, 2, 3], 9), (0, 3));
    let mut other = [9, 9, 9, 9, 9, 9];
    assert_eq!(rt; take_in(&mut window, 1, &mut other, 9), (0, 6));
    assert_eq!(rt; other, [9, 1, 2, 3, 9, 9]);
    assert_eq!(rt; window.get(0), None);
    assert_eq!(rt; window.get(4), Some(3));
    assert_eq!(rt; window.none_known(6), false);
    assert_eq!(rt; window.none_known(7), true);
    // cut at both ends
    window.advance(3);
    assert_eq!(rt; take_in(&mut window, 1, &mut [7; 10], 9), (2, 8));
    assert_eq!(rt; window.get(2), None);
    assert_eq!(rt; window.get(8), Some(7));
    window.clear();
    assert_eq!(rt; window.low(), 0);
    assert_eq!(rt; window.none_known(0), true);
    Ok(())
}

#[test]
fn the_ring_wraps(rt: HostRuntime) -> Result<(), Fail> {
    let mut window = Window::new(rt.alloc(), 10)?;
    assert_eq!(rt;
        take_in(&mut window, 0, &mut [5; 1030], u64::MAX),
        (0, 1024)
    );
    assert_eq!(rt; take_in(&mut window, 1024, &mut [6; 100], u64::MAX), (0, 0));
    window.advance(1000);
    assert_eq!(rt;
        take_in(&mut window, 1020, &mut [6; 100], u64::MAX),
        (0, 100)
    );
    let (front, back) = window.known_from(1000);
    assert_eq!(rt; front.len(), 24);
    assert_eq!(rt; back.len(), 96);
    assert_eq!(rt; window.get(1023), Some(5));
    assert_eq!(rt; window.get(1024), Some(6));
    assert_eq!(rt; window.get(1120), None);
    Ok(())
}
