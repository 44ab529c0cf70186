// Lists of coordinates counted from -2^31, which no program makes, by values worked out by hand.
use crate::{edges, insert};
use fixed::{Axis, PaddedBox};

#[test]
fn inserts_each_once(rt: HostRuntime) {
    let mut axis = [9; 4];
    let n = insert(&mut axis, 0, 7);
    let n = insert(&mut axis, n, 3);
    let n = insert(&mut axis, n, 7);
    let n = insert(&mut axis, n, 5);
    assert_eq!(rt; n, 3);
    assert_eq!(rt; axis, [3, 5, 7, 9]);
}

#[test]
fn lists_edges(rt: HostRuntime) {
    let boxes = [
        PaddedBox {
            min_x: 20,
            min_y: 5,
            max_x: 40,
            max_y: 4294967295,
        },
        PaddedBox {
            min_x: 0,
            min_y: 5,
            max_x: 20,
            max_y: 7,
        },
    ];
    let mut axis = [9; 5];
    assert_eq!(rt; edges(&mut axis, &boxes, Axis::X), 3);
    assert_eq!(rt; &axis[..3], [0, 20, 40].as_slice());
    assert_eq!(rt; edges(&mut axis, &boxes, Axis::Y), 3);
    assert_eq!(rt; &axis[..3], [5, 7, 4294967295].as_slice());
    assert_eq!(rt; axis[4], 9);
}
