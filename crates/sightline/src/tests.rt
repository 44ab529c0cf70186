// The cutoffs of coordinates counted from -2^31, which no program asks, by values worked out by hand.
ghost use Rattle.std.specs.Prelude.{◌≡◌, true};
ghost use Rattle.sightline.specs.Sight.{Rising};

use crate::{
    Axis, Line, find_neg_x_cutoff, find_neg_y_cutoff, find_pos_x_cutoff, find_pos_y_cutoff,
};
use fixed::PaddedBox;

// Whether coordinates are in rising order.
fn are_rising(coords: &[u32]) -> bool
    ensures { result ≡ true → Rising coords.now }
{
    coords.is_sorted()
}

// A box from 10 to 20 along x and from 12 to 25 along y, and one that is no wider than a point.
const BOXES: [PaddedBox; 2] = [
    PaddedBox {
        min_x: 10,
        min_y: 12,
        max_x: 20,
        max_y: 25,
    },
    PaddedBox {
        min_x: 40,
        min_y: 50,
        max_x: 40,
        max_y: 50,
    },
];

#[test]
fn ends_views(rt: HostRuntime) {
    let coords = [0, 9, 10, 20, 21, 30];
    assert!(rt; are_rising(&coords));
    let boxes = &BOXES;
    let (clear, along_x, along_y) = ((100, 106), (104, 102), (105, 103));
    // The lines at one coordinate on either axis: through the first box, on an edge of it, past it along one axis, and where it is ignored.
    for (at, ignore, level, upright) in [
        (15, 2, along_x, along_y),
        (20, 2, along_x, along_y),
        (11, 2, clear, along_y),
        (25, 2, along_x, clear),
        (15, 0, clear, clear),
    ] {
        assert_eq!(rt;
            find_neg_x_cutoff(boxes, at, &coords, 35, 100, ignore),
            level.0
        );
        assert_eq!(rt;
            find_pos_x_cutoff(boxes, at, 0, &coords, 100, ignore),
            level.1
        );
        assert_eq!(rt;
            find_neg_y_cutoff(boxes, at, &coords, 35, 100, ignore),
            upright.0
        );
        assert_eq!(rt;
            find_pos_y_cutoff(boxes, at, 0, &coords, 100, ignore),
            upright.1
        );
    }
    let line = Line {
        boxes,
        along: Axis::Y,
        at: 40,
        ignore: 0,
    };
    assert_eq!(rt; line.cutoff(60, &coords, 0, false), 6);
    assert_eq!(rt; line.cutoff(0, &coords, 0, true), 6);
}
