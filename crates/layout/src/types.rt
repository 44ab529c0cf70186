// What a page is drawn in.

ghost use Rattle.std.specs.Prelude.{◌≤◌, length};
ghost use Rattle.layout.specs.Layout.{NET_WORDS, JOIN_WORDS};
ghost use Rattle.vertex.specs.Pages.{VERTICES};

// The lent lists that a page is drawn in: the nets' rows, the vertices' places and letters, and the junctions' rows.
#[derive(Drop)]
pub struct Sheet<'a> {
    pub nets: &'a mut [u32],
    pub x: &'a mut [i32],
    pub y: &'a mut [i32],
    pub letters: &'a mut [u8],
    pub joins: &'a mut [u32],
    ghost nets_room: { NET_WORDS ≤ length nets.now },
    ghost x_room: { VERTICES ≤ length x.now },
    ghost y_room: { VERTICES ≤ length y.now },
    ghost letters_room: { VERTICES ≤ length letters.now },
    ghost joins_room: { JOIN_WORDS ≤ length joins.now },
}
