// The junctions of a page.

ghost use Rattle.std.specs.Prelude.{◌≤◌, length};

// The lent rows of a page's junctions, of which j are in use. A row is the vertex that holds the junction, the end vertex that joins there, and the letter of its kind.
#[derive(Drop)]
pub struct Joins<'a> {
    pub rows: &'a mut [u32],
    pub j: usize,
    ghost room: { 768 ≤ length rows.now },
    ghost few: { j ≤ 256 },
}
