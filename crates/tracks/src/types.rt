// What the corridors of an axis are made of.
#![tactic(auto)]

ghost use Rattle.std.specs.Prelude.{◌≡◌, ◌≤◌, length};
ghost use Rattle.std.proofs.Props.{props};
ghost use Rattle.vertex.specs.Pages.{Joined};

// The most vertices of a page.
pub const VERTICES: usize = 512;

// How a pair of vertices may move.
#[derive(Clone, Copy, Debug, PartialEq, Eq)]
pub enum Movement {
    Skipped,
    Free,
    Restricted,
    Locked,
}

// A run along a corridor.
#[derive(Clone, Copy, Debug, PartialEq, Eq)]
pub struct Extent {
    pub low: u32,
    pub high: u32,
}

// The vertices and junctions of a page as one axis goes: `along` its corridors and `across` them. `second` says that the pairs of the other axis come first.
#[derive(Clone, Copy, Debug, PartialEq, Eq)]
pub struct Axis<'a> {
    pub along: &'a [i32],
    pub across: &'a [i32],
    pub kinds: &'a [u8],
    pub junctions: &'a [u32],
    pub second: bool,
    pub ghost paired: { length along.now ≡ length across.now },
    pub ghost known: { length across.now ≤ length kinds.now },
    pub ghost joined: { Joined (length across.now) junctions.now } by { Prim.hlevel props },
}

// The corridors of an axis: the keys of its pairs, by rise, of which there are `count`, and the extent of each pair. No heap: arrays and a count.
#[derive(Debug, PartialEq, Eq, Drop)]
pub struct Corridors {
    pub keys: [u64; VERTICES],
    pub count: usize,
    pub extents: [Extent; VERTICES],
    pub ghost few: { count ≤ 512 },
}
