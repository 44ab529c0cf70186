// What wires are made of, and where they go.

ghost use Rattle.std.specs.Prelude.{◌≤◌, length};
ghost use Rattle.astar.specs.Reached.{Below};
ghost use Rattle.nodes.specs.Graph.{NODES};

use nodes::Graph;

// A place; its coordinates are counted from -2^31.
#[derive(Clone, Copy, Debug, PartialEq, Eq)]
pub struct Place {
    pub x: u32,
    pub y: u32,
}

// An end that a net offers to its later wires: its place, the vertex that holds a junction there, and the letter of what a wire's end that joins there carries.
// The letter is a word, as in a junction's row; `kind` reads it.
#[derive(Clone, Copy, Debug, PartialEq, Eq)]
pub struct End {
    pub at: Place,
    pub vertex: u32,
    pub letter: u32,
}

// A line: a path of a graph.
#[derive(Clone, Copy)]
pub struct Line<'a> {
    pub graph: &'a Graph,
    pub path: &'a [u32],
    ghost below: { Below graph.now.count path.now },
    ghost few: { length path.now ≤ NODES },
}

// A wire where there is no line: from `start` to `end`, first along x or first along y.
#[derive(Clone, Copy, Debug, PartialEq, Eq)]
pub struct Fallback {
    pub start: Place,
    pub end: Place,
    pub along: bool,
}

// Where the wires of a net go: the lent lists of the page's vertices, of which n are in use, and the net's ends, of which m are in use.
#[derive(Drop)]
pub struct Wires<'a> {
    pub x: &'a mut [i32],
    pub y: &'a mut [i32],
    pub letters: &'a mut [u8],
    pub n: usize,
    pub ends: &'a mut [End],
    pub m: usize,
    ghost x_room: { 512 ≤ length x.now },
    ghost y_room: { 512 ≤ length y.now },
    ghost letters_room: { 512 ≤ length letters.now },
    ghost ends_room: { 4096 ≤ length ends.now },
    ghost few_vertices: { n ≤ 512 },
    ghost few_ends: { m ≤ 4096 },
}
