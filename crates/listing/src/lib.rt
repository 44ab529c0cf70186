// Writes a laid-out page as the listing of 01's program `wires`, into a lent buffer. As in `decimals`, a writer takes a place and returns the one behind.
#![tactic(auto)]

ghost use Rattle.std.specs.Prelude.{[], ◌∷◌, ◌++◌, ◌+◌, ◌<◌, ◌≤◌, ◌≡◌, length, get_or};
ghost use Rattle.fixed.specs.Up.{ups};
ghost use Rattle.decimals.specs.Bytes.{TAB, LF};
ghost use Rattle.decimals.specs.Write.{digits, signed, field, Put};
ghost use Rattle.listing.specs.Listing.{line, vertex_line, join_line, join_at, net_line, net_at, listing, refused_line, crowded_line, First};
ghost use Rattle.listing.specs.Lent.{page_of, net_of, part_of, vertices_of, joins_at, all_joins};

use fixed::get_or;

// A laid-out page: rows of five words a net (number, first vertex, vertices, first junction, junctions), the nets' ids, the vertices'
// coordinates and letters, and rows of three words a junction (vertex, joining end vertex, letter).
#[derive(Clone, Copy, Debug, PartialEq, Eq)]
pub struct Page<'a> {
    pub nets: &'a [u32],
    pub ids: &'a [u32],
    pub xs: &'a [i32],
    pub ys: &'a [i32],
    pub kinds: &'a [u8],
    pub junctions: &'a [u32],
}

// A net's id and row: the first of its vertices and how many they are, and the same of its junctions.
#[derive(Clone, Copy, Debug, PartialEq, Eq)]
struct Net {
    id: u32,
    number: u32,
    first: u32,
    vertices: u32,
    begin: u32,
    junctions: u32,
}

// The coordinate at i, or 0 past the end.
#[tactic(auto, using(crate::proofs::Pieces::coord_past))]
fn coord(xs: &[i32], i: usize) -> u32
    ensures { result ≡ get_or (ups xs.now) i 0 }
{
    if i < xs.len() { fixed::at(xs, i) } else { 0 }
}

impl Page<'_> {
    // The net i.
    fn net(self, i: usize) -> Net
        requires { i < 4294967296 }
        ensures { result ≡ net_of (page_of self.entry) i }
    {
        let row = i * 5;
        Net {
            id: get_or(self.ids, i, 0),
            number: get_or(self.nets, row, 0),
            first: get_or(self.nets, row + 1, 0),
            vertices: get_or(self.nets, row + 2, 0),
            begin: get_or(self.nets, row + 3, 0),
            junctions: get_or(self.nets, row + 4, 0),
        }
    }
}

// Writes two numbers as fields.
fn put_pair(buf: &mut [u8], at: usize, a: u32, b: u32) -> usize
    requires { at + length (field (digits a) ++ field (digits b)) ≤ length buf.old }
    ensures { Put buf.old at (field (digits a) ++ field (digits b)) buf.new result }
{
    let next = decimals::put_digits_field(buf, at, a);
    decimals::put_digits_field(buf, next, b)
}

// Writes a place as two fields.
fn put_place(buf: &mut [u8], at: usize, x: u32, y: u32) -> usize
    requires { at + length (field (signed x) ++ field (signed y)) ≤ length buf.old }
    ensures { Put buf.old at (field (signed x) ++ field (signed y)) buf.new result }
{
    let next = decimals::put_step_field(buf, at, x);
    decimals::put_step_field(buf, next, y)
}

// Writes a letter as the last field of a line.
fn put_letter(buf: &mut [u8], at: usize, letter: u8) -> usize
    requires { at + 3 ≤ length buf.old }
    ensures { Put buf.old at (TAB ∷ letter ∷ LF ∷ []) buf.new result }
{
    let bytes = [decimals::TAB, letter, decimals::LF];
    decimals::put_bytes(buf, at, &bytes)
}

// Writes a vertex's line: its index in the net, its place and its letter.
#[tactic(auto, using(crate::proofs::Pieces::rooms))]
fn put_vertex(buf: &mut [u8], at: usize, k: u32, x: u32, y: u32, letter: u8) -> usize
    requires { at + length (line (118 ∷ []) (digits k ∷ signed x ∷ signed y ∷ (letter ∷ []) ∷ [])) ≤ length buf.old }
    ensures { Put buf.old at (line (118 ∷ []) (digits k ∷ signed x ∷ signed y ∷ (letter ∷ []) ∷ [])) buf.new result }
{
    let word = decimals::put_byte(buf, at, b'v');
    let index = decimals::put_digits_field(buf, word, k);
    let place = put_place(buf, index, x, y);
    put_letter(buf, place, letter)
}

// Writes the lines of a net's vertices.
fn put_vertices(buf: &mut [u8], at: usize, page: Page, net: Net) -> usize
    requires { at + length (vertices_of (page_of page) net) ≤ length buf.old }
    ensures { Put buf.old at (vertices_of (page_of page.entry) net) buf.new result }
{
    let mut next = at;
    for k in 0..net.vertices {
        let i = net.first as usize + k as usize;
        let letter = get_or(page.kinds, i, 0);
        next = put_vertex(buf, next, k, coord(page.xs, i), coord(page.ys, i), letter);
    }
    next
}

// Writes a junction's line.
#[tactic(auto, using(crate::proofs::Pieces::rooms), unfolding(crate::specs::Listing::join_line))]
fn put_join(buf: &mut [u8], at: usize, v: u32, e: u32, letter: u8) -> usize
    requires { at + length (join_line v e letter) ≤ length buf.old }
    ensures { Put buf.old at (join_line v e letter) buf.new result }
{
    let word = decimals::put_byte(buf, at, b'j');
    let pair = put_pair(buf, word, v, e);
    put_letter(buf, pair, letter)
}

// Writes the line of the junction row r, if it is one of the net's vertex v.
fn put_join_at(buf: &mut [u8], at: usize, page: Page, net: Net, v: u32, r: usize) -> usize
    requires r_in_bounds { at + length (join_at page.junctions.now net.first v r) ≤ length buf.old }
    requires r_bound { r < 8589934592 }
    ensures { Put buf.old at (join_at page.entry.junctions.now net.first v r) buf.new result }
{
    let row = r * 3;
    if get_or(page.junctions, row, 0) as u64 != net.first as u64 + v as u64 {
        return at;
    }
    let e = get_or(page.junctions, row + 1, 0).saturating_sub(net.first);
    put_join(
        buf,
        at,
        v,
        e,
        (get_or(page.junctions, row + 2, 0) % 256) as u8,
    )
}

// Writes the lines of the junctions of the net's vertex v.
fn put_joins_of(buf: &mut [u8], at: usize, page: Page, net: Net, v: u32) -> usize
    requires { at + length (joins_at (page_of page) net v) ≤ length buf.old }
    ensures { Put buf.old at (joins_at (page_of page.entry) net v) buf.new result }
{
    let mut next = at;
    for j in 0..net.junctions {
        next = put_join_at(buf, next, page, net, v, net.begin as usize + j as usize);
    }
    next
}

// Writes the lines of the net's junctions, vertex by vertex.
fn put_joins(buf: &mut [u8], at: usize, page: Page, net: Net) -> usize
    requires { at + length (all_joins (page_of page) net) ≤ length buf.old }
    ensures { Put buf.old at (all_joins (page_of page.entry) net) buf.new result }
{
    let mut next = at;
    for v in 0..net.vertices {
        next = put_joins_of(buf, next, page, net, v);
    }
    next
}

// Writes a net's own line.
#[tactic(auto, using(crate::proofs::Pieces::rooms), unfolding(crate::specs::Listing::net_line))]
fn put_net_line(buf: &mut [u8], at: usize, net: Net) -> usize
    requires { at + length (net_line net.id net.number net.vertices net.junctions) ≤ length buf.old }
    ensures { Put buf.old at (net_line net.id net.number net.vertices net.junctions) buf.new result }
{
    let word = decimals::put_bytes(buf, at, b"net");
    let pair = put_pair(buf, word, net.id, net.number);
    let counts = put_pair(buf, pair, net.vertices, net.junctions);
    decimals::put_byte(buf, counts, decimals::LF)
}

// Writes what is printed of a net.
#[tactic(auto, using(crate::proofs::Pieces::rooms), unfolding(crate::specs::Listing::net_part))]
fn put_net(buf: &mut [u8], at: usize, page: Page, net: Net) -> usize
    requires { at + length (part_of (page_of page) net) ≤ length buf.old }
    ensures { Put buf.old at (part_of (page_of page.entry) net) buf.new result }
{
    let line = put_net_line(buf, at, net);
    let wires = put_vertices(buf, line, page, net);
    put_joins(buf, wires, page, net)
}

// Writes the listing of a page's first n nets at the buffer's begin; returns its length. A net past the ids has the id 0.
pub fn write_listing(buf: &mut [u8], page: Page, n: usize) -> usize
    requires n_in_bounds { length (listing (page_of page) n) ≤ length buf.old }
    requires n_bound { n < 4294967296 }
    ensures put { Put buf.old 0 (listing (page_of page.entry) n) buf.new result }
    ensures first { First result buf.new }
{
    let mut next = 0;
    for i in 0..n {
        next = put_net(buf, next, page, page.net(i));
    }
    next
}

// Writes what a refused text prints.
pub fn write_refused(buf: &mut [u8], at: u32, inner: u32) -> usize
    requires { 30 ≤ length buf.old }
    ensures put { Put buf.old 0 (refused_line at inner) buf.new result }
    ensures first { First result buf.new }
{
    let word = decimals::put_bytes(buf, 0, b"refused");
    let pair = put_pair(buf, word, at, inner);
    decimals::put_byte(buf, pair, decimals::LF)
}

// Writes what a crowded page prints.
pub fn write_crowded(buf: &mut [u8]) -> usize
    requires { length crowded_line ≤ length buf.old }
    ensures put { Put buf.old 0 crowded_line buf.new result }
    ensures first { First result buf.new }
{
    decimals::put_bytes(buf, 0, b"page\t8\n")
}
