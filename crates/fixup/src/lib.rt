// Separation of wires that share a corridor.
#![tactic(auto)]

ghost use Rattle.std.specs.Prelude.{◌≡◌, not, true, false, ℕ, ◌+◌, ◌-◌, ◌<◌, ◌≤◌, length};
ghost use Rattle.fixed.specs.Up.{ups};
ghost use Rattle.fixed.specs.Track.{TRACKS};
ghost use Rattle.vertex.specs.Pages.{VERTICES, rows, Joined, Within};
ghost use Rattle.tracks.specs.Corridors.{KeyOk};
ghost use Rattle.tracks.specs.Held.{pairs_in};
ghost use Rattle.fixup.specs.Moves.{places, copy_to, start_at, line_move, corner_move, row_step, move as move_to, move_junctions, put_pair, move_pair, move_key, Side, LOWEST, HIGHEST};
ghost use Rattle.fixup.specs.Separation.{separate_axis, separate_wires, Listed};

use tracks::types::{Corridors, VERTICES};
use tracks::{CORNER, PLACES};
use types::Page;
use vertex::VertexKind;

mod types;

// Gives the vertex e the coordinate of v.
fn copy_to(xs: &mut [i32], v: usize, e: usize)
    requires { (v < length xs.old) × (e < length xs.old) }
    ensures { ups xs.new ≡ copy_to (ups xs.old) v e }
{
    let u = fixed::at(xs, v);
    fixed::put(xs, e, u);
}

fn put_pair(xs: &mut [i32], i: usize, c: u32)
    requires { i + 1 < length xs.old }
    ensures { ups xs.new ≡ put_pair (ups xs.old) i c }
{
    fixed::put(xs, i, c);
    fixed::put(xs, i + 1, c);
}

// The end e, which joins the segment from i on, keeps to the segment's line.
#[tactic(auto, unfolding(crate::specs::Moves::line_move))]
fn move_line(x: &mut [i32], y: &mut [i32], i: usize, e: usize)
    requires { (length y.old ≡ length x.old) × (i + 1 < length x.old) × (e < length x.old) }
    ensures { places (ups x.new) (ups y.new) ≡ line_move (places (ups x.old) (ups y.old)) i e }
{
    if tracks::same(y, i, i + 1) {
        copy_to(y, i, e);
    } else if tracks::same(x, i, i + 1) {
        copy_to(x, i, e);
    }
}

impl Page<'_> {
    fn start_at(&self, p: usize) -> bool
        requires { p < self.now.vertices }
        ensures { result ≡ start_at self.now.kinds.now p }
    {
        VertexKind::from(self.kinds[p]).is_start()
    }

    // The end e goes to the vertex v that it joins, and the vertex before it follows unless it is a start. Says whether it is none.
    #[tactic(auto, unfolding(crate::specs::Moves::corner_move))]
    fn move_corner(&self, x: &mut [i32], y: &mut [i32], v: usize, e: usize) -> bool
        requires held { (length x.old ≡ self.now.vertices) × (length y.old ≡ self.now.vertices) }
        requires v_in_bounds { (v < self.now.vertices) × (0 < e) × (e < self.now.vertices) }
        ensures { (result ≡ not (start_at self.now.kinds.now (e - 1))) × (places (ups x.new) (ups y.new) ≡ corner_move self.now.kinds.now (places (ups x.old) (ups y.old)) v e) }
    {
        let horizontal = tracks::same(y, e, e - 1);
        let vertical = tracks::same(x, e, e - 1);
        copy_to(x, v, e);
        copy_to(y, v, e);
        if self.start_at(e - 1) {
            return false;
        }
        if horizontal {
            copy_to(y, v, e - 1);
        } else if vertical {
            copy_to(x, v, e - 1);
        }
        true
    }

    // Takes along what the junction j of the vertex v joins to the pair at i, where v is the pair's first vertex or its second.
    #[cycle(follow_move_side)]
    fn follow(&self, x: &mut [i32], y: &mut [i32], i: usize, v: usize, j: usize)
        requires held { (length x.old ≡ self.now.vertices) × (length y.old ≡ self.now.vertices) }
        requires side { Side self.now.vertices i v }
        requires j_bound { j < rows self.now.junctions.now }
        ensures { (k : ℕ) → self.now.vertices ≤ i + ℕ.suc k → places (ups x.new) (ups y.new) ≡ row_step k self.now.kinds.now self.now.junctions.now j i v (places (ups x.old) (ups y.old)) }
    {
        if self.junctions[3 * j] as usize != v {
            return;
        }
        let e = self.junctions[3 * j + 1] as usize;
        if self.junctions[3 * j + 2] != CORNER {
            if i == v {
                move_line(x, y, i, e);
            }
            return;
        }
        if self.move_corner(x, y, v, e) {
            self.move_side(x, y, e - 1, e - 1);
            self.move_side(x, y, e - 1, e);
        }
    }

    // Takes along what the junctions of the vertex v join to the pair at i.
    #[cycle(follow_move_side)]
    fn move_side(&self, x: &mut [i32], y: &mut [i32], i: usize, v: usize)
        requires held { (length x.old ≡ self.now.vertices) × (length y.old ≡ self.now.vertices) }
        requires side { Side self.now.vertices i v }
        ensures { (k : ℕ) → self.now.vertices ≤ i + k → places (ups x.new) (ups y.new) ≡ move_to k self.now.kinds.now self.now.junctions.now (rows self.now.junctions.now) i v (places (ups x.old) (ups y.old)) }
    {
        for j in 0..self.junctions.len() / 3 {
            self.follow(x, y, i, v, j);
        }
    }

    // Moves the pair at i to the coordinate c, and takes along all that joins it, recursively: first what joins its first vertex or segment, then what joins its second vertex.
    fn move_pair(&self, x: &mut [i32], y: &mut [i32], vertical: bool, i: usize, c: u32)
        requires held { (length x.old ≡ self.now.vertices) × (length y.old ≡ self.now.vertices) }
        requires i_bound { i + 1 < self.now.vertices }
        ensures { places (ups x.new) (ups y.new) ≡ move_pair vertical self.now.kinds.now self.now.junctions.now (places (ups x.old) (ups y.old)) i c }
    {
        if vertical {
            put_pair(x, i, c);
        } else {
            put_pair(y, i, c);
        }
        self.move_side(x, y, i, i);
        self.move_side(x, y, i, i + 1);
    }

    // Moves the pair of a key by the offset of its track.
    fn move_key(&self, x: &mut [i32], y: &mut [i32], vertical: bool, key: u64, t: u32)
        requires held { (length x.old ≡ self.now.vertices) × (length y.old ≡ self.now.vertices) }
        requires key_ok { KeyOk LOWEST HIGHEST self.now.vertices key × (t < TRACKS) }
        ensures { places (ups x.new) (ups y.new) ≡ move_key vertical self.now.kinds.now self.now.junctions.now key t (places (ups x.old) (ups y.old)) }
    {
        if t != 0 {
            let c = fixed::moved((key / PLACES) as u32, fixed::track_offset(t));
            self.move_pair(x, y, vertical, tracks::pair_of(key), c);
        }
    }

    // Gives the pairs of an axis their tracks, and moves them, in the order of their keys.
    fn separate_axis(&self, x: &mut [i32], y: &mut [i32], vertical: bool, corridors: &Corridors)
        requires held { (length x.old ≡ self.now.vertices) × (length y.old ≡ self.now.vertices) }
        requires listed { Listed self.now.vertices (pairs_in corridors.now).keys }
        ensures { places (ups x.new) (ups y.new) ≡ separate_axis vertical (pairs_in corridors.now) self.now.kinds.now self.now.junctions.now (places (ups x.old) (ups y.old)) }
    {
        let mut track = [0; VERTICES];
        corridors.assign_tracks(&mut track);
        for k in 0..corridors.count {
            self.move_key(x, y, vertical, corridors.key(k), track[k]);
        }
    }
}

// Moves the wires of a page that share a corridor apart: all pairs are gathered before any moves, and the horizontal ones move first.
pub fn separate_wires(x: &mut [i32], y: &mut [i32], kinds: &[u8], junctions: &[u32])
    requires joined { Joined (length x.old) junctions.now }
    requires y_len { (length y.old ≡ length x.old) × (length x.old ≤ length kinds.now) × (length x.old ≤ VERTICES) }
    requires within { Within LOWEST HIGHEST (length x.old) (ups x.old) × Within LOWEST HIGHEST (length x.old) (ups y.old) }
    ensures { places (ups x.new) (ups y.new) ≡ separate_wires kinds.now junctions.now (places (ups x.old) (ups y.old)) }
{
    let page = Page {
        vertices: x.len(),
        kinds,
        junctions,
    };
    let mut horizontal = Corridors::none();
    horizontal.gather(x, y, kinds, junctions, false);
    let mut vertical = Corridors::none();
    vertical.gather(y, x, kinds, junctions, true);
    page.separate_axis(x, y, false, &horizontal);
    page.separate_axis(x, y, true, &vertical);
}
