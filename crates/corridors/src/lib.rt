// Corridors between padded boxes: the implicit anchors.
#![tactic(auto)]

ghost use Rattle.std.specs.Prelude.{◌≡◌, ◌+◌, ◌-◌, ◌<◌, ◌≤◌, length, get_or, take, drop, ◌++◌, [], ◌∷◌};
ghost use Rattle.fixed.specs.Constants.{BOXES};
ghost use Rattle.fixed.specs.Up.{ups};
ghost use Rattle.fixed.specs.Steps.{middle};
ghost use Rattle.fixed.specs.Boxes.{across};
ghost use Rattle.corridors.specs.Sizes.{EDGES, ANCHORS};
ghost use Rattle.corridors.specs.Grid.{seen, stacked, all_runs};
ghost use Rattle.corridors.specs.Merge.{take_out, fold, corridor, row_corridors, corridors, anchors as anchors_of};
ghost use Rattle.corridors.specs.Answer.{Inside, Bounded, Answered, Kept};
ghost use Rattle.corridors.specs.Lent.{run, table, taken, MarkedSpan, MarkedRow, anchor, alongs, plan, Emitted, Laid};

mod row;

use fixed::{Anchor, Axis, PaddedBox};
use row::{CELLS, Row, Run};

// The most edges of the boxes on an axis.
const EDGES: usize = 128;

// The most implicit anchors.
pub const ANCHORS: usize = 2048;

// Directions: NegX and PosX, NegY and PosY. The box that an anchor ignores that ignores none.
const X: u32 = 3;

const Y: u32 = 12;

const NONE: u32 = 4294967295;

// Marks the cells that begin from f to before t.
fn mark_cells(marks: &mut [bool], xs: &[i32], f: u32, t: u32)
    requires { length marks.old ≤ length xs.now }
    ensures { MarkedSpan f t (ups xs.now) marks.old marks.new }
{
    for k in 0..marks.len() {
        let x = fixed::at(xs, k);
        marks[k] = marks[k] | ((f <= x) & (x < t));
    }
}

// The steps of the coordinate i, or 0.
fn coord(xs: &[i32], i: usize) -> u32
    ensures { result ≡ get_or (ups xs.now) i 0 }
{
    if i < xs.len() { fixed::at(xs, i) } else { 0 }
}

// Takes the run v out of each row from `from` on until a row lacks it: that row, or their count.
#[tactic(auto, using(crate::proofs::Taking::out))]
fn take_out(rows: &mut [Row], v: Run, from: usize) -> usize
    requires { from ≤ length rows.old }
    ensures { taken result (table rows.new) ≡ take_out (run v) from (length rows.old - from) (table rows.old) }
{
    for k in from..rows.len() {
        if !rows[k].remove(v) {
            return k;
        }
    }
    rows.len()
}

// An anchor of a run along an axis: u along, w across.
fn anchor(along: Axis, u: u32, w: u32) -> Anchor
    ensures { result ≡ anchor along u w }
{
    match along {
        Axis::X => Anchor {
            x: u,
            y: w,
            directions: X,
            ignored: NONE,
        },
        Axis::Y => Anchor {
            x: w,
            y: u,
            directions: Y,
            ignored: NONE,
        },
    }
}

// Padded boxes, and the cells between their sorted distinct edges along an axis and across it. No heap: anchors lie in the caller's list, their count beside it.
#[derive(Clone, Copy, Debug, PartialEq, Eq)]
struct Grid<'a> {
    boxes: &'a [PaddedBox],
    along: Axis,
    xs: &'a [i32],
    ys: &'a [i32],
    ghost few: { length xs.now ≤ EDGES },
    ghost inside: { Inside (length xs.now) (ups xs.now) },
}

impl Grid<'_> {
    // Marks the cells of the row at y that a box fills.
    #[tactic(auto, using(crate::proofs::Covering::marking))]
    fn mark_row(&self, marks: &mut [bool], y: u32)
        requires { length marks.old ≤ length self.now.xs.now }
        ensures { MarkedRow (seen self.now.along self.now.boxes.now) y (length self.now.boxes.now) (ups self.now.xs.now) marks.new }
    {
        let across = self.along.across();
        marks.fill(false);
        for b in self.boxes {
            if (b.least(across) <= y) & (y < b.greatest(across)) {
                mark_cells(marks, self.xs, b.least(self.along), b.greatest(self.along));
            }
        }
    }

    // The empty runs of the rows.
    #[tactic(auto, using(crate::proofs::Filling::rows, crate::proofs::Covering::marked))]
    fn all_runs(&self, rows: &mut [Row])
        requires { length rows.old ≤ length self.now.ys.now }
        ensures { table rows.new ≡ all_runs (seen self.now.along self.now.boxes.now) (ups self.now.xs.now) (ups self.now.ys.now) 0 (length rows.old) }
    {
        let mut marks = [false; CELLS];
        let marks = &mut marks[..self.xs.len().saturating_sub(1)];
        for i in 0..rows.len() {
            self.mark_row(marks, fixed::at(self.ys, i));
            rows[i].list_runs(marks);
        }
    }

    // The two anchors of the run v of the rows from i to before top, behind the first `made`, if there is room.
    fn yields(
        &self,
        anchors: &mut [Anchor],
        i: usize,
        v: Run,
        top: usize,
        made: usize,
    ) -> Option<usize>
        requires { (made ≤ ANCHORS) × (ANCHORS ≤ length anchors.old) }
        ensures { let g = self.now in Emitted g.along made result anchors.old anchors.new (get_or (ups g.xs.now) v.start 0 + 1) (get_or (ups g.xs.now) v.end 0 - 1) (middle (get_or (ups g.ys.now) i 0) (get_or (ups g.ys.now) top 0)) }
    {
        if ANCHORS < made + 2 {
            return None;
        }
        let lo = coord(self.xs, v.start as usize) + fixed::EPSILON;
        let hi = coord(self.xs, v.end as usize).saturating_sub(fixed::EPSILON);
        let mid = fixed::middle(coord(self.ys, i), coord(self.ys, top));
        anchors[made] = anchor(self.along, lo, mid);
        anchors[made + 1] = anchor(self.along, hi, mid);
        Some(made + 2)
    }

    // The corridors of the runs of the row i.
    fn row_corridors(
        &self,
        rows: &mut [Row],
        anchors: &mut [Anchor],
        i: usize,
        begin: usize,
    ) -> Option<usize>
        requires { (i < length rows.old) × (begin ≤ ANCHORS) × (ANCHORS ≤ length anchors.old) }
        ensures { let g = self.now in Laid g.along begin result anchors.old anchors.new rows.new (row_corridors (ups g.xs.now) (ups g.ys.now) (length rows.old) i (plan g.along rows.old (take begin anchors.old))) }
    {
        let mut made = begin;
        for j in 0..rows[i].runs().len() {
            let v = rows[i].runs()[j];
            let top = take_out(rows, v, i + 1);
            made = self.yields(anchors, i, v, top, made)?;
        }
        Some(made)
    }

    // The corridors of the rows.
    #[tactic(auto, using(crate::proofs::Laying::going))]
    fn merged(&self, rows: &mut [Row], anchors: &mut [Anchor], begin: usize) -> Option<usize>
        requires { (begin ≤ ANCHORS) × (ANCHORS ≤ length anchors.old) }
        ensures { let g = self.now in Laid g.along begin result anchors.old anchors.new rows.new (fold (row_corridors (ups g.xs.now) (ups g.ys.now) (length rows.old)) 0 (length rows.old) (plan g.along rows.old (take begin anchors.old))) }
    {
        let mut made = begin;
        for i in 0..rows.len() {
            made = self.row_corridors(rows, anchors, i, made)?;
        }
        Some(made)
    }

    // The corridors along the axis: anchors behind the first `begin`.
    #[tactic(auto, using(crate::proofs::Laying::whole_plan))]
    fn corridors(&self, rows: &mut [Row], anchors: &mut [Anchor], begin: usize) -> Option<usize>
        requires { (length rows.old ≡ length self.now.ys.now - 1) × (begin ≤ ANCHORS) × (ANCHORS ≤ length anchors.old) }
        ensures { let g = self.now in let s = take begin anchors.old in Laid g.along begin result anchors.old anchors.new rows.new (corridors (seen g.along g.boxes.now) (ups g.xs.now) (ups g.ys.now) (alongs g.along s) (alongs (across g.along) s)) }
    {
        self.all_runs(rows);
        self.merged(rows, anchors, begin)
    }
}

// The anchors of the corridors along x, then of those along y: their count, or none if there are more than ANCHORS.
fn implicit_anchors(boxes: &[PaddedBox], anchors: &mut [Anchor]) -> Option<usize>
    requires boxes_bound { length boxes.now ≤ BOXES }
    requires room { ANCHORS ≤ length anchors.old }
    requires edges_bound { Bounded boxes.now }
    ensures value { Answered result anchors.new (anchors_of (stacked boxes.now)) }
    ensures rest { Kept result anchors.old anchors.new }
{
    let mut xs = [0i32; EDGES];
    let mut ys = [0i32; EDGES];
    let nx = axis::edges_signed(&mut xs, boxes, Axis::X);
    let ny = axis::edges_signed(&mut ys, boxes, Axis::Y);
    let (xs, ys) = (&xs[..nx], &ys[..ny]);
    let level_grid = Grid {
        boxes,
        along: Axis::X,
        xs,
        ys,
    };
    let upright_grid = Grid {
        boxes,
        along: Axis::Y,
        xs: ys,
        ys: xs,
    };
    let mut rows = [Row::EMPTY; CELLS];
    let level = level_grid.corridors(&mut rows[..ny.saturating_sub(1)], anchors, 0)?;
    upright_grid.corridors(&mut rows[..nx.saturating_sub(1)], anchors, level)
}

// The implicit anchors between padded boxes, in the first places of `anchors`: their count, or none if there are more than ANCHORS.
pub fn generate_implicit_anchors(boxes: &[PaddedBox], anchors: &mut [Anchor]) -> Option<usize>
    requires boxes_bound { length boxes.now ≤ BOXES }
    requires room { ANCHORS ≤ length anchors.old }
    requires edges_bound { Bounded boxes.now }
    ensures value { Answered result anchors.new (anchors_of (stacked boxes.now)) }
    ensures rest { Kept result anchors.old anchors.new }
    ensures behind { drop ANCHORS anchors.new ≡ drop ANCHORS anchors.old }
{
    implicit_anchors(boxes, &mut anchors[..ANCHORS])
}
