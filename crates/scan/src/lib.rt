// Scans over the axis lists, and the graph that they build.
#![tactic(auto)]

ghost use Rattle.std.specs.Prelude.{◌≡◌, ◌<◌, ◌≤◌, cond, ltb, length};
ghost use Rattle.fixed.specs.Up.{ups};
ghost use Rattle.sightline.specs.Sight.{Rising, cutoff};
ghost use Rattle.sightline.specs.Beyond.{index, axis_of, axis};
ghost use Rattle.sightline.specs.Lent.{line, line_of};
ghost use Rattle.sightline.specs.Columns.{Held};
ghost use Rattle.nodes.specs.Graph.{empty};
ghost use Rattle.nodes.specs.Columns.{graph_of};
ghost use Rattle.nodes.specs.Lent.{Built, Met};
ghost use Rattle.nodes.specs.Map.{Keyed};
ghost use Rattle.scan.specs.Walk.{along, room, next, step, walk, reach};
ghost use Rattle.scan.specs.Scan.{has, toward, scans, scan_anchor, build_nodes, build};
ghost use Rattle.scan.specs.Lent.{way_in, page_in, anchor_in, graph_in, Paged, Kept, anchors as anchors_of};

use fixed::{Anchor, Axis, PaddedBox};
use nodes::{Graph, Map};
use sightline::{Columns, Direction, Line};

// The mark of all four directions.
const ALL: u32 = 15;

// The boxes of a page and its axis lists.
#[derive(Clone, Copy, Debug, PartialEq, Eq)]
pub struct Page<'a> {
    pub boxes: &'a [PaddedBox],
    pub ax: &'a [i32],
    pub ay: &'a [i32],
}

// The way of a scan: its direction, the coordinate across it, the axis list that it follows, and the anchor's index on that list.
#[derive(Clone, Copy, Debug, PartialEq, Eq)]
struct Way<'a> {
    dir: Direction,
    across: u32,
    axis: &'a [i32],
    from: usize,
}

// An anchor that scans: its node, and its indices on the axis lists.
#[derive(Clone, Copy, Debug, PartialEq, Eq)]
struct Start {
    anchor: Anchor,
    node: usize,
    i: usize,
    j: usize,
}

// The graph of a page while it is built, the map of its places, and the columns of the page's boxes, unless they are too many.
#[derive(Drop)]
struct Builder<'a> {
    page: Page<'a>,
    columns: Option<Columns>,
    graph: &'a mut Graph,
    map: Map,
}

// The cutoff on a line. Columns, if there are any, hold its boxes, and take less time.
fn cutoff(line: Line, columns: &Option<Columns>, anchor: u32, coords: &[i32], ahead: bool) -> usize
    requires asked { Held line.boxes.now columns.now }
    requires rising { Rising (ups coords.now) }
    ensures { result ≡ cutoff (line_of line.entry) anchor ahead (ups coords.now) 0 }
{
    match columns {
        Some(columns) => columns.cutoff(line.along, line.at, line.ignore, anchor, coords, 0, ahead),
        None => line.cutoff_signed(anchor, coords, 0, ahead),
    }
}

impl Way<'_> {
    // The coordinate of the step k.
    #[tactic(auto, using(crate::proofs::Reaches::ways))]
    fn along(self, k: usize) -> u32
        requires { (self.from < length self.axis.now) × (k < room (index self.dir) self.from (length self.axis.now)) }
        ensures { result ≡ along (ups self.entry.axis.now) (index self.entry.dir) self.entry.from k }
    {
        if self.dir.is_ahead() {
            fixed::at(self.axis, self.from + (k + 1))
        } else {
            fixed::at(self.axis, self.from - (k + 1))
        }
    }

    // The place at the coordinate c.
    #[tactic(auto, using(crate::proofs::Reaches::sides))]
    fn place_at(self, c: u32) -> (u32, u32)
        ensures x { result.0 ≡ cond (ltb (index self.entry.dir) 2) c self.entry.across }
        ensures y { result.1 ≡ cond (ltb (index self.entry.dir) 2) self.entry.across c }
    {
        match self.dir.axis() {
            Axis::X => (c, self.across),
            Axis::Y => (self.across, c),
        }
    }

    // How many coordinates next to the anchor are clear.
    fn reach(self, page: Page, columns: &Option<Columns>, anchor: u32, ignore: usize) -> usize
        requires asked { Held page.boxes.now columns.now }
        requires follows { self.axis.now ≡ axis self.dir page.ax.now page.ay.now }
        requires rising { Rising (ups self.axis.now) }
        requires from_in { self.from < length self.axis.now }
        ensures { result ≡ reach (line page.entry.boxes.now (axis_of self.entry.dir) self.entry.across ignore) anchor (index self.entry.dir) (ups self.entry.axis.now) self.entry.from }
    {
        let line = Line {
            boxes: page.boxes,
            along: self.dir.axis(),
            at: self.across,
            ignore,
        };
        let part = sightline::beyond(page.ax, page.ay, self.dir, self.from);
        let ahead = self.dir.is_ahead();
        let cut = cutoff(line, columns, anchor, part, ahead);
        if ahead { cut } else { self.from - cut }
    }
}

// Whether the direction d is among dirs.
#[tactic(auto, using(crate::proofs::Reaches::bits))]
fn has(dirs: u32, d: Direction) -> bool
    ensures { result ≡ has dirs (index d) }
{
    dirs & d.bit() != 0
}

impl Builder<'_> {
    // The step k of a scan: the node there is met or made, and linked with the one before.
    fn step(&mut self, way: Way, prev: usize, k: usize) -> Option<usize>
        requires prev_in { prev < self.old.graph.now.count }
        requires from_in { (way.from < length way.axis.now) × (k < room (index way.dir) way.from (length way.axis.now)) }
        requires keyed { Keyed self.old.map (graph_in self.old) }
        ensures met { Met result (next (way_in way.entry) (graph_in self.old) k) (graph_in self.new) (step (way_in way.entry) (graph_in self.old) prev k) }
        ensures kept { Kept self.old self.new }
    {
        let (x, y) = way.place_at(way.along(k));
        let node = self.graph.place(&mut self.map, x, y, ALL)?;
        self.graph.link_both(way.dir.index(), prev, node);
        Some(node)
    }

    // At most m steps; it ends at a node that has a link onward.
    fn walk(&mut self, way: Way, start: usize, m: usize) -> Option<()>
        requires start_in { start < self.old.graph.now.count }
        requires from_in { (way.from < length way.axis.now) × (m ≤ room (index way.dir) way.from (length way.axis.now)) }
        requires keyed { Keyed self.old.map (graph_in self.old) }
        ensures built { Built result (graph_in self.new) (walk (way_in way.entry) (graph_in self.old) start 0 m) }
        ensures kept { Kept self.old self.new }
    {
        let mut prev = start;
        for k in 0..m {
            prev = self.step(way, prev, k)?;
            if self.graph.link(prev, way.dir.index()) != nodes::NONE {
                return Some(());
            }
        }
        Some(())
    }

    // The scan of an anchor in a direction, if that is among its directions.
    fn toward(&mut self, start: Start, dir: Direction) -> Option<()>
        requires paged { Paged (page_in self.old.page) }
        requires asked { Held self.old.page.boxes.now self.old.columns }
        requires start_in { (start.node < self.old.graph.now.count) × (start.i < length self.old.page.ax.now) × (start.j < length self.old.page.ay.now) }
        requires keyed { Keyed self.old.map (graph_in self.old) }
        ensures built { Built result (graph_in self.new) (toward (page_in self.old.page) (anchor_in start.anchor) start.node start.i start.j (index dir) (graph_in self.old)) }
        ensures kept { Kept self.old self.new }
    {
        let anchor = start.anchor;
        if !has(anchor.directions, dir) {
            return Some(());
        }
        let (way, at) = match dir.axis() {
            Axis::X => (
                Way {
                    dir,
                    across: anchor.y,
                    axis: self.page.ax,
                    from: start.i,
                },
                anchor.x,
            ),
            Axis::Y => (
                Way {
                    dir,
                    across: anchor.x,
                    axis: self.page.ay,
                    from: start.j,
                },
                anchor.y,
            ),
        };
        let m = way.reach(self.page, &self.columns, at, anchor.ignored as usize);
        self.walk(way, start.node, m)
    }

    // The scans of an anchor in its directions.
    fn scans(&mut self, start: Start) -> Option<()>
        requires paged { Paged (page_in self.old.page) }
        requires asked { Held self.old.page.boxes.now self.old.columns }
        requires start_in { (start.node < self.old.graph.now.count) × (start.i < length self.old.page.ax.now) × (start.j < length self.old.page.ay.now) }
        requires keyed { Keyed self.old.map (graph_in self.old) }
        ensures built { Built result (graph_in self.new) (scans (page_in self.old.page) (anchor_in start.anchor) start.node start.i start.j (graph_in self.old)) }
        ensures kept { Kept self.old self.new }
    {
        for dir in Direction::ALL {
            self.toward(start, dir)?;
        }
        Some(())
    }

    // The scans of an anchor that has a node and stands on both axis lists.
    fn scan_anchor(&mut self, anchor: Anchor) -> Option<()>
        requires paged { Paged (page_in self.old.page) }
        requires asked { Held self.old.page.boxes.now self.old.columns }
        requires keyed { Keyed self.old.map (graph_in self.old) }
        ensures built { Built result (graph_in self.new) (scan_anchor (page_in self.old.page) (anchor_in anchor) (graph_in self.old)) }
        ensures kept { Kept self.old self.new }
    {
        if let Some(node) = self.map.look_up(self.graph, anchor.x, anchor.y) {
            let i = axis::index(self.page.ax, anchor.x);
            let j = axis::index(self.page.ay, anchor.y);
            if i < self.page.ax.len() && j < self.page.ay.len() {
                return self.scans(Start { anchor, node, i, j });
            }
        }
        Some(())
    }

    // A node for each anchor's place, in a graph of none.
    fn build_nodes(&mut self, anchors: &[Anchor], explicit: usize) -> Option<()>
        requires none { graph_in self.old ≡ empty }
        requires keyed { Keyed self.old.map (graph_in self.old) }
        ensures built { Built result (graph_in self.new) (build_nodes (anchors_of anchors.now explicit)) }
        ensures kept { Kept self.old self.new }
    {
        build_nodes(anchors, explicit, self.graph, &mut self.map)
    }
}

// The same of a graph and a map that are lent.
pub fn build_nodes(
    anchors: &[Anchor],
    explicit: usize,
    graph: &mut Graph,
    map: &mut Map,
) -> Option<()>
    requires none { graph_of graph.old ≡ empty }
    requires keyed { Keyed map.old (graph_of graph.old) }
    ensures built { Built result (graph_of graph.new) (build_nodes (anchors_of anchors.now explicit)) }
    ensures keyed { Keyed map.new (graph_of graph.new) }
{
    for (k, anchor) in anchors.iter().enumerate() {
        let mark = if k < explicit {
            anchor.directions | nodes::EXPLICIT
        } else {
            anchor.directions
        };
        graph.place(map, anchor.x, anchor.y, mark)?;
    }
    Some(())
}

// The graph, not pruned: nothing where it would have more than NODES nodes. What the graph held before is lost.
pub fn build(page: Page, anchors: &[Anchor], explicit: usize, graph: &mut Graph) -> Option<()>
    requires { Paged (page_in page) }
    ensures { Built result (graph_of graph.new) (build (page_in page.entry) (anchors_of anchors.now explicit)) }
{
    graph.clear();
    let mut builder = Builder {
        page,
        columns: Columns::of(page.boxes),
        graph,
        map: Map::new(),
    };
    builder.build_nodes(anchors, explicit)?;
    for anchor in anchors {
        builder.scan_anchor(*anchor)?;
    }
    Some(())
}
