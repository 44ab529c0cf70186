// One net of a page, on a built graph: its endpoints, and one wire of it.
#![tactic(auto)]

ghost use Rattle.std.specs.Prelude.{◌≡◌, ◌+◌, ◌*◌, ◌/◌, ◌<◌, ◌≤◌, length, take, drop};
ghost use Rattle.book.specs.Refusals.{number_of};
ghost use Rattle.nodes.specs.Columns.{graph_of};
ghost use Rattle.net.specs.Lent.{made_of, Searchable};
ghost use Rattle.net.specs.Nets.{along as along_from, branch_from, branch_path, root_wire_from};
ghost use Rattle.net.specs.Points.{column};
ghost use Rattle.path_finding.specs.Lent.{graph_in, ends_x, ends_y, Kept};
ghost use Rattle.path_finding.specs.Places.{line_between, known_to};
ghost use Rattle.routing.specs.Branches.{tried};
ghost use Rattle.routing.specs.Lent.{KeptRows};
ghost use Rattle.wire.specs.Ends.{ENDS};
ghost use Rattle.wire.specs.Lent.{wires_of, xs_of, ys_of, KeptWires};

use book::Refusal;
use nodes::Graph;
use path_finding::{Ends, Finder};
use routing::Joins;
use wire::{Fallback, Line, Place, Wires};

// Words of an endpoint's row.
const ROW: usize = 4;

// So many ends have smaller columns, which take less time to clear.
const FEW: usize = 256;

// The endpoints of a net among the rows of ends: the first entries of points, as many as it returns, since there is no heap.
pub fn take_points(ends: &[u32], id: u32, points: &mut [Place]) -> usize
    requires { length ends.now / 4 ≤ length points.old }
    ensures few { result ≤ length ends.now / 4 }
    ensures x_value { xs_of (take result points.new) ≡ column 1 ends.now id (length ends.now / 4) }
    ensures y_value { ys_of (take result points.new) ≡ column 2 ends.now id (length ends.now / 4) }
{
    let mut m = 0;
    for k in 0..ends.len() / ROW {
        if ends[k * ROW] == id {
            points[m] = Place {
                x: ends[k * ROW + 1],
                y: ends[k * ROW + 2],
            };
            m += 1;
        }
    }
    m
}

// Whether each of the places is a node.
pub fn are_nodes(graph: &Graph, points: &[Place]) -> bool
    ensures { result ≡ known_to (graph_of graph.now) (xs_of points.now) (ys_of points.now) (length points.now) }
{
    let mut known = true;
    for p in points {
        known = known & graph.find_node(p.x, p.y).is_some();
    }
    known
}

// Whether the node at the place has an X direction.
fn is_along(graph: &Graph, at: Place) -> bool
    ensures { result ≡ along_from (graph_of graph.now) at.x at.y }
{
    match graph.find_node(at.x, at.y) {
        Some(s) => graph.mark(s) % 4 != 0,
        None => false,
    }
}

// The line from the place to one of the ends: the part of the list from the result on.
fn line_to(finder: &mut Finder, start: Place, ends: Ends) -> usize
    requires searchable { Searchable finder.old }
    requires few { length ends.x.now ≤ ENDS }
    ensures within { result ≤ length finder.new.list.now }
    ensures line { drop result finder.new.list.now ≡ line_between (graph_in finder.old) start.x start.y (ends_x ends.entry) (ends_y ends.entry) }
    ensures kept { Kept finder.old finder.new }
{
    let found = finder.find_between(start.x, start.y, ends);
    finder.list.len() - found.unwrap_or(0)
}

// The line from the place to one of the net's ends, at most N.
fn line_to_ends<const N: usize>(finder: &mut Finder, start: Place, wires: &Wires) -> usize
    requires searchable { Searchable finder.old }
    requires few { (wires.now.m ≤ N) × (N ≤ ENDS) }
    ensures within { result ≤ length finder.new.list.now }
    ensures line { drop result finder.new.list.now ≡ branch_path (graph_in finder.old) start.x start.y (wires_of wires.now).net }
    ensures kept { Kept finder.old finder.new }
{
    let mut x = [0i32; N];
    let mut y = [0i32; N];
    for i in 0..wires.m {
        let end = wires.ends[i];
        fixed::put(&mut x, i, end.at.x);
        fixed::put(&mut y, i, end.at.y);
    }
    let ends = Ends {
        x: &x[..wires.m],
        y: &y[..wires.m],
    };
    line_to(finder, start, ends)
}

// The line from the place to one of the net's ends.
fn branch_line(finder: &mut Finder, start: Place, wires: &Wires) -> usize
    requires { Searchable finder.old }
    ensures within { result ≤ length finder.new.list.now }
    ensures line { drop result finder.new.list.now ≡ branch_path (graph_in finder.old) start.x start.y (wires_of wires.now).net }
    ensures kept { Kept finder.old finder.new }
{
    if wires.m <= FEW {
        return line_to_ends::<FEW>(finder, start, wires);
    }
    line_to_ends::<4096>(finder, start, wires)
}

// The branch from the place.
pub fn branch(
    finder: &mut Finder,
    wires: &mut Wires,
    joins: &mut Joins,
    start: Place,
) -> Result<(), Refusal>
    requires searchable { Searchable finder.old }
    requires room { (0 < wires.old.m) × (joins.old.j < 256) }
    ensures value { made_of (number_of result) wires.new joins.new ≡ branch_from (graph_in finder.old) start.x start.y (made_of 0 wires.old joins.old) }
    ensures kept_wires { KeptWires wires.old wires.new }
    ensures kept_rows { KeptRows joins.old joins.new }
    ensures kept { Kept finder.old finder.new }
{
    let along = is_along(finder.graph, start);
    let at = branch_line(finder, start, wires);
    let line = Line {
        graph: finder.graph,
        path: &finder.list[at..],
    };
    routing::route_branch(wires, joins, line, start, along)
}

// The root wire between two places.
pub fn root(finder: &mut Finder, wires: &mut Wires, start: Place, end: Place) -> Result<(), Refusal>
    requires { Searchable finder.old }
    ensures value { tried (number_of result) (wires_of wires.new) ≡ root_wire_from (graph_in finder.old) start.x start.y end.x end.y (wires_of wires.old) }
    ensures kept_wires { KeptWires wires.old wires.new }
    ensures kept { Kept finder.old finder.new }
{
    let along = is_along(finder.graph, start);
    let mut x = [0i32; 1];
    let mut y = [0i32; 1];
    fixed::put(&mut x, 0, end.x);
    fixed::put(&mut y, 0, end.y);
    let at = line_to(finder, start, Ends { x: &x, y: &y });
    let line = Line {
        graph: finder.graph,
        path: &finder.list[at..],
    };
    let way = Fallback { start, end, along };
    routing::route_wire(wires, line, way, true, None)
}
