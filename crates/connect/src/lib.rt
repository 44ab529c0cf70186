// `connect_net`: one net of a page, on a built graph.
#![tactic(auto)]

ghost use Rattle.std.specs.Prelude.{◌≡◌, ◌+◌, ◌*◌, ◌<◌, ◌≤◌, cond, ltb, Err, length};
ghost use Rattle.book.specs.Refusals.{code, number_of};
ghost use Rattle.connect.specs.Turns.{turns_to};
ghost use Rattle.fixed.specs.Up.{ups};
ghost use Rattle.net.specs.Nets.{refused, branch_at, connect_net};
ghost use Rattle.net.specs.Lent.{made_of, left_of, Searchable};
ghost use Rattle.nodes.specs.Columns.{graph_of};
ghost use Rattle.path_finding.specs.Lent.{graph_in, Kept};
ghost use Rattle.path_finding.specs.Places.{known_to};
ghost use Rattle.routing.specs.Lent.{KeptRows};
ghost use Rattle.wire.specs.Ends.{ENDS};
ghost use Rattle.wire.specs.Lent.{wires_of, xs_of, ys_of, KeptWires};
ghost use Rattle.wire.specs.Wires.{vertices};

use book::Refusal;
use nodes::Graph;
use path_finding::Finder;
use routing::Joins;
use wire::{Place, Wires};

// The branch of the endpoint i: none if it is one of the root pair a and b.
fn branch_at(
    finder: &mut Finder,
    points: &[Place],
    a: usize,
    b: usize,
    i: usize,
    wires: &mut Wires,
    joins: &mut Joins,
) -> Result<(), Refusal>
    requires searchable { Searchable finder.old }
    requires i_bound { i < length points.now }
    requires room { (0 < wires.old.m) × (joins.old.j < 256) }
    ensures value { made_of (number_of result) wires.new joins.new ≡ branch_at (graph_in finder.old) (xs_of points.now) (ys_of points.now) a b i (made_of 0 wires.old joins.old) }
    ensures kept_wires { KeptWires wires.old wires.new }
    ensures kept_rows { KeptRows joins.old joins.new }
    ensures kept { Kept finder.old finder.new }
{
    if (i == a) | (i == b) {
        return Ok(());
    }
    net::branch(finder, wires, joins, points[i])
}

// The root wire from the endpoint a to the endpoint b, then a branch from each other endpoint, until a wire is refused.
fn route_net(
    finder: &mut Finder,
    points: &[Place],
    a: usize,
    b: usize,
    wires: &mut Wires,
    joins: &mut Joins,
) -> Result<(), Refusal>
    requires searchable { Searchable finder.old }
    requires in_bounds { (a < length points.now) × (b < length points.now) × (length points.now ≤ 256) }
    requires fresh { (wires.old.m ≡ 0) × (2 * joins.old.j ≤ wires.old.n) }
    ensures value { made_of (number_of result) wires.new joins.new ≡ turns_to (graph_in finder.old) (xs_of points.now) (ys_of points.now) a b (length points.now + 1) (made_of 0 wires.old joins.old) }
    ensures kept_wires { KeptWires wires.old wires.new }
    ensures kept_rows { KeptRows joins.old joins.new }
    ensures kept { Kept finder.old finder.new }
{
    net::root(finder, wires, points[a], points[b])?;
    for i in 0..points.len() {
        branch_at(finder, points, a, b, i, wires, joins)?;
    }
    Ok(())
}

// Whether a net has two endpoints, and each is a node.
fn prior(graph: &Graph, points: &[Place]) -> Result<(), Refusal>
    ensures { number_of result ≡ cond (ltb (length points.now) 2) 12 (cond (known_to (graph_of graph.now) (xs_of points.now) (ys_of points.now) (length points.now)) 0 13) }
{
    if points.len() < 2 {
        return Err(Refusal::NotEnoughEndpoints);
    }
    if !net::are_nodes(graph, points) {
        return Err(Refusal::InvalidPoint);
    }
    Ok(())
}

// Back to n vertices and j junctions, with zeros behind them: a refused net has none.
fn refuse(
    n: usize,
    j: usize,
    wires: &mut Wires,
    joins: &mut Joins,
    refusal: Refusal,
) -> Result<(), Refusal>
    requires { (n ≤ 512) × (j ≤ 256) }
    ensures value { left_of (code refusal) wires.new joins.new ≡ refused (code refusal) (vertices (ups wires.old.x.now) (ups wires.old.y.now) wires.old.letters.now n) joins.old.rows.now j }
    ensures kept_wires { KeptWires wires.old wires.new }
    ensures kept_rows { KeptRows joins.old joins.new }
    ensures told { result ≡ Err refusal }
{
    zeros::zero_steps(wires.x, n);
    zeros::zero_steps(wires.y, n);
    zeros::close(wires.letters, n, 0);
    wires.n = n;
    zeros::close(joins.rows, 3 * j, 0);
    joins.j = j;
    Err(refusal)
}

// Routes one net behind the vertices and junctions of earlier nets.
pub fn connect_net(
    finder: &mut Finder,
    points: &[Place],
    wires: &mut Wires,
    joins: &mut Joins,
) -> Result<(), Refusal>
    requires searchable { Searchable finder.old }
    requires few { length points.now ≤ 256 }
    requires long { length wires.old.ends.now ≡ ENDS }
    requires fit { 2 * joins.old.j ≤ wires.old.n }
    ensures value { left_of (number_of result) wires.new joins.new ≡ connect_net (graph_in finder.old) (xs_of points.now) (ys_of points.now) (wires_of wires.old).page joins.old.rows.now joins.old.j }
    ensures kept_wires { KeptWires wires.old wires.new }
    ensures kept_rows { KeptRows joins.old joins.new }
    ensures kept { Kept finder.old finder.new }
{
    let n = wires.n;
    let j = joins.j;
    if let Err(early) = prior(finder.graph, points) {
        return refuse(n, j, wires, joins, early);
    }
    let (a, b) = routing::pick_root_path(points);
    wires.m = 0;
    if let Err(late) = route_net(finder, points, a, b, wires, joins) {
        return refuse(n, j, wires, joins, late);
    }
    Ok(())
}
