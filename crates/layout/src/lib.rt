// All nets of a page: routed one after another on the page's graph, then separated.
#![tactic(auto)]

mod types;

ghost use Rattle.std.specs.Prelude.{◌≡◌, ◌+◌, ◌-◌, ◌*◌, ◌/◌, ◌<◌, ◌≤◌, length, take};
ghost use Rattle.nodes.specs.Columns.{graph_of};
ghost use Rattle.queue.specs.Columns.{WIDTH};
ghost use Rattle.astar.specs.Reached.{Ready};
ghost use Rattle.path_finding.specs.Lent.{graph_in, Kept};
ghost use Rattle.anchors.specs.Lent.{records_in};
ghost use Rattle.anchors.specs.Records.{NET, ROW};
ghost use Rattle.fixed.specs.Up.{ups};
ghost use Rattle.vertex.specs.Pages.{VERTICES};
ghost use Rattle.wire.specs.Wires.{vertices};
ghost use Rattle.fixup.specs.Moves.{LOWEST, HIGHEST};
ghost use Rattle.wire.specs.Ends.{ENDS};
ghost use Rattle.wire.specs.Lent.{KeptWires};
ghost use Rattle.routing.specs.Lent.{KeptRows};
ghost use Rattle.net.specs.Lent.{Searchable};
ghost use Rattle.page_laws.specs.Connected.{Ground};
ghost use Rattle.page_laws.specs.Separated.{Separable};
ghost use Rattle.layout.specs.Layout.{NET_ROW, NET_WORDS, JOIN_WORDS, put_net, blank, net_of, with_net, drawn, Fit};
ghost use Rattle.layout.specs.Separated.{separated};
ghost use Rattle.layout.specs.Lent.{page_of, page_lent, page_in, blank_in, all_nets, KeptSheet};

use anchors::Records;
use nodes::Graph;
use path_finding::{CELLS, Finder, SMALL, SMALL_CELLS, SMALL_TREE, TREE};
use routing::Joins;
pub use types::Sheet;
use wire::{End, Place, Wires};

const ORIGIN: Place = Place { x: 0, y: 0 };

// What stands in the scratch of a net's ends before there is one.
const NO_END: End = End {
    at: ORIGIN,
    vertex: 0,
    letter: 0,
};

// How many vertices and junctions a page has.
#[derive(Clone, Copy, Debug, PartialEq, Eq)]
pub struct Counts {
    pub n: usize,
    pub j: usize,
}

// Writes the row of the net i.
fn put_net(nets: &mut [u32], i: usize, number: u32, first: u32, count: u32, begin: u32, joins: u32)
    requires { (i < 64) × (i * NET_ROW + 5 ≤ length nets.old) }
    ensures { nets.new ≡ put_net nets.old i number first count begin joins }
{
    nets[i * 5] = number;
    nets[i * 5 + 1] = first;
    nets[i * 5 + 2] = count;
    nets[i * 5 + 3] = begin;
    nets[i * 5 + 4] = joins;
}

// Writes the row of the net i: the page has m vertices in place of n, and k junctions in place of j.
fn record_net(nets: &mut [u32], i: usize, number: u32, n: usize, m: usize, j: usize, k: usize)
    requires { (i < 64) × (i * NET_ROW + 5 ≤ length nets.old) × (n ≤ 512) × (m ≤ 512) × (j ≤ 256) × (k ≤ 256) }
    ensures { nets.new ≡ put_net nets.old i number n (m - n) j (k - j) }
{
    let vertices = m.saturating_sub(n) as u32;
    let junctions = k.saturating_sub(j) as u32;
    put_net(nets, i, number, n as u32, vertices, j as u32, junctions);
}

// Routes the net i, whose id is given, behind the vertices and junctions of the nets before it, and writes its row.
fn lay_net(
    finder: &mut Finder,
    ends: &[u32],
    id: u32,
    i: usize,
    nets: &mut [u32],
    wires: &mut Wires,
    joins: &mut Joins,
)
    requires searchable { Searchable finder.old }
    requires few { (length ends.now / ROW ≤ 256) × (i < 64) × (NET_WORDS ≤ length nets.old) }
    requires fit { Fit wires.old.n joins.old.j × (length wires.old.ends.now ≡ ENDS) }
    ensures value { (let P = page_of nets.old wires.old joins.old in page_of nets.new wires.new joins.new ≡ with_net i (net_of (graph_in finder.old) ends.now (length ends.now / ROW) id P) P) }
    ensures fit { Fit wires.new.n joins.new.j }
    ensures kept_wires { KeptWires wires.old wires.new }
    ensures kept_rows { KeptRows joins.old joins.new }
    ensures kept { Kept finder.old finder.new }
{
    let mut points = [ORIGIN; 256];
    let k = net::take_points(ends, id, &mut points);
    let n = wires.n;
    let j = joins.j;
    let routed = connect::connect_net(finder, &points[..k], wires, joins);
    let number = book::number_of(routed);
    record_net(nets, i, number, n, wires.n, j, joins.j);
}

// Routes all nets, on a page that has none.
fn lay_each(
    finder: &mut Finder,
    records: Records,
    nets: &mut [u32],
    wires: &mut Wires,
    joins: &mut Joins,
)
    requires searchable { Searchable finder.old }
    requires few { (length records.nets.now / NET ≤ 64) × (length records.ends.now / ROW ≤ 256) × (NET_WORDS ≤ length nets.old) }
    requires none { (wires.old.n ≡ 0) × (joins.old.j ≡ 0) × (length wires.old.ends.now ≡ ENDS) }
    ensures value { page_of nets.new wires.new joins.new ≡ all_nets (graph_in finder.old) (records_in records.entry) (page_of nets.old wires.old joins.old) }
    ensures fit { Fit wires.new.n joins.new.j }
    ensures kept_wires { KeptWires wires.old wires.new }
    ensures kept_rows { KeptRows joins.old joins.new }
{
    for i in 0..records.nets.len() {
        lay_net(finder, records.ends, records.nets[i], i, nets, wires, joins);
    }
}

// The same, with the scratch made here, of C cells and a tree of T words: once a page, since no net leaves anything in it that another reads.
fn lay_with<const C: usize, const T: usize>(
    graph: &Graph,
    records: Records,
    nets: &mut [u32],
    x: &mut [i32],
    y: &mut [i32],
    letters: &mut [u8],
    joins: &mut [u32],
) -> Counts
    requires ready { 0 < graph.now.count → Ready (graph_of graph.now) }
    requires scratch { (graph.now.count * WIDTH ≤ C) × (2 * graph.now.count ≤ T) × (C ≤ CELLS) × (T ≤ TREE) }
    requires few { (length records.nets.now / NET ≤ 64) × (length records.ends.now / ROW ≤ 256) }
    requires room { (NET_WORDS ≤ length nets.old) × (VERTICES ≤ length x.old) × (VERTICES ≤ length y.old) × (VERTICES ≤ length letters.old) × (JOIN_WORDS ≤ length joins.old) }
    ensures value { page_lent nets.new x.new y.new letters.new joins.new result.n result.j ≡ all_nets (graph_of graph.now) (records_in records.entry) (page_lent nets.old x.old y.old letters.old joins.old 0 0) }
    ensures fit { Fit result.n result.j }
{
    let mut cells = [0u64; C];
    let mut tree = [0u64; T];
    let mut list = [0u32; nodes::NODES];
    let mut net_ends = [NO_END; 4096];
    let mut finder = Finder {
        graph,
        cells: &mut cells,
        tree: &mut tree,
        list: &mut list,
    };
    let mut wires = Wires {
        x,
        y,
        letters,
        n: 0,
        ends: &mut net_ends,
        m: 0,
    };
    let mut joins = Joins { rows: joins, j: 0 };
    lay_each(&mut finder, records, nets, &mut wires, &mut joins);
    Counts {
        n: wires.n,
        j: joins.j,
    }
}

// The same: no scratch for a page without nets, and smaller scratch for a smaller graph, which takes less time to make.
fn lay_nets(
    graph: &Graph,
    records: Records,
    nets: &mut [u32],
    x: &mut [i32],
    y: &mut [i32],
    letters: &mut [u8],
    joins: &mut [u32],
) -> Counts
    requires ready { 0 < graph.now.count → Ready (graph_of graph.now) }
    requires few { (length records.nets.now / NET ≤ 64) × (length records.ends.now / ROW ≤ 256) }
    requires room { (NET_WORDS ≤ length nets.old) × (VERTICES ≤ length x.old) × (VERTICES ≤ length y.old) × (VERTICES ≤ length letters.old) × (JOIN_WORDS ≤ length joins.old) }
    ensures value { page_lent nets.new x.new y.new letters.new joins.new result.n result.j ≡ all_nets (graph_of graph.now) (records_in records.entry) (page_lent nets.old x.old y.old letters.old joins.old 0 0) }
    ensures fit { Fit result.n result.j }
{
    if records.nets.len() == 0 {
        return Counts { n: 0, j: 0 };
    }
    if graph.count <= SMALL {
        return lay_with::<SMALL_CELLS, SMALL_TREE>(graph, records, nets, x, y, letters, joins);
    }
    lay_with::<CELLS, TREE>(graph, records, nets, x, y, letters, joins)
}

// Separates the wires of a page that has so many vertices and junctions.
fn separate(x: &mut [i32], y: &mut [i32], letters: &[u8], joins: &[u32], counts: Counts)
    requires fit { (counts.n ≤ length x.old) × (counts.n ≤ length y.old) × (counts.n ≤ length letters.now) × (3 * counts.j ≤ length joins.now) }
    requires separable { Separable (vertices (ups x.old) (ups y.old) letters.now counts.n) (take (3 * counts.j) joins.now) }
    ensures { vertices (ups x.new) (ups y.new) letters.now counts.n ≡ separated joins.now counts.j (vertices (ups x.old) (ups y.old) letters.now counts.n) }
{
    let n = counts.n;
    fixup::separate_wires(&mut x[..n], &mut y[..n], letters, &joins[..3 * counts.j]);
}

// Lays out all nets of a page on its graph, and separates the wires if asked, in lists that hold a page with no net.
// They are lent one by one: what a struct or a reader borrows out of a sheet would not be known afterwards.
fn draw(
    graph: &Graph,
    records: Records,
    apart: bool,
    nets: &mut [u32],
    x: &mut [i32],
    y: &mut [i32],
    letters: &mut [u8],
    joins: &mut [u32],
) -> Counts
    requires ground { Ground LOWEST HIGHEST (graph_of graph.now) }
    requires few { (length records.nets.now / NET ≤ 64) × (length records.ends.now / ROW ≤ 256) }
    requires room { (NET_WORDS ≤ length nets.old) × (VERTICES ≤ length x.old) × (VERTICES ≤ length y.old) × (VERTICES ≤ length letters.old) × (JOIN_WORDS ≤ length joins.old) }
    requires blank { page_lent nets.old x.old y.old letters.old joins.old 0 0 ≡ blank (length nets.old) (length x.old) (length y.old) (length letters.old) (length joins.old) }
    ensures { page_lent nets.new x.new y.new letters.new joins.new result.n result.j ≡ drawn apart (all_nets (graph_of graph.now) (records_in records.entry) (page_lent nets.old x.old y.old letters.old joins.old 0 0)) }
{
    let counts = lay_nets(graph, records, nets, x, y, letters, joins);
    if !apart {
        return counts;
    }
    separate(x, y, letters, joins, counts);
    counts
}

// The same on a sheet that holds anything.
pub fn lay_out(graph: &Graph, records: Records, apart: bool, sheet: &mut Sheet) -> Counts
    requires ground { Ground LOWEST HIGHEST (graph_of graph.now) }
    requires few { (length records.nets.now / NET ≤ 64) × (length records.ends.now / ROW ≤ 256) }
    ensures value { page_in result.n result.j sheet.new ≡ drawn apart (all_nets (graph_of graph.now) (records_in records.entry) (blank_in sheet.old)) }
    ensures kept { KeptSheet sheet.old sheet.new }
{
    sheet.clear();
    draw(
        graph,
        records,
        apart,
        sheet.nets,
        sheet.x,
        sheet.y,
        sheet.letters,
        sheet.joins,
    )
}

impl Sheet<'_> {
    // Zeros everywhere: a page with no net.
    pub fn clear(&mut self)
        ensures cleared { page_in 0 0 self.new ≡ blank_in self.old }
        ensures kept { KeptSheet self.old self.new }
    {
        zeros::close(self.nets, 0, 0);
        zeros::zero_steps(self.x, 0);
        zeros::zero_steps(self.y, 0);
        zeros::close(self.letters, 0, 0);
        zeros::close(self.joins, 0, 0);
    }
}
