// The A* core: a search on a graph, from a start to the nearest of its ends.
#![tactic(auto)]

ghost use Rattle.std.specs.Prelude.{◌≡◌, ◌+◌, ◌*◌, ◌≤◌, ◌<◌, cond, eqb, length, get_or, set, IfSome};
ghost use Rattle.columns.specs.Columns.{column, Only};
ghost use Rattle.queue.specs.Queue.{popped};
ghost use Rattle.queue.specs.Columns.{WIDTH};
ghost use Rattle.nodes.specs.Graph.{none, onward, opposite};
ghost use Rattle.nodes.specs.Columns.{graph_of};
ghost use Rattle.nodes.specs.Lent.{Below as Found};
ghost use Rattle.astar.specs.Search.{toward, way, search, IsNode};
ghost use Rattle.astar.specs.Scratch.{preds, state, Unreached, Held};
ghost use Rattle.astar.specs.Reached.{Below, Ready};

use nodes::Graph;

// The columns beside that of the sums, which is the queue's: words, so that it finds them side by side.
pub const SCORE: usize = 0;

pub const ESTIMATE: usize = 1;

pub const PRED: usize = 2;

pub const MARK: usize = 4;

// No predecessor, as a column of words holds it; `pred_of` gives an `Option`.
pub const NOWHERE: u64 = 0xFFFF_FFFF;

// More than the distance of any two nodes.
const FAR: u64 = 8589934592;

// The direction in which w is the neighbour of the node v.
pub fn dir_to(graph: &Graph, v: usize, w: u32) -> Option<usize>
    requires { v < graph.now.count }
    ensures { Found result 4 (toward (graph_of graph.now).links v w) }
{
    for d in 0..4 {
        if graph.link(v, d) == w {
            return Some(d);
        }
    }
    None
}

// The node from which the node v of n was reached.
pub fn pred_of(cells: &[u64], n: usize, v: usize) -> Option<usize>
    requires { (v < n) × (n * WIDTH ≤ length cells.now) }
    ensures { IsNode result (get_or (preds n cells.now) v 0) }
{
    let p = columns::get(cells, n, PRED, v);
    if p == NOWHERE { None } else { Some(p as usize) }
}

// What a move in the direction dir costs beside its length, behind an arrival in the direction `arrived`.
fn turn_cost(dir: usize, arrived: Option<usize>, penalty: u64) -> u64
    requires { dir < 4 }
    ensures { result ≡ cond (eqb dir (way arrived)) 0 penalty }
{
    if arrived == Some(dir) { 0 } else { penalty }
}

// A search: the graph, the ends, and what it keeps of the nodes: five columns of as many words as there are nodes, one behind the other in `cells`,
// and in `tree` the keys of the queue.
#[derive(Drop)]
struct Search<'a> {
    graph: &'a Graph,
    ends: &'a [u32],
    cells: &'a mut [u64],
    tree: &'a mut [u64],
    ghost below: { Below graph.now.count ends.now },
    ghost room: { graph.now.count * WIDTH ≤ length cells.now },
}

impl Search<'_> {
    ghost use Rattle.astar.specs.Search.{HIGH, MOVES, dist, nearest, arrival, run_length, penalty_at, replaced, relax, expand, pop, begin};
    ghost use Rattle.astar.specs.Scratch.{ESTIMATE};
    ghost use Rattle.astar.specs.Lent.{graph_in, ends_in, preds_in, state_in, UnreachedIn, EstimatedIn, HeldIn, Kept};

    // The distance of the nodes a and b.
    #[tactic(auto, unfolding(crate::specs::Search::distance))]
    fn distance(&self, a: usize, b: usize) -> u64
        requires { (a < self.now.graph.now.count) × (b < self.now.graph.now.count) }
        ensures { (result ≡ dist (graph_in self.now) a b) × (result < FAR) }
    {
        fixed::manhattan(
            self.graph.x(a),
            self.graph.y(a),
            self.graph.x(b),
            self.graph.y(b),
        )
    }

    // The entry of the node v in the column w.
    fn cell(&self, w: usize, v: usize) -> u64
        requires { (v < self.now.graph.now.count) × (w < WIDTH) }
        ensures { result ≡ get_or (column w self.now.graph.now.count self.now.cells.now) v 0 }
    {
        columns::get(self.cells, self.graph.count, w, v)
    }

    // Sets the entry of the node v in the column w.
    fn put(&mut self, w: usize, v: usize, x: u64)
        requires { (v < self.old.graph.now.count) × (w < WIDTH) }
        ensures value { column w self.old.graph.now.count self.new.cells.now ≡ set (column w self.old.graph.now.count self.old.cells.now) v x }
        ensures only { Only self.old.graph.now.count w self.old.cells.now self.new.cells.now }
        ensures tree { self.new.tree.now ≡ self.old.tree.now }
        ensures kept { Kept self.old self.new }
    {
        columns::put(self.cells, self.graph.count, w, v, x);
    }

    // The node from which the node v was reached.
    fn pred(&self, v: usize) -> Option<usize>
        requires { v < self.now.graph.now.count }
        ensures { IsNode result (get_or (preds_in self.now) v 0) }
    {
        pred_of(self.cells, self.graph.count, v)
    }

    // The least distance from the node v to one of the ends.
    fn estimate(&self, v: usize) -> u64
        requires { v < self.now.graph.now.count }
        ensures { (result ≡ nearest (graph_in self.now).xs (graph_in self.now).ys (ends_in self.now) v) × (result ≤ FAR) }
    {
        let mut best = FAR;
        for e in self.ends {
            best = best.min(self.distance(v, *e as usize));
        }
        best
    }

    // The estimate of the node v, computed where it is asked for the first time in a search.
    fn estimate_once(&mut self, v: usize) -> u64
        requires inside { v < self.old.graph.now.count }
        requires estimated { EstimatedIn self.old }
        ensures value { (result ≡ nearest (graph_in self.old).xs (graph_in self.old).ys (ends_in self.old) v) × (result ≤ FAR) }
        ensures estimated { EstimatedIn self.new }
        ensures only { Only self.old.graph.now.count ESTIMATE self.old.cells.now self.new.cells.now }
        ensures tree { self.new.tree.now ≡ self.old.tree.now }
        ensures kept { Kept self.old self.new }
    {
        let known = self.cell(ESTIMATE, v);
        if known != queue::UNSET {
            return known;
        }
        let estimate = self.estimate(v);
        self.put(ESTIMATE, v, estimate);
        estimate
    }

    // The length of the straight run that ends at the node `from`, back in the direction dir.
    fn length_in_direction(&self, from: usize, dir: usize) -> u64
        requires ready { Ready (graph_in self.now) }
        requires inside { (from < self.now.graph.now.count) × (dir < 4) }
        ensures { result ≡ run_length MOVES (graph_in self.now) (preds_in self.now) from dir }
    {
        let mut len = 0;
        let mut node = from;
        while let Some(p) = self.pred(node) {
            if self.graph.link(node, dir) as usize != p {
                break;
            }
            len += self.distance(node, p);
            node = p;
        }
        len
    }

    // The direction of arrival at the node v.
    fn arrival(&self, v: usize) -> Option<usize>
        requires inside { v < self.now.graph.now.count }
        requires pred_inside { (get_or (preds_in self.now) v 0 ≡ none → ⊥) → get_or (preds_in self.now) v 0 < self.now.graph.now.count }
        ensures { Found result 4 (arrival (graph_in self.now) (preds_in self.now) v) }
    {
        let p = self.pred(v)?;
        dir_to(self.graph, p, v as u32)
    }

    // What a turn at the node v costs, at which the line arrived in the direction `arrived`.
    fn penalty_at(&self, v: usize, arrived: Option<usize>) -> u64
        requires ready { Ready (graph_in self.now) }
        requires inside { v < self.now.graph.now.count }
        requires arrived { Found arrived 4 (arrival (graph_in self.now) (preds_in self.now) v) }
        ensures { result ≡ penalty_at (graph_in self.now) (preds_in self.now) v }
    {
        match arrived {
            None => fixed::corner_penalty(0),
            Some(d) => fixed::corner_penalty(self.length_in_direction(v, nodes::opposite(d))),
        }
    }

    // Where a move from the node u in the direction dir leads: going back is not tried.
    fn target(&self, u: usize, dir: usize, arrived: Option<usize>) -> Option<usize>
        requires { (u < self.now.graph.now.count) × (dir < 4) × IfSome arrived (λ d. d < 4) }
        ensures { Found result self.now.graph.now.count (cond (eqb dir (opposite (way arrived))) none (onward (graph_in self.now) dir u)) }
    {
        if arrived == Some(nodes::opposite(dir)) {
            return None;
        }
        self.graph.neighbour(u, dir)
    }

    // A lower score replaces node score, predecessor and queue entry of the node v, which is reached from u.
    fn improve(&mut self, u: usize, v: usize, score: u64)
        requires inside { (u < self.old.graph.now.count) × (v < self.old.graph.now.count) }
        requires low { score ≤ HIGH + HIGH + FAR }
        requires held { HeldIn self.old }
        ensures value { state_in self.new ≡ replaced (graph_in self.old).xs (graph_in self.old).ys (ends_in self.old) (state_in self.old) v u score }
        ensures held { HeldIn self.new }
        ensures kept { Kept self.old self.new }
    {
        let estimate = self.estimate_once(v);
        self.put(SCORE, v, score);
        self.put(PRED, v, u as u64);
        queue::put(self.cells, self.tree, self.graph.count, v, score + estimate);
    }

    // Tries the move from the node u in the direction dir, where a turn costs `penalty`.
    fn relax(&mut self, u: usize, dir: usize, arrived: Option<usize>, penalty: u64)
        requires ready { Ready (graph_in self.old) }
        requires inside { (u < self.old.graph.now.count) × (dir < 4) × IfSome arrived (λ d. d < 4) }
        requires low { (penalty ≤ HIGH) × (get_or (state_in self.old).g u 0 ≤ HIGH) }
        requires held { HeldIn self.old }
        ensures value { state_in self.new ≡ relax (graph_in self.old) (ends_in self.old) (state_in self.old) u dir (way arrived) penalty }
        ensures held { HeldIn self.new }
        ensures kept { Kept self.old self.new }
    {
        if let Some(v) = self.target(u, dir, arrived) {
            let length = self.distance(u, v);
            let score = self.cell(SCORE, u) + length + turn_cost(dir, arrived, penalty);
            if score < self.cell(SCORE, v) {
                self.improve(u, v, score);
            }
        }
    }

    // Tries the moves from the node u in all directions.
    fn expand(&mut self, u: usize)
        requires ready { Ready (graph_in self.old) }
        requires inside { u < self.old.graph.now.count }
        requires low { get_or (state_in self.old).g u 0 ≤ HIGH }
        requires pred_inside { (get_or (preds_in self.old) u 0 ≡ none → ⊥) → get_or (preds_in self.old) u 0 < self.old.graph.now.count }
        requires held { HeldIn self.old }
        ensures value { state_in self.new ≡ expand (graph_in self.old) (ends_in self.old) (state_in self.old) u }
        ensures held { HeldIn self.new }
        ensures kept { Kept self.old self.new }
    {
        let arrived = self.arrival(u);
        let penalty = self.penalty_at(u, arrived);
        for dir in 0..4 {
            self.relax(u, dir, arrived, penalty);
        }
    }

    // Takes the first node with the least sum out of the queue.
    fn pop(&mut self) -> Option<usize>
        requires { HeldIn self.old }
        ensures value { result ≡ popped (state_in self.old).q }
        ensures state { state_in self.new ≡ pop (state_in self.old) }
        ensures held { HeldIn self.new }
        ensures kept { Kept self.old self.new }
    {
        queue::pop_least(self.cells, self.tree, self.graph.count)
    }

    // Before the first turn only the start gets a score and a queue entry, both 0.
    fn begin(&mut self, start: usize)
        requires inside { start < self.old.graph.now.count }
        requires unreached { UnreachedIn self.old }
        requires held { HeldIn self.old }
        ensures value { state_in self.new ≡ begin self.old.graph.now.count start }
        ensures held { HeldIn self.new }
        ensures kept { Kept self.old self.new }
    {
        self.put(SCORE, start, 0);
        queue::put(self.cells, self.tree, self.graph.count, start, 0);
    }

    // The search from the node `start`: the first end that leaves the queue. Before it the ends are marked.
    fn run(&mut self, start: usize) -> Option<usize>
        requires ready { Ready (graph_in self.old) }
        requires inside { start < self.old.graph.now.count }
        requires unreached { UnreachedIn self.old }
        requires held { HeldIn self.old }
        ensures value { IsNode result (search (graph_in self.old) (ends_in self.old) start).at }
        ensures state { state_in self.new ≡ (search (graph_in self.old) (ends_in self.old) start).end }
        ensures kept { Kept self.old self.new }
    {
        self.begin(start);
        let mut found = None;
        'outer: while let Some(u) = self.pop() {
            if self.cell(MARK, u) != 0 {
                found = Some(u);
                break 'outer;
            }
            self.expand(u);
        }
        found
    }
}

// The search from the node `start`: the first end that leaves the queue. Its cells are blank, but the ends are marked.
pub fn find_path_impl(
    graph: &Graph,
    ends: &[u32],
    cells: &mut [u64],
    tree: &mut [u64],
    start: usize,
) -> Option<usize>
    requires ready { Ready (graph_of graph.now) }
    requires inside { (start < graph.now.count) × Below graph.now.count ends.now }
    requires unreached { Unreached graph.now.count cells.old }
    requires held { Held graph.now.count (graph_of graph.now).xs (graph_of graph.now).ys ends.now cells.old tree.old }
    ensures value { IsNode result (search (graph_of graph.now) ends.now start).at }
    ensures state { state graph.now.count cells.new ≡ (search (graph_of graph.now) ends.now start).end }
{
    let mut search = Search {
        graph,
        ends,
        cells,
        tree,
    };
    search.run(start)
}
