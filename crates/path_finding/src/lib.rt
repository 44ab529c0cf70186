// Lines between nodes of a graph and between places, and lines as they are handed back.
#![tactic(auto)]

ghost use Rattle.std.specs.Prelude.{◌≡◌, ◌+◌, ◌*◌, ◌≤◌, ◌<◌, length, take, replicate};
ghost use Rattle.fixed.specs.Up.{ups};
ghost use Rattle.queue.specs.Queue.{NODES};
ghost use Rattle.queue.specs.Columns.{WIDTH};
ghost use Rattle.nodes.specs.Columns.{graph_of};
ghost use Rattle.nodes.specs.Lent.{Below as Found};
ghost use Rattle.astar.specs.Search.{way};
ghost use Rattle.astar.specs.Reached.{Below};
ghost use Rattle.path_finding.specs.Line.{has_link, table, place_at, kind_at, bit, direction_at, kept_at, pruned};

use book::Refusal;
use nodes::{Graph, Map};

// The scratch of a search of 4,096 nodes: five columns, and a tree.
pub const CELLS: usize = 20480;

pub const TREE: usize = 8192;

// A smaller graph is searched on smaller scratch, which takes less time to make: so many nodes, their columns and tree.
pub const SMALL: usize = 512;

pub const SMALL_CELLS: usize = 2560;

pub const SMALL_TREE: usize = 1024;

// So many ends are looked up without a map.
const FEW: usize = 40;

// The kinds of the nodes of a line that is handed back.
const START: u8 = b'S';

const NORMAL: u8 = b'N';

const END: u8 = b'E';

// The ends of a search, lent as two columns of coordinates.
#[derive(Clone, Copy, Debug, PartialEq, Eq)]
pub struct Ends<'a> {
    pub x: &'a [i32],
    pub y: &'a [i32],
    pub ghost even: { length y.now ≡ length x.now },
}

// What lines are searched on and in: the graph, and scratch that is lent with any contents, what a search keeps of the nodes, and a list of the ends, then of the line.
#[derive(Drop)]
pub struct Finder<'a> {
    pub graph: &'a Graph,
    pub cells: &'a mut [u64],
    pub tree: &'a mut [u64],
    pub list: &'a mut [u32],
    pub ghost cells_room: { graph.now.count * WIDTH ≤ length cells.now },
    pub ghost tree_room: { 2 * graph.now.count ≤ length tree.now },
    pub ghost list_room: { graph.now.count ≤ length list.now },
}

// A line as it is handed back: the places of its nodes, their kinds, and the directions onward, with zeros behind them.
#[derive(Drop)]
pub struct Output<'a> {
    pub x: &'a mut [i32],
    pub y: &'a mut [i32],
    pub kinds: &'a mut [u8],
    pub directions: &'a mut [u8],
}

// Whether the node v has a link.
#[tactic(auto, unfolding(crate::specs::Line::has_link))]
fn has_link(graph: &Graph, v: usize) -> bool
    requires { v < graph.now.count }
    ensures { result ≡ has_link (graph_of graph.now).links v }
{
    graph.link(v, 0) != nodes::NONE
        || graph.link(v, 1) != nodes::NONE
        || graph.link(v, 2) != nodes::NONE
        || graph.link(v, 3) != nodes::NONE
}

// Writes one coordinate of each node of a line, zeros behind them.
fn write_places(coordinates: &[i32], line: &[u32], to: &mut [i32])
    requires { Below (length coordinates.now) line.now }
    ensures { ups to.new ≡ table (place_at (ups coordinates.now) line.now) (length to.old) }
{
    let m = line.len().min(to.len());
    for k in 0..m {
        fixed::put(to, k, fixed::at(coordinates, line[k] as usize));
    }
    zeros::zero_steps(to, m);
}

// The kind of the k-th of m nodes.
#[tactic(auto, unfolding(crate::specs::Line::kind_at))]
fn kind(m: usize, k: usize) -> u8
    requires { k < m }
    ensures { result ≡ kind_at m k }
{
    if k + 1 == m {
        END
    } else if k == 0 {
        START
    } else {
        NORMAL
    }
}

// Writes the kinds of m nodes, zeros behind them.
fn write_kinds(m: usize, to: &mut [u8])
    ensures { to.new ≡ table (kind_at m) (length to.old) }
{
    let written = m.min(to.len());
    for k in 0..written {
        to[k] = kind(m, k);
    }
    zeros::close(to, written, 0);
}

// A direction as its bit, which C is told; 8 too where there is none, as 01's definition has it.
#[tactic(auto, unfolding(crate::specs::Line::bit))]
fn bit(direction: Option<usize>) -> u8
    ensures { result ≡ bit (way direction) }
{
    match direction {
        Some(0) => 1,
        Some(1) => 2,
        Some(2) => 4,
        _ => 8,
    }
}

// The direction onward of the k-th node of a line, or 0.
pub fn direction(graph: &Graph, line: &[u32], k: usize) -> u8
    requires { Below graph.now.count line.now × (k < 18446744073709551615) }
    ensures { result ≡ direction_at (graph_of graph.now).links line.now k }
{
    if k + 1 < line.len() {
        bit(astar::dir_to(graph, line[k] as usize, line[k + 1]))
    } else {
        0
    }
}

// Writes the direction onward of each node of a line, zeros behind them.
fn write_directions(graph: &Graph, line: &[u32], to: &mut [u8])
    requires { Below graph.now.count line.now }
    ensures { to.new ≡ table (direction_at (graph_of graph.now).links line.now) (length to.old) }
{
    let m = line.len().min(to.len());
    for k in 0..m {
        to[k] = direction(graph, line, k);
    }
    zeros::close(to, m, 0);
}

// Whether `iter_pruned` keeps the k-th node.
#[tactic(auto, unfolding(crate::specs::Line::kept_at))]
pub fn is_kept(kinds: &[u8], dirs: &[u8], k: usize) -> bool
    requires { (k < length kinds.now) × (k < length dirs.now) }
    ensures { result ≡ kept_at kinds.now dirs.now k }
{
    let before = if k == 0 { 0 } else { dirs[k - 1] };
    !((kinds[k] == NORMAL) & ((dirs[k] != 0) & (dirs[k] == before)))
}

// The nodes of a line of m nodes without those that it runs straight through: the first entries of `kept`, as many as it returns.
pub fn iter_pruned(kinds: &[u8], dirs: &[u8], m: usize, kept: &mut [u32]) -> usize
    requires lists { (m ≤ length kinds.now) × (m ≤ length dirs.now) × (m ≤ length kept.old) }
    requires few { m ≤ NODES }
    ensures { (result ≤ m) × (take result kept.new ≡ pruned kinds.now dirs.now m) }
{
    let mut r = 0;
    for k in 0..m {
        if is_kept(kinds, dirs, k) {
            kept[r] = k as u32;
            r += 1;
        }
    }
    r
}

impl Finder<'_> {
    ghost use Rattle.std.specs.Prelude.{true, not, eqb, get_or, drop, reverse, IfSome};
    ghost use Rattle.columns.specs.Columns.{Only};
    ghost use Rattle.book.specs.Refusals.{number_of};
    ghost use Rattle.nodes.specs.Map.{Apart, Keyed};
    ghost use Rattle.astar.specs.Search.{chain, IsNode};
    ghost use Rattle.astar.specs.Reached.{Ready};
    ghost use Rattle.astar.specs.Scratch.{MARK, preds, marked, Marked, Traced};
    ghost use Rattle.path_finding.specs.Line.{admit, goals, line as line_s};
    ghost use Rattle.path_finding.specs.Places.{nodes_in, node_at, Answered, ends_known, ends_of};
    ghost use Rattle.path_finding.specs.Lent.{Blank, Behind, graph_in, ends_x, ends_y, Kept};

    // Blanks the cells of the graph's nodes, and the tree over them, before a search.
    fn blank(&mut self)
        requires { 0 < self.old.graph.now.count }
        ensures blank { Blank self.old.graph.now.count self.new.cells.now self.new.tree.now }
        ensures list { self.new.list.now ≡ self.old.list.now }
        ensures kept { Kept self.old self.new }
    {
        let n = self.graph.count;
        columns::fill(self.cells, n, astar::SCORE, queue::UNSET);
        columns::fill(self.cells, n, astar::ESTIMATE, queue::UNSET);
        columns::fill(self.cells, n, astar::PRED, astar::NOWHERE);
        columns::fill(self.cells, n, queue::SUM, queue::UNSET);
        columns::fill(self.cells, n, astar::MARK, 0);
        columns::fill(self.tree, 2 * n, 0, queue::UNSET);
    }

    // Whether the node v is marked.
    fn is_marked(&self, v: usize) -> bool
        requires { v < self.now.graph.now.count }
        ensures { result ≡ not (eqb (get_or (marked self.now.graph.now.count self.now.cells.now) v 0) 0) }
    {
        columns::get(self.cells, self.graph.count, astar::MARK, v) != 0
    }

    // Counts the node e among the ends if it has a link and was not counted; the first m of the list are those that were.
    fn take_end(&mut self, e: u32, m: usize) -> usize
        requires inside { (e < self.old.graph.now.count) × (m < length self.old.list.now) }
        requires marked { Marked self.old.graph.now.count (take m self.old.list.now) (marked self.old.graph.now.count self.old.cells.now) }
        ensures few { result ≤ m + 1 }
        ensures value { take result self.new.list.now ≡ admit (graph_in self.old).links (take m self.old.list.now) e }
        ensures marked { Marked self.old.graph.now.count (take result self.new.list.now) (marked self.old.graph.now.count self.new.cells.now) }
        ensures only { Only self.old.graph.now.count MARK self.old.cells.now self.new.cells.now }
        ensures tree { self.new.tree.now ≡ self.old.tree.now }
        ensures behind { Behind m self.old.list.now self.new.list.now }
        ensures kept { Kept self.old self.new }
    {
        let v = e as usize;
        if self.is_marked(v) || !has_link(self.graph, v) {
            return m;
        }
        columns::put(self.cells, self.graph.count, astar::MARK, v, 1);
        self.list[m] = e;
        m + 1
    }

    // Marks and lists the ends that count, those with a link, each once: they take the place of the first k of the list.
    fn gather(&mut self, k: usize) -> usize
        requires ends { (k ≤ length self.old.list.now) × Below self.old.graph.now.count (take k self.old.list.now) }
        requires unmarked { marked self.old.graph.now.count self.old.cells.now ≡ replicate self.old.graph.now.count 0 }
        ensures few { result ≤ k }
        ensures value { take result self.new.list.now ≡ goals (graph_in self.old).links (take k self.old.list.now) k }
        ensures marked { Marked self.old.graph.now.count (take result self.new.list.now) (marked self.old.graph.now.count self.new.cells.now) }
        ensures only { Only self.old.graph.now.count MARK self.old.cells.now self.new.cells.now }
        ensures tree { self.new.tree.now ≡ self.old.tree.now }
        ensures kept { Kept self.old self.new }
    {
        let mut m = 0;
        for i in 0..k {
            let e = self.list[i];
            m = self.take_end(e, m);
        }
        m
    }

    // The node of the i-th end: by the map of the nodes' places, or by a scan over all nodes.
    #[tactic(auto, unfolding(crate::specs::Places::node_at, nodes::specs::Graph::find))]
    fn node_of(&self, map: Option<&Map>, ends: Ends, i: usize) -> Option<usize>
        requires inside { i < length ends.x.now }
        requires keyed { IfSome map (λ m. Keyed m.now (graph_in self.now)) }
        ensures { Found result self.now.graph.now.count (node_at (graph_in self.now).xs (graph_in self.now).ys self.now.graph.now.count (ends_x ends.entry) (ends_y ends.entry) i) }
    {
        let x = fixed::at(ends.x, i);
        let y = fixed::at(ends.y, i);
        match map {
            Some(map) => map.look_up(self.graph, x, y),
            None => self.graph.find_node(x, y),
        }
    }

    // Lists the nodes of the ends, and says whether each is a node.
    fn look_up_each(&mut self, map: Option<&Map>, ends: Ends) -> bool
        requires room { length ends.x.now ≤ length self.old.list.now }
        requires keyed { IfSome map (λ m. Keyed m.now (graph_in self.old)) }
        ensures known { result ≡ ends_known (graph_in self.old) (ends_x ends.entry) (ends_y ends.entry) }
        ensures value { result ≡ true → take (length ends.entry.x.now) self.new.list.now ≡ ends_of (graph_in self.old) (ends_x ends.entry) (ends_y ends.entry) }
        ensures kept { Kept self.old self.new }
    {
        for i in 0..ends.x.len() {
            let Some(v) = self.node_of(map, ends, i) else {
                return false;
            };
            self.list[i] = v as u32;
        }
        true
    }

    // The same: many ends are looked up by a map of the nodes' places.
    fn look_up(&mut self, ends: Ends) -> bool
        requires room { length ends.x.now ≤ length self.old.list.now }
        requires apart { Apart (graph_in self.old).xs (graph_in self.old).ys self.old.graph.now.count }
        ensures known { result ≡ ends_known (graph_in self.old) (ends_x ends.entry) (ends_y ends.entry) }
        ensures value { result ≡ true → take (length ends.entry.x.now) self.new.list.now ≡ ends_of (graph_in self.old) (ends_x ends.entry) (ends_y ends.entry) }
        ensures kept { Kept self.old self.new }
    {
        if FEW < ends.x.len() {
            let map = Map::of(self.graph);
            self.look_up_each(Some(&map), ends)
        } else {
            self.look_up_each(None, ends)
        }
    }

    // The node from which the node v was reached.
    fn pred(&self, v: usize) -> Option<usize>
        requires { v < self.now.graph.now.count }
        ensures { IsNode result (get_or (preds self.now.graph.now.count self.now.cells.now) v 0) }
    {
        astar::pred_of(self.cells, self.graph.count, v)
    }

    // The line to `end`, from the start: it fills the list from the back, and is the part from the result on.
    fn build_path(&mut self, end: usize) -> usize
        requires { Traced self.old.graph.now.count (preds self.old.graph.now.count self.old.cells.now) end }
        ensures within { result ≤ length self.new.list.now }
        ensures value { drop result self.new.list.now ≡ reverse (chain self.old.graph.now.count (preds self.old.graph.now.count self.old.cells.now) end) }
        ensures kept { Kept self.old self.new }
    {
        let mut at = self.list.len();
        let mut node = Some(end);
        while let Some(v) = node {
            at -= 1;
            self.list[at] = v as u32;
            node = self.pred(v);
        }
        at
    }

    // The line from the node `start` to one of the ends, the first k of the list: the part of the list from the result on, which is its length where there is no line.
    pub fn find_line(&mut self, start: usize, k: usize) -> usize
        requires ready { Ready (graph_in self.old) }
        requires start { start < self.old.graph.now.count }
        requires ends { (k ≤ length self.old.list.now) × Below self.old.graph.now.count (take k self.old.list.now) }
        ensures within { result ≤ length self.new.list.now }
        ensures value { drop result self.new.list.now ≡ line_s (graph_in self.old) (take k self.old.list.now) start }
        ensures kept { Kept self.old self.new }
    {
        self.blank();
        let m = self.gather(k);
        if m == 0 {
            return self.list.len();
        }
        let ends = &self.list[..m];
        match astar::find_path_impl(self.graph, ends, self.cells, self.tree, start) {
            None => self.list.len(),
            Some(end) => self.build_path(end),
        }
    }

    // The line from the place (x, y) to one of the ends: how many nodes it has, at the end of the list.
    pub fn find_between(&mut self, x: u32, y: u32, ends: Ends) -> Result<usize, Refusal>
        requires ready { 0 < self.old.graph.now.count → Ready (graph_in self.old) }
        requires room { length ends.x.now ≤ length self.old.list.now }
        ensures answered { Answered (graph_in self.old) x y (ends_x ends.entry) (ends_y ends.entry) (number_of result) (nodes_in result) self.new.list.now }
        ensures kept { Kept self.old self.new }
    {
        let Some(start) = self.graph.find_node(x, y) else {
            return Err(Refusal::NoStart);
        };
        if !self.look_up(ends) {
            return Err(Refusal::NoEnd);
        }
        let at = self.find_line(start, ends.x.len());
        if at == self.list.len() {
            return Err(Refusal::NoLine);
        }
        Ok(self.list.len() - at)
    }
}

impl Output<'_> {
    ghost use Rattle.path_finding.specs.Lent.{WrittenIn, Cleared, KeptOutput};

    // Writes a line.
    pub fn write(&mut self, graph: &Graph, line: &[u32])
        requires { Below graph.now.count line.now }
        ensures written { WrittenIn (graph_of graph.now) line.now self.new }
        ensures kept { KeptOutput self.old self.new }
    {
        write_places(&graph.xs[..graph.count], line, self.x);
        write_places(&graph.ys[..graph.count], line, self.y);
        write_kinds(line.len(), self.kinds);
        write_directions(graph, line, self.directions);
    }

    // Writes zeros: there is no line.
    pub fn clear(&mut self)
        ensures cleared { Cleared self.old self.new }
        ensures kept { KeptOutput self.old self.new }
    {
        zeros::zero_steps(self.x, 0);
        zeros::zero_steps(self.y, 0);
        self.kinds.fill(0);
        self.directions.fill(0);
    }
}
