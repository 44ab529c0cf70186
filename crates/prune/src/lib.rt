// Pruning: nodes that lines only run straight through go.
#![tactic(auto)]

ghost use Rattle.std.specs.Prelude.{◌≡◌, ◌+◌, ◌<◌, ◌≤◌};
ghost use Rattle.nodes.specs.Graph.{NODES};
ghost use Rattle.nodes.specs.Columns.{graph_of};
ghost use Rattle.nodes.specs.Lent.{Below};
ghost use Rattle.prune.specs.Prune.{only, straight, with_links, moved_links, moved, backs, drop_node, prune_at, prune};

use nodes::Graph;

// Whether the node i has links in the directions d and d + 1, and none in e and e + 1.
#[tactic(auto, unfolding(crate::specs::Prune::only))]
fn only(graph: &Graph, i: usize, d: usize, e: usize) -> bool
    requires { (i < graph.now.count) × (d < 3) × (e < 3) }
    ensures { result ≡ only (graph_of graph.now).links graph.now.count i d e }
{
    let n = graph.count as u32;
    graph.link(i, d) < n
        && graph.link(i, d + 1) < n
        && n <= graph.link(i, e)
        && n <= graph.link(i, e + 1)
}

// The first of the two directions in which lines run straight through the node i, if it may go.
#[tactic(auto, unfolding(crate::specs::Prune::straight))]
fn straight(graph: &Graph, i: usize) -> Option<usize>
    requires { i < graph.now.count }
    ensures { Below result 4 (straight (graph_of graph.now).links (graph_of graph.now).marks graph.now.count i) }
{
    if nodes::EXPLICIT <= graph.mark(i) {
        None
    } else if only(graph, i, 0, 2) {
        Some(0)
    } else if only(graph, i, 2, 0) {
        Some(2)
    } else {
        None
    }
}

// The neighbours of i link back to i.
fn backs(graph: &mut Graph, i: usize)
    requires { i < graph.old.count }
    ensures { graph_of graph.new ≡ with_links (graph_of graph.old) (backs (graph_of graph.old).links graph.old.count i) }
{
    for d in 0..4 {
        if let Some(v) = graph.neighbour(i, d) {
            graph.put_link(v, nodes::opposite(d), i as u32);
        }
    }
}

// The links of the node j go to the node i.
fn move_links(graph: &mut Graph, i: usize, j: usize)
    requires { (i < NODES) × (j < graph.old.count) }
    ensures value { graph_of graph.new ≡ with_links (graph_of graph.old) (moved_links (graph_of graph.old).links i j) }
    ensures kept { graph.new.count ≡ graph.old.count }
{
    let (a, b) = (graph.link(j, 0), graph.link(j, 1));
    let (c, d) = (graph.link(j, 2), graph.link(j, 3));
    graph.put_link(i, 0, a);
    graph.put_link(i, 1, b);
    graph.put_link(i, 2, c);
    graph.put_link(i, 3, d);
}

// The node j goes to the index i.
fn move_node(graph: &mut Graph, i: usize, j: usize)
    requires { (i < NODES) × (j < graph.old.count) }
    ensures value { graph_of graph.new ≡ moved (graph_of graph.old) i j }
    ensures kept { graph.new.count ≡ graph.old.count }
{
    graph.put_place(i, graph.x(j), graph.y(j));
    move_links(graph, i, j);
    graph.put_mark(i, graph.mark(j));
}

// The node i goes, and the last one takes its index.
fn drop_node(graph: &mut Graph, i: usize)
    requires { i < graph.old.count }
    ensures { graph_of graph.new ≡ drop_node (graph_of graph.old) i }
{
    let last = graph.count - 1;
    if i != last {
        move_node(graph, i, last);
        backs(graph, i);
    }
    graph.count = last;
}

// The node i goes if lines only run straight through it.
fn prune_at(graph: &mut Graph, i: usize)
    requires { i < graph.old.count }
    ensures value { graph_of graph.new ≡ prune_at (graph_of graph.old) i }
    ensures upper_bound { (graph.new.count ≤ graph.old.count) × (graph.old.count ≤ graph.new.count + 1) }
{
    if let Some(d) = straight(graph, i) {
        let a = graph.link(i, d) as usize;
        let b = graph.link(i, d + 1) as usize;
        graph.link_both(d + 1, a, b);
        drop_node(graph, i);
    }
}

// Prunes the graph.
pub fn remove_redundant_nodes(graph: &mut Graph)
    ensures { graph_of graph.new ≡ prune (graph_of graph.old) }
{
    for i in (0..graph.count).rev() {
        prune_at(graph, i);
    }
}
