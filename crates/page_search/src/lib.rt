// A search on a page.
#![tactic(auto)]

ghost use Rattle.std.specs.Prelude.{◌≡◌, ◌*◌, ◌≤◌, ◌<◌, length, IfSome, IfNone};
ghost use Rattle.queue.specs.Columns.{WIDTH};
ghost use Rattle.book.specs.Refusals.{number_of};
ghost use Rattle.nodes.specs.Graph.{NODES};
ghost use Rattle.nodes.specs.Columns.{graph_of};
ghost use Rattle.anchors.specs.Lent.{records_in};
ghost use Rattle.astar.specs.Reached.{Ready};
ghost use Rattle.path_finding.specs.Places.{nodes_in};
ghost use Rattle.path_finding.specs.Lent.{Cleared, KeptOutput};
ghost use Rattle.search.specs.Searched.{ENDS, SearchedIn};
ghost use Rattle.page_search.specs.Page.{CROWDED, PageSearchedIn};
ghost use Rattle.page_search.specs.Exists.{Sound};

use anchors::Records;
use book::Refusal;
use nodes::Graph;
use path_finding::{Ends, Finder, Output};

// The search on a graph. The scratch is made here, of C cells, a tree of T words and a list of L nodes.
fn find_with<const C: usize, const T: usize, const L: usize>(
    graph: &Graph,
    x: u32,
    y: u32,
    ends: Ends,
    output: &mut Output,
) -> Result<usize, Refusal>
    requires ready { 0 < graph.now.count → Ready (graph_of graph.now) }
    requires small { (C ≤ 20480) × (T ≤ 8192) × (L ≤ NODES) }
    requires room { (graph.now.count * WIDTH ≤ C) × (2 * graph.now.count ≤ T) × (graph.now.count ≤ L) × (length ends.x.now ≤ L) }
    ensures searched { SearchedIn (graph_of graph.now) x y ends.entry result output.new }
    ensures kept { KeptOutput output.old output.new }
{
    let mut cells = [0u64; C];
    let mut tree = [0u64; T];
    let mut list = [0u32; L];
    let mut finder = Finder {
        graph,
        cells: &mut cells,
        tree: &mut tree,
        list: &mut list,
    };
    search::find_path(&mut finder, x, y, ends, output)
}

// The same: a smaller graph has smaller scratch, which takes less time to make.
fn find_on(graph: &Graph, x: u32, y: u32, ends: Ends, output: &mut Output) -> Result<usize, Refusal>
    requires ready { 0 < graph.now.count → Ready (graph_of graph.now) }
    requires few { length ends.x.now ≤ ENDS }
    ensures searched { SearchedIn (graph_of graph.now) x y ends.entry result output.new }
    ensures kept { KeptOutput output.old output.new }
{
    if graph.count <= path_finding::SMALL && ends.x.len() <= path_finding::SMALL {
        return find_with::<
            { path_finding::SMALL_CELLS },
            { path_finding::SMALL_TREE },
            { path_finding::SMALL },
        >(graph, x, y, ends, output);
    }
    find_with::<{ path_finding::CELLS }, { path_finding::TREE }, { nodes::NODES }>(
        graph, x, y, ends, output,
    )
}

// The search on a page's graph, none where the page is crowded: how many nodes the line has. There are zeros alone if there is none.
pub fn search_on(
    graph: Option<&Graph>,
    x: u32,
    y: u32,
    ends: Ends,
    output: &mut Output,
) -> Result<usize, Refusal>
    requires ready { IfSome graph (λ g. 0 < g.now.count → Ready (graph_of g.now)) }
    requires few { length ends.x.now ≤ ENDS }
    ensures crowded { IfNone graph.entry ((number_of result ≡ CROWDED) × (nodes_in result ≡ 0) × Cleared output.old output.new) }
    ensures searched { IfSome graph.entry (λ g. SearchedIn (graph_of g.now) x y ends.entry result output.new) }
    ensures kept { KeptOutput output.old output.new }
{
    let Some(graph) = graph else {
        output.clear();
        return Err(Refusal::Crowded);
    };
    find_on(graph, x, y, ends, output)
}

// The search on the page of the records, on its pruned graph or not: how many nodes the line has. There are zeros alone if there is none.
pub fn search_page(
    records: Records,
    pruned: bool,
    x: u32,
    y: u32,
    ends: Ends,
    output: &mut Output,
) -> Result<usize, Refusal>
    requires sound { Sound (records_in records) }
    requires few { length ends.x.now ≤ ENDS }
    ensures searched { PageSearchedIn (records_in records.entry) pruned x y ends.entry result output.new }
    ensures kept { KeptOutput output.old output.new }
{
    let mut graph = Graph::new();
    let Some(()) = page_graph::graph_of(records, pruned, &mut graph) else {
        return search_on(None, x, y, ends, output);
    };
    search_on(Some(&graph), x, y, ends, output)
}
