// The graph of a page, from its records.
#![tactic(auto)]

ghost use Rattle.nodes.specs.Columns.{graph_of};
ghost use Rattle.anchors.specs.Lent.{records_in};
ghost use Rattle.page_graph.specs.Page.{crowded, graph_of_page};
ghost use Rattle.page_graph.specs.Lent.{Asked, Answered};

use anchors::Records;
use fixed::{Anchor, PaddedBox};
use nodes::Graph;

// The graph of a page's records, pruned or not: nothing where the page is over a limit. What the graph held before is lost.
pub fn graph_of(records: Records, pruned: bool, graph: &mut Graph) -> Option<()>
    requires { Asked (records_in records) }
    ensures { Answered result (graph_of graph.new) (crowded (records_in records.entry)) (graph_of_page (records_in records.entry) pruned) }
{
    let mut padded = [PaddedBox::BLANK; fixed::BOXES];
    let boxes = &mut padded[..records.boxes.len() / anchors::BOX];
    sightline::pad_boxes(boxes, records.boxes);
    // The explicit anchors, with the implicit ones behind them.
    let mut list = [Anchor::BLANK; fixed::COORDS];
    let explicit = anchors::explicit(records, &mut list);
    let implicit = corridors::generate_implicit_anchors(boxes, &mut list[explicit..])?;
    graph::make(boxes, &list[..explicit + implicit], explicit, graph, pruned)
}
