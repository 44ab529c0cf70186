// The graph of padded boxes and anchors: axis lists, nodes, scans, and pruning if it is asked for.
#![tactic(auto)]

ghost use Rattle.std.specs.Prelude.{◌≤◌, length};
ghost use Rattle.fixed.specs.Constants.{COORDS};
ghost use Rattle.nodes.specs.Columns.{graph_of};
ghost use Rattle.nodes.specs.Lent.{Built};
ghost use Rattle.scan.specs.Lent.{anchors as anchors_of};
ghost use Rattle.graph.specs.Build.{boxes_of, whole, made, Made};

use fixed::{Anchor, PaddedBox};
use nodes::Graph;
use scan::Page;

// The graph of padded boxes and anchors, not pruned: nothing where it would have more than NODES nodes.
fn whole(boxes: &[PaddedBox], anchors: &[Anchor], explicit: usize, graph: &mut Graph) -> Option<()>
    requires few { length anchors.now ≤ COORDS }
    ensures { Built result (graph_of graph.new) (whole (boxes_of boxes.now) (anchors_of anchors.now explicit)) }
{
    let mut ax = [0i32; fixed::COORDS];
    let mut ay = [0i32; fixed::COORDS];
    let mut nx = 0;
    let mut ny = 0;
    for anchor in anchors {
        nx = axis::insert_signed(&mut ax, nx, anchor.x);
        ny = axis::insert_signed(&mut ay, ny, anchor.y);
    }
    let page = Page {
        boxes,
        ax: &ax[..nx],
        ay: &ay[..ny],
    };
    scan::build(page, anchors, explicit, graph)
}

// The graph of the boxes and anchors, pruned or not: nothing where it would have more than NODES nodes before pruning. What the graph held before is lost.
pub fn make(
    boxes: &[PaddedBox],
    anchors: &[Anchor],
    explicit: usize,
    graph: &mut Graph,
    pruned: bool,
) -> Option<()>
    requires few { length anchors.now ≤ COORDS }
    ensures { let b = boxes_of boxes.now in let a = anchors_of anchors.now explicit in Made result (whole b a) (made b a pruned) (graph_of graph.new) }
{
    whole(boxes, anchors, explicit, graph)?;
    if pruned {
        prune::remove_redundant_nodes(graph);
    }
    Some(())
}
