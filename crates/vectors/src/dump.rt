// Compares a graph's nodes, and a page's implicit anchors, with their lines of the list.
ghost use Rattle.std.specs.Prelude.{◌<◌, ◌≤◌, length};

use crate::fields::Fields;
use fixed::Anchor;
use nodes::Graph;

// Whether the next field is a neighbour.
fn link_is(fields: &mut Fields, link: u32) -> bool
    ensures { length fields.new.rest.now ≤ length fields.old.rest.now }
{
    if link == nodes::NONE {
        fields.byte_is(b'-')
    } else {
        fields.number_is(link)
    }
}

// Whether the next four fields are the neighbours of the node i.
fn links_are(fields: &mut Fields, graph: &Graph, i: usize) -> bool
    requires { i < graph.now.count }
    ensures { length fields.new.rest.now ≤ length fields.old.rest.now }
{
    link_is(fields, graph.link(i, 0))
        && link_is(fields, graph.link(i, 1))
        && link_is(fields, graph.link(i, 2))
        && link_is(fields, graph.link(i, 3))
}

// Whether the next line is the node i: its index, place, whether it is explicit, legal directions and neighbours.
fn node_is(fields: &mut Fields, graph: &Graph, i: usize) -> bool
    requires { i < graph.now.count }
    ensures { length fields.new.rest.now ≤ length fields.old.rest.now }
{
    let mark = graph.mark(i);
    fields.number_is(i as u32)
        && fields.step_is(graph.x(i))
        && fields.step_is(graph.y(i))
        && fields.number_is(mark / nodes::EXPLICIT)
        && fields.number_is(mark % nodes::EXPLICIT)
        && links_are(fields, graph, i)
}

// Whether the list holds the lines of the graph's nodes.
pub fn nodes_are(list: &[u8], graph: &Graph) -> bool {
    let mut fields = Fields::of(list);
    for i in 0..graph.count {
        if !node_is(&mut fields, graph, i) {
            return false;
        }
    }
    fields.is_empty()
}

// Whether the list holds the lines of these anchors.
pub fn anchors_are(list: &[u8], anchors: &[Anchor]) -> bool {
    let mut fields = Fields::of(list);
    let same = anchors.iter().all(|a| fields.step_is(a.x)
        && fields.step_is(a.y)
        && fields.number_is(a.directions));
    same && fields.is_empty()
}
