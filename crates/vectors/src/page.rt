// Compares what a page gives with sections of the list; there is no verdict where it gives nothing.
ghost use Rattle.std.specs.Prelude.{◌≤◌, IfSome, length};
ghost use Rattle.corridors.specs.Sizes.{ANCHORS};
ghost use Rattle.anchors.specs.Lent.{records_in};
ghost use Rattle.page_graph.specs.Lent.{Asked};

use crate::dump;
use crate::fields::Fields;
use crate::tally::Verdict;
use anchors::Records;
use fixed::{Anchor, PaddedBox};
use nodes::Graph;

pub type Desk = [u32; desk::DESK];

// The records of a desk, if it is valid.
fn records(desk: &Desk) -> Option<Records>
    ensures { IfSome result (λ r. Asked (records_in r)) }
{
    match desk::validate(desk) {
        Ok(()) => Some(select::records(desk)),
        Err(_) => None,
    }
}

// The implicit anchors of a desk's page: how many there are, if not too many.
fn implicit_anchors(desk: &Desk, list: &mut [Anchor]) -> Option<usize>
    requires { ANCHORS ≤ length list.old }
    ensures { IfSome result (λ n. n ≤ ANCHORS) }
{
    let records = records(desk)?;
    let mut padded = [PaddedBox::BLANK; fixed::BOXES];
    let boxes = &mut padded[..records.boxes.len() / anchors::BOX];
    sightline::pad_boxes(boxes, records.boxes);
    corridors::generate_implicit_anchors(boxes, list)
}

// The graph of a desk's page, if the page is not over a limit.
fn graph_of(desk: &Desk, pruned: bool) -> Option<Graph> {
    let mut graph = Graph::new();
    page_graph::graph_of(records(desk)?, pruned, &mut graph)?;
    Some(graph)
}

// Compares the implicit anchors.
pub fn anchors(desk: &Desk, bytes: &[u8]) -> Option<Verdict> {
    let mut list = [Anchor::BLANK; corridors::ANCHORS];
    let n = implicit_anchors(desk, &mut list)?;
    Some(Verdict {
        same: dump::anchors_are(bytes, &list[..n]),
        entries: n,
    })
}

// Compares the graph's nodes; the header says whether it is pruned.
pub fn graph(desk: &Desk, mut header: Fields, bytes: &[u8]) -> Option<Verdict> {
    let graph = graph_of(desk, header.flag())?;
    Some(Verdict {
        same: dump::nodes_are(bytes, &graph),
        entries: graph.count,
    })
}

// Compares how many implicit anchors the page has, and how many nodes before and after pruning, with the header.
pub fn counts(desk: &Desk, mut header: Fields) -> Option<Verdict> {
    let mut list = [Anchor::BLANK; corridors::ANCHORS];
    let same = header.number_is(implicit_anchors(desk, &mut list)? as u32)
        && header.number_is(graph_of(desk, false)?.count as u32)
        && header.number_is(graph_of(desk, true)?.count as u32);
    Some(Verdict { same, entries: 0 })
}

// Compares what is printed of a page text, byte by byte; the header says whether the graph is pruned and the wires separated.
pub fn listing(text: &[u8], mut header: Fields, bytes: &[u8]) -> Option<Verdict> {
    let pruned = header.flag();
    let apart = header.flag();
    let mut out = [0; page_listing::ROOM];
    let n = page_listing::list_page(text, pruned, apart, &mut out);
    Some(Verdict {
        same: &out[..n] == bytes,
        entries: bytes.len(),
    })
}
