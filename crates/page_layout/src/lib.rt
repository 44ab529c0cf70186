// A page laid out from its record rows.
#![tactic(auto)]

ghost use Rattle.std.specs.Prelude.{◌≡◌, ◌/◌, ◌≤◌, length};
ghost use Rattle.anchors.specs.Lent.{records_in};
ghost use Rattle.anchors.specs.Records.{NET, ROW};
ghost use Rattle.book.specs.Refusals.{number_of};
ghost use Rattle.page_graph.specs.Lent.{Asked};
ghost use Rattle.page_graph.specs.Claims.{Placed};
ghost use Rattle.layout.specs.Answer.{layout_number};
ghost use Rattle.layout.specs.Lent.{KeptSheet};
ghost use Rattle.page_layout.specs.Drawing.{drawing_in, laid};

use anchors::Records;
use book::Refusal;
use layout::Sheet;
use nodes::Graph;

// A page laid out from its records, its graph pruned or not, its wires separated or not: the nets' rows, the vertices and the junctions' rows, zeros behind them.
// Zeros everywhere if the page is crowded. The graph is made here.
pub fn lay_out_page(
    records: Records,
    pruned: bool,
    apart: bool,
    sheet: &mut Sheet,
) -> Result<(), Refusal>
    requires asked { Asked (records_in records) }
    requires placed { Placed (records_in records) }
    requires few { (length records.nets.now / NET ≤ 64) × (length records.ends.now / ROW ≤ 256) }
    ensures value { number_of result ≡ layout_number (records_in records.entry) }
    ensures sheet_after { drawing_in sheet.new ≡ laid (records_in records.entry) pruned apart (drawing_in sheet.old) }
    ensures kept { KeptSheet sheet.old sheet.new }
{
    let mut graph = Graph::new();
    match page_graph::graph_of(records, pruned, &mut graph) {
        None => {
            sheet.clear();
            Err(Refusal::Crowded)
        }
        Some(()) => {
            layout::lay_out(&graph, records, apart, sheet);
            Ok(())
        }
    }
}
