// A search on a built graph, with its outputs.
#![tactic(auto)]

ghost use Rattle.std.specs.Prelude.{◌≤◌, ◌<◌, length};
ghost use Rattle.astar.specs.Reached.{Ready};
ghost use Rattle.path_finding.specs.Lent.{graph_in, Kept, KeptOutput};
ghost use Rattle.search.specs.Searched.{SearchedIn};

use book::Refusal;
use path_finding::{Ends, Finder, Output};

// The line from the place (x, y) to one of the ends, with zeros behind it: how many nodes it has. There are zeros alone if there is none.
pub fn find_path(
    finder: &mut Finder,
    x: u32,
    y: u32,
    ends: Ends,
    output: &mut Output,
) -> Result<usize, Refusal>
    requires ready { 0 < finder.old.graph.now.count → Ready (graph_in finder.old) }
    requires room { length ends.x.now ≤ length finder.old.list.now }
    ensures searched { SearchedIn (graph_in finder.old) x y ends.entry result output.new }
    ensures kept { Kept finder.old finder.new }
    ensures kept_output { KeptOutput output.old output.new }
{
    let found = finder.find_between(x, y, ends);
    let at = finder.list.len() - found.unwrap_or(0);
    output.write(finder.graph, &finder.list[at..]);
    found
}
