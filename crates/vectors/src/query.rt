// Makes a search that the list says, and compares its answer.
ghost use Rattle.std.specs.Prelude.{◌≤◌};
ghost use Rattle.nodes.specs.Graph.{NODES};

use crate::fields::Fields;
use crate::page::Desk;
use crate::tally::Verdict;
use desk_search::Request;
use nodes::NODES;
use path_finding::Output;

// The most ends of a search in the list: one more than a search takes.
const ENDS: usize = desk_search::ENDS + 1;

// A line of nodes, as a search leaves it: places, kinds and directions in lists of their own, which C lends elsewhere.
#[derive(Debug, PartialEq, Eq, Drop)]
struct Line {
    xs: [i32; NODES],
    ys: [i32; NODES],
    kinds: [u8; NODES],
    directions: [u8; NODES],
}

impl Line {
    const EMPTY: Line = Line {
        xs: [0; NODES],
        ys: [0; NODES],
        kinds: [0; NODES],
        directions: [0; NODES],
    };

    // How many nodes it has: its last one alone has the kind E; 0 where there is none.
    fn count(&self) -> usize
        ensures { result ≤ NODES }
    {
        let last = self.kinds.iter().position(|kind| *kind == b'E');
        last.map_or(0, |i| i + 1)
    }

    // Whether the list is the answer of a search with this number and line: how many nodes there are, each a place, a kind and a direction onward.
    fn is_answer(&self, number: u32, list: &[u8]) -> bool {
        let n = self.count();
        let mut fields = Fields::of(list);
        if !(matches!(fields.next(), b"line")
            && fields.number_is(number)
            && fields.number_is(n as u32))
        {
            return false;
        }
        let same = (0..n).all(|i| fields.step_is(fixed::at(&self.xs, i))
            && fields.step_is(fixed::at(&self.ys, i))
            && fields.byte_is(self.kinds[i])
            && fields.number_is(self.directions[i] as u32));
        same && fields.is_empty()
    }
}

// Compares a search whose header says pruned or not, the start, and the ends; there is no verdict where the ends are too many. The entries are its line's nodes.
pub fn search(desk: &Desk, mut header: Fields, bytes: &[u8]) -> Option<Verdict> {
    let prune = header.unsigned();
    let x = header.signed();
    let y = header.signed();
    let n = header.unsigned() as usize;
    if n > ENDS {
        return None;
    }
    let mut xs = [0; ENDS];
    let mut ys = [0; ENDS];
    for i in 0..n {
        xs[i] = header.signed();
        ys[i] = header.signed();
    }
    let mut line = Line::EMPTY;
    let request = Request {
        prune,
        x: fixed::up(x),
        y: fixed::up(y),
        end_x: &xs[..n],
        end_y: &ys[..n],
    };
    let mut output = Output {
        x: &mut line.xs,
        y: &mut line.ys,
        kinds: &mut line.kinds,
        directions: &mut line.directions,
    };
    let found = desk_search::search(desk, request, &mut output);
    Some(Verdict {
        same: line.is_answer(book::number_of(found), bytes),
        entries: line.count(),
    })
}
