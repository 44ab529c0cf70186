// A search on a desk.
#![tactic(auto)]

ghost use Rattle.std.specs.Prelude.{◌≡◌, true, List, ℕ, ◌≤◌, length};
ghost use Rattle.fixed.specs.Up.{ups};
ghost use Rattle.rows.specs.Rows.{scan};
ghost use Rattle.desk.specs.Sizes.{DESK};
ghost use Rattle.book.specs.Book.{valid};
ghost use Rattle.book.specs.Refusals.{number_of};
ghost use Rattle.desk.specs.Desk.{book_of, seen_of};
ghost use Rattle.path_finding.specs.Lent.{KeptOutput};
ghost use Rattle.desk_search.specs.Query.{ok_step, ok_ends, ok_query};
ghost use Rattle.desk_search.specs.Search.{is_lent, search_number, left, tested, desk_number, desk_outputs};
ghost use Rattle.desk_search.specs.Lent.{query_in, outputs_in};

use book::Refusal;
use path_finding::{Ends, Output};

// The most ends of a search.
pub const ENDS: usize = 4096;

// What a search is asked: on the graph pruned (1) or not (0), from a place, counted from −2^31, to one of the ends, as they are lent.
#[derive(Clone, Copy, Debug, PartialEq, Eq)]
pub struct Request<'a> {
    pub prune: u32,
    pub x: u32,
    pub y: u32,
    pub end_x: &'a [i32],
    pub end_y: &'a [i32],
}

// Whether a coordinate is a field.
#[tactic(auto, unfolding(crate::specs::Query::ok_step))]
fn ok_step(u: u32) -> bool
    ensures { (us : List ℕ) → result ≡ ok_step u us }
{
    (fixed::LEAST <= u) & (u <= fixed::GREATEST)
}

fn ok_steps(us: &[i32]) -> bool
    ensures { result ≡ scan ok_step (ups us.now) }
{
    for i in 0..us.len() {
        if !ok_step(fixed::at(us, i)) {
            return false;
        }
    }
    true
}

// Whether the ends are as many x as y, not too many, and fields.
fn ok_ends(ex: &[i32], ey: &[i32]) -> bool
    ensures { result ≡ ok_ends (ups ex.now) (ups ey.now) }
{
    let few = (ex.len() == ey.len()) & (ex.len() <= ENDS);
    few & (ok_steps(ex) & ok_steps(ey))
}

// Whether what is asked keeps its ranges.
fn ok_request(request: Request) -> bool
    ensures { result ≡ ok_query (query_in request.entry) }
{
    let start = ok_step(request.x) & ok_step(request.y);
    ((request.prune <= 1) & start) & ok_ends(request.end_x, request.end_y)
}

// Whether all that is lent is long enough.
fn is_lent(desk: &[u32], output: &Output) -> bool
    ensures { result ≡ is_lent (length desk.now) (outputs_in output.now) }
{
    let places = (nodes::NODES <= output.x.len()) & (nodes::NODES <= output.y.len());
    let ways = (nodes::NODES <= output.kinds.len()) & (nodes::NODES <= output.directions.len());
    (desk::DESK <= desk.len()) & (places & ways)
}

// A search on a desk that is valid, with a request that keeps its ranges.
fn search_valid(desk: &[u32], request: Request, output: &mut Output) -> Result<(), Refusal>
    requires in_bounds { DESK ≤ length desk.now }
    requires desk_value { valid (book_of desk.now) ≡ true }
    requires query_value { ok_query (query_in request) ≡ true }
    ensures value { number_of result ≡ search_number (book_of desk.now).lists (query_in request.entry) }
    ensures output_after { outputs_in output.new ≡ left (number_of result) (book_of desk.now).lists (query_in request.entry) (outputs_in output.old) }
    ensures kept { KeptOutput output.old output.new }
{
    let ends = Ends {
        x: request.end_x,
        y: request.end_y,
    };
    let pruned = request.prune == 1;
    let records = select::records(desk);
    page_search::search_page(records, pruned, request.x, request.y, ends, output)?;
    Ok(())
}

// A search that is lent enough.
fn search_lent(desk: &[u32], request: Request, output: &mut Output) -> Result<(), Refusal>
    requires { DESK ≤ length desk.now }
    ensures value { number_of result ≡ tested (seen_of desk.now) (query_in request.entry) }
    ensures output_after { outputs_in output.new ≡ left (number_of result) (book_of desk.now).lists (query_in request.entry) (outputs_in output.old) }
    ensures kept { KeptOutput output.old output.new }
{
    if desk::validate(desk).is_err() || !ok_request(request) {
        output.clear();
        return Err(Refusal::OutOfRange);
    }
    search_valid(desk, request, output)
}

// A search on a desk. The line's places, kinds (S, N, E) and directions are in the outputs, with zeros behind it; its last node alone has the kind E.
pub fn search(desk: &[u32], request: Request, output: &mut Output) -> Result<(), Refusal>
    ensures value { number_of result ≡ desk_number desk.now (outputs_in output.old) (query_in request.entry) }
    ensures output_after { outputs_in output.new ≡ desk_outputs desk.now (outputs_in output.old) (query_in request.entry) }
    ensures kept { KeptOutput output.old output.new }
{
    if !is_lent(desk, output) {
        return Err(Refusal::TooShort);
    }
    search_lent(desk, request, output)
}
