// The public calls on a desk. The claims about lists of calls stand in specs/Calls.antt.
#![tactic(auto)]

ghost use Rattle.std.specs.Prelude.{◌≡◌};
ghost use Rattle.book.specs.declared.Kind.{Kind};
ghost use Rattle.book.specs.Refusals.{number_of};
ghost use Rattle.desk.specs.Calls.{box_record, point_record, net_record};
ghost use Rattle.desk.specs.Calls.Call.{add, retire, undo as undo_call};
ghost use Rattle.clue_desk.specs.Calls.{number, words, outputs};
ghost use Rattle.clue_desk.specs.Calls.Call.{edit, read};
ghost use Rattle.clue_desk.specs.Calls.Outputs.{refused};
ghost use Rattle.clue_desk.specs.Views.{search_call, line_left, layout_call, drawing_left};

use book::{Kind, Refusal};
use desk_layout::Choice;
use desk_search::Request;
use fixed::up;
use path_finding::Output;

// Reads a page text, unless the desk or the refusal's words are lent too small. A line that does not go is told in the refusal's first two words, its 1-based
// number and the inner number; zeros stand behind them, or in all of them.
pub fn read_text(desk: &mut [u32], text: &[u8], refusal: &mut [u32]) -> Result<(), Refusal>
    ensures value { number_of result ≡ number (read text.now refusal.old) desk.old }
    ensures desk_value { desk.new ≡ words (read text.now refusal.old) desk.old }
    ensures refusal_value { refused refusal.new ≡ outputs (read text.now refusal.old) desk.old }
{
    page_text::read_text(desk, text, refusal)
}

pub fn add_box(desk: &mut [u32], id: u32, x0: i32, y0: i32, x1: i32, y1: i32) -> Result<(), Refusal>
    ensures value { number_of result ≡ number (edit (add Kind.Box (box_record id x0 y0 x1 y1))) desk.old }
    ensures desk_value { desk.new ≡ words (edit (add Kind.Box (box_record id x0 y0 x1 y1))) desk.old }
{
    let row = [id, up(x0), up(y0), up(x1), up(y1)];
    desk::add(desk, Kind::Box, &row)
}

pub fn add_port(desk: &mut [u32], id: u32, x: i32, y: i32, directions: u32) -> Result<(), Refusal>
    ensures value { number_of result ≡ number (edit (add Kind.Port (point_record id x y directions))) desk.old }
    ensures desk_value { desk.new ≡ words (edit (add Kind.Port (point_record id x y directions))) desk.old }
{
    let row = [id, up(x), up(y), directions];
    desk::add(desk, Kind::Port, &row)
}

pub fn add_net(desk: &mut [u32], id: u32) -> Result<(), Refusal>
    ensures value { number_of result ≡ number (edit (add Kind.Net (net_record id))) desk.old }
    ensures desk_value { desk.new ≡ words (edit (add Kind.Net (net_record id))) desk.old }
{
    desk::add(desk, Kind::Net, &[id])
}

pub fn add_end(desk: &mut [u32], net: u32, x: i32, y: i32, mark: u32) -> Result<(), Refusal>
    ensures value { number_of result ≡ number (edit (add Kind.End (point_record net x y mark))) desk.old }
    ensures desk_value { desk.new ≡ words (edit (add Kind.End (point_record net x y mark))) desk.old }
{
    let row = [net, up(x), up(y), mark];
    desk::add(desk, Kind::End, &row)
}

pub fn retire_box(desk: &mut [u32], id: u32) -> Result<(), Refusal>
    ensures value { number_of result ≡ number (edit (retire Kind.Box id)) desk.old }
    ensures desk_value { desk.new ≡ words (edit (retire Kind.Box id)) desk.old }
{
    desk::retire(desk, Kind::Box, id)
}

pub fn retire_port(desk: &mut [u32], at: u32) -> Result<(), Refusal>
    ensures value { number_of result ≡ number (edit (retire Kind.Port at)) desk.old }
    ensures desk_value { desk.new ≡ words (edit (retire Kind.Port at)) desk.old }
{
    desk::retire(desk, Kind::Port, at)
}

pub fn retire_net(desk: &mut [u32], id: u32) -> Result<(), Refusal>
    ensures value { number_of result ≡ number (edit (retire Kind.Net id)) desk.old }
    ensures desk_value { desk.new ≡ words (edit (retire Kind.Net id)) desk.old }
{
    desk::retire(desk, Kind::Net, id)
}

pub fn retire_end(desk: &mut [u32], at: u32) -> Result<(), Refusal>
    ensures value { number_of result ≡ number (edit (retire Kind.End at)) desk.old }
    ensures desk_value { desk.new ≡ words (edit (retire Kind.End at)) desk.old }
{
    desk::retire(desk, Kind::End, at)
}

// Undoes the latest change.
pub fn undo(desk: &mut [u32]) -> Result<(), Refusal>
    ensures value { number_of result ≡ number (edit undo_call) desk.old }
    ensures desk_value { desk.new ≡ words (edit undo_call) desk.old }
{
    desk::undo(desk)
}

// A search from the place (x, y) to one of the ends (ex, ey), on the graph pruned (1) or not (0). The line's places, kinds (S, N, E) and directions are left in
// lx, ly, kinds and dirs, with zeros behind it; its last node alone has the kind E.
pub fn search(
    desk: &[u32],
    prune: u32,
    x: i32,
    y: i32,
    ex: &[i32],
    ey: &[i32],
    lx: &mut [i32],
    ly: &mut [i32],
    kinds: &mut [u8],
    dirs: &mut [u8],
) -> Result<(), Refusal>
    ensures value { number_of result ≡ number (search_call prune x y ex.now ey.now lx.old ly.old kinds.old dirs.old) desk.now }
    ensures dirs_value { line_left lx.new ly.new kinds.new dirs.new ≡ outputs (search_call prune x y ex.now ey.now lx.old ly.old kinds.old dirs.old) desk.now }
{
    let request = Request {
        prune,
        x: up(x),
        y: up(y),
        end_x: ex,
        end_y: ey,
    };
    let mut output = Output {
        x: lx,
        y: ly,
        kinds,
        directions: dirs,
    };
    desk_search::search(desk, request, &mut output)
}

// All nets laid out, on the graph pruned (1) or not (0), the wires separated (1) or not (0). A net's row in nets is its number, its first vertex and how many, its
// first junction and how many; the vertices' places and letters are in x, y and kinds; a junction's row in joins is its vertex, the end vertex that joins there and
// its letter. Zeros stand behind them.
pub fn layout(
    desk: &[u32],
    prune: u32,
    separate: u32,
    nets: &mut [u32],
    x: &mut [i32],
    y: &mut [i32],
    kinds: &mut [u8],
    joins: &mut [u32],
) -> Result<(), Refusal>
    ensures value { number_of result ≡ number (layout_call prune separate nets.old x.old y.old kinds.old joins.old) desk.now }
    ensures joins_value { drawing_left nets.new x.new y.new kinds.new joins.new ≡ outputs (layout_call prune separate nets.old x.old y.old kinds.old joins.old) desk.now }
{
    let choice = Choice { prune, separate };
    desk_layout::layout(desk, choice, nets, x, y, kinds, joins)
}
