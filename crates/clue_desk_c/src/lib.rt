// The public calls on a desk, as C calls them: each is the library's call of the same name. bindings/include/clue_desk.h is the header.
#![tactic(auto)]

ghost use Rattle.std.specs.Prelude.{◌≡◌};
ghost use Rattle.book.specs.declared.Kind.{Kind};
ghost use Rattle.desk.specs.Calls.{box_record, point_record, net_record};
ghost use Rattle.desk.specs.Calls.Call.{add, retire, undo as undo_call};
ghost use Rattle.clue_desk.specs.Calls.{number, words, outputs};
ghost use Rattle.clue_desk.specs.Calls.Call.{edit, read};
ghost use Rattle.clue_desk.specs.Calls.Outputs.{refused};
ghost use Rattle.clue_desk.specs.Views.{search_call, line_left, layout_call, drawing_left};

use book::number_of;

// Reads a page text: 0, or 16 with the 1-based line and the inner number, or 1 if the desk or the refusal's words are lent too small.
#[unsafe(no_mangle)]
pub extern "C" fn read_text(desk: &mut [u32], text: &[u8], refusal: &mut [u32]) -> u32
    ensures value { result ≡ number (read text.now refusal.old) desk.old }
    ensures desk_value { desk.new ≡ words (read text.now refusal.old) desk.old }
    ensures refusal_value { refused refusal.new ≡ outputs (read text.now refusal.old) desk.old }
{
    number_of(clue_desk::read_text(desk, text, refusal))
}

#[unsafe(no_mangle)]
pub extern "C" fn add_box(desk: &mut [u32], id: u32, x0: i32, y0: i32, x1: i32, y1: i32) -> u32
    ensures value { result ≡ number (edit (add Kind.Box (box_record id x0 y0 x1 y1))) desk.old }
    ensures desk_value { desk.new ≡ words (edit (add Kind.Box (box_record id x0 y0 x1 y1))) desk.old }
{
    number_of(clue_desk::add_box(desk, id, x0, y0, x1, y1))
}

#[unsafe(no_mangle)]
pub extern "C" fn add_port(desk: &mut [u32], id: u32, x: i32, y: i32, directions: u32) -> u32
    ensures value { result ≡ number (edit (add Kind.Port (point_record id x y directions))) desk.old }
    ensures desk_value { desk.new ≡ words (edit (add Kind.Port (point_record id x y directions))) desk.old }
{
    number_of(clue_desk::add_port(desk, id, x, y, directions))
}

#[unsafe(no_mangle)]
pub extern "C" fn add_net(desk: &mut [u32], id: u32) -> u32
    ensures value { result ≡ number (edit (add Kind.Net (net_record id))) desk.old }
    ensures desk_value { desk.new ≡ words (edit (add Kind.Net (net_record id))) desk.old }
{
    number_of(clue_desk::add_net(desk, id))
}

#[unsafe(no_mangle)]
pub extern "C" fn add_end(desk: &mut [u32], net: u32, x: i32, y: i32, mark: u32) -> u32
    ensures value { result ≡ number (edit (add Kind.End (point_record net x y mark))) desk.old }
    ensures desk_value { desk.new ≡ words (edit (add Kind.End (point_record net x y mark))) desk.old }
{
    number_of(clue_desk::add_end(desk, net, x, y, mark))
}

#[unsafe(no_mangle)]
pub extern "C" fn retire_box(desk: &mut [u32], id: u32) -> u32
    ensures value { result ≡ number (edit (retire Kind.Box id)) desk.old }
    ensures desk_value { desk.new ≡ words (edit (retire Kind.Box id)) desk.old }
{
    number_of(clue_desk::retire_box(desk, id))
}

#[unsafe(no_mangle)]
pub extern "C" fn retire_port(desk: &mut [u32], at: u32) -> u32
    ensures value { result ≡ number (edit (retire Kind.Port at)) desk.old }
    ensures desk_value { desk.new ≡ words (edit (retire Kind.Port at)) desk.old }
{
    number_of(clue_desk::retire_port(desk, at))
}

#[unsafe(no_mangle)]
pub extern "C" fn retire_net(desk: &mut [u32], id: u32) -> u32
    ensures value { result ≡ number (edit (retire Kind.Net id)) desk.old }
    ensures desk_value { desk.new ≡ words (edit (retire Kind.Net id)) desk.old }
{
    number_of(clue_desk::retire_net(desk, id))
}

#[unsafe(no_mangle)]
pub extern "C" fn retire_end(desk: &mut [u32], at: u32) -> u32
    ensures value { result ≡ number (edit (retire Kind.End at)) desk.old }
    ensures desk_value { desk.new ≡ words (edit (retire Kind.End at)) desk.old }
{
    number_of(clue_desk::retire_end(desk, at))
}

// Undoes the latest change.
#[unsafe(no_mangle)]
pub extern "C" fn undo(desk: &mut [u32]) -> u32
    ensures value { result ≡ number (edit undo_call) desk.old }
    ensures desk_value { desk.new ≡ words (edit undo_call) desk.old }
{
    number_of(clue_desk::undo(desk))
}

// A search from the place (x, y) to one of the ends (ex, ey), on the graph pruned (1) or not (0). The line's places, kinds (S, N, E) and directions are left in
// lx, ly, kinds and dirs, with zeros behind it; its last node alone has the kind E.
#[unsafe(no_mangle)]
pub extern "C" fn search(
    desk: &[u32],
    prune: u32,
    x: i32,
    y: i32,
    ex: &[i32],
    ey: &[i32],
    lx: &mut [i32],
    ly: &mut [i32],
    kinds: &mut [u8],
    dirs: &mut [u8],
) -> u32
    ensures value { result ≡ number (search_call prune x y ex.now ey.now lx.old ly.old kinds.old dirs.old) desk.now }
    ensures dirs_value { line_left lx.new ly.new kinds.new dirs.new ≡ outputs (search_call prune x y ex.now ey.now lx.old ly.old kinds.old dirs.old) desk.now }
{
    let found = clue_desk::search(desk, prune, x, y, ex, ey, lx, ly, kinds, dirs);
    number_of(found)
}

// All nets laid out, on the graph pruned (1) or not (0), the wires separated (1) or not (0). A net's row in nets is its number, its first vertex and how many, its
// first junction and how many; the vertices' places and letters are in x, y and kinds; a junction's row in joins is its vertex, the end vertex that joins there and
// its letter. Zeros stand behind them.
#[unsafe(no_mangle)]
pub extern "C" fn layout(
    desk: &[u32],
    prune: u32,
    separate: u32,
    nets: &mut [u32],
    x: &mut [i32],
    y: &mut [i32],
    kinds: &mut [u8],
    joins: &mut [u32],
) -> u32
    ensures value { result ≡ number (layout_call prune separate nets.old x.old y.old kinds.old joins.old) desk.now }
    ensures joins_value { drawing_left nets.new x.new y.new kinds.new joins.new ≡ outputs (layout_call prune separate nets.old x.old y.old kinds.old joins.old) desk.now }
{
    let laid = clue_desk::layout(desk, prune, separate, nets, x, y, kinds, joins);
    number_of(laid)
}
