// A layout on a desk.
#![tactic(auto)]

ghost use Rattle.std.specs.Prelude.{◌≡◌, true, ◌&&◌, ℕ, ◌≤◌, leb, length};
ghost use Rattle.desk.specs.Sizes.{DESK};
ghost use Rattle.book.specs.Book.{valid};
ghost use Rattle.book.specs.Refusals.{number_of};
ghost use Rattle.desk.specs.Desk.{book_of, seen_of};
ghost use Rattle.layout.specs.Lent.{KeptSheet};
ghost use Rattle.page_layout.specs.Drawing.{drawing, drawing_in};
ghost use Rattle.desk_layout.specs.Layout.{is_pruned, is_apart, ok_choice, layout_number, left, tested, desk_number, desk_drawing};

use book::Refusal;
use layout::Sheet;

// The words of 64 nets' rows.
pub const NET_WORDS: usize = 320;

// The most vertices of a page.
pub const VERTICES: usize = 512;

// The words of 256 junctions' rows.
pub const JOIN_WORDS: usize = 768;

// What a layout is asked: on the graph pruned (1) or not (0), with the wires separated (1) or not (0).
#[derive(Clone, Copy, Debug, PartialEq, Eq)]
pub struct Choice {
    pub prune: u32,
    pub separate: u32,
}

impl Choice {
    // On the graph pruned or not, with the wires separated or not.
    #[tactic(auto, unfolding(crate::specs::Layout::ok_choice))]
    pub fn new(pruned: bool, apart: bool) -> Choice
        ensures pruned { is_pruned result ≡ pruned }
        ensures apart { is_apart result ≡ apart }
        ensures ok { ok_choice result ≡ true }
    {
        Choice {
            prune: pruned as u32,
            separate: apart as u32,
        }
    }

    // Whether it keeps its ranges.
    #[tactic(auto, unfolding(crate::specs::Layout::ok_choice))]
    fn is_ok(self) -> bool
        ensures { result ≡ ok_choice self }
    {
        (self.prune <= 1) & (self.separate <= 1)
    }
}

// Whether all that is lent is long enough.
fn is_lent(desk: usize, nets: usize, x: usize, y: usize, kinds: usize, joins: usize) -> bool
    ensures { result ≡ leb DESK desk && (leb 320 nets && ((leb 512 x && leb 512 y) && (leb 512 kinds && leb 768 joins))) }
{
    let places = (VERTICES <= x) & (VERTICES <= y);
    let lists = (NET_WORDS <= nets) & (places & ((VERTICES <= kinds) & (JOIN_WORDS <= joins)));
    (desk::DESK <= desk) & lists
}

// A layout on a desk that is valid.
fn layout_valid(desk: &[u32], choice: Choice, sheet: &mut Sheet) -> Result<(), Refusal>
    requires in_bounds { DESK ≤ length desk.now }
    requires desk_value { valid (book_of desk.now) ≡ true }
    ensures value { number_of result ≡ layout_number (book_of desk.now).lists }
    ensures sheet_after { drawing_in sheet.new ≡ left (number_of result) (book_of desk.now).lists choice (drawing_in sheet.old) }
    ensures kept { KeptSheet sheet.old sheet.new }
{
    let records = select::records(desk);
    page_layout::lay_out_page(records, choice.prune == 1, choice.separate == 1, sheet)
}

// A layout that is lent enough.
fn layout_lent(desk: &[u32], choice: Choice, sheet: &mut Sheet) -> Result<(), Refusal>
    requires { DESK ≤ length desk.now }
    ensures value { number_of result ≡ tested (seen_of desk.now) choice }
    ensures sheet_after { drawing_in sheet.new ≡ left (number_of result) (book_of desk.now).lists choice (drawing_in sheet.old) }
    ensures kept { KeptSheet sheet.old sheet.new }
{
    if desk::validate(desk).is_err() || !choice.is_ok() {
        sheet.clear();
        return Err(Refusal::OutOfRange);
    }
    layout_valid(desk, choice, sheet)
}

// A layout of all nets of a desk. A net's row is its number, its first vertex and how many vertices, its first junction and how many junctions; a junction's row is
// its vertex, the end vertex that joins there, and a letter. Zeros stand behind them.
pub fn layout(
    desk: &[u32],
    choice: Choice,
    nets: &mut [u32],
    x: &mut [i32],
    y: &mut [i32],
    kinds: &mut [u8],
    joins: &mut [u32],
) -> Result<(), Refusal>
    ensures value { number_of result ≡ desk_number desk.now (drawing nets.old x.old y.old kinds.old joins.old) choice }
    ensures lists_after { drawing nets.new x.new y.new kinds.new joins.new ≡ desk_drawing desk.now (drawing nets.old x.old y.old kinds.old joins.old) choice }
{
    if !is_lent(
        desk.len(),
        nets.len(),
        x.len(),
        y.len(),
        kinds.len(),
        joins.len(),
    ) {
        return Err(Refusal::TooShort);
    }
    let mut sheet = Sheet {
        nets,
        x,
        y,
        letters: kinds,
        joins,
    };
    layout_lent(desk, choice, &mut sheet)
}
