// The records of a desk as the rows that a page is made of.
#![tactic(auto)]

ghost use Rattle.std.specs.Prelude.{◌≡◌, true, ◌≤◌, length};
ghost use Rattle.desk.specs.Sizes.{DESK};
ghost use Rattle.book.specs.Book.{list, valid};
ghost use Rattle.desk.specs.Desk.{book_of};
ghost use Rattle.anchors.specs.Lent.{records_in};
ghost use Rattle.select.specs.Page.{flat, page_of};

use anchors::Records;
use book::Kind;

// How many records of that kind a desk has, valid or not.
pub fn count_of(desk: &[u32], kind: Kind) -> usize
    requires { DESK ≤ length desk.now }
    ensures { result ≡ length (list kind (book_of desk.now).lists) }
{
    desk[1 + block::area_at(kind)] as usize
}

// The rows of that kind that a desk has.
pub fn rows_of(desk: &[u32], kind: Kind) -> &[u32]
    requires in_bounds { DESK ≤ length desk.now }
    requires desk_value { valid (book_of desk.now) ≡ true }
    ensures { result.now ≡ flat (list kind (book_of desk.now).lists) }
{
    let a = 1 + block::area_at(kind);
    let n = count_of(desk, kind);
    &desk[a + 1..a + 1 + n * kind.width()]
}

// All that a page is made of.
pub fn records(desk: &[u32]) -> Records
    requires in_bounds { DESK ≤ length desk.now }
    requires desk_value { valid (book_of desk.now) ≡ true }
    ensures { records_in result ≡ page_of (book_of desk.now).lists }
{
    Records {
        boxes: rows_of(desk, Kind::Box),
        ports: rows_of(desk, Kind::Port),
        nets: rows_of(desk, Kind::Net),
        ends: rows_of(desk, Kind::End),
    }
}
