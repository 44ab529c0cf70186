// What program `wires` prints of a page text.
#![tactic(auto)]

ghost use Rattle.std.specs.Prelude.{◌≡◌, true, ◌≤◌, length, take};
ghost use Rattle.desk.specs.Sizes.{DESK};
ghost use Rattle.book.specs.Book.{valid};
ghost use Rattle.desk.specs.Desk.{book_of};
ghost use Rattle.decimals.specs.Write.{Put};
ghost use Rattle.listing.specs.Listing.{listing, First};
ghost use Rattle.page_layout.specs.Drawing.{drawing};
ghost use Rattle.page_text.specs.Law.{TEXT};
ghost use Rattle.page_listing.specs.Fits.{Fits};
ghost use Rattle.page_listing.specs.Claims.{Prints};
ghost use Rattle.page_listing.specs.Printed.{ROOM, page_on, page_printed, printed};

use desk_layout::Choice;

// The bytes that are printed of a page at most.
pub const ROOM: usize = 29696;

// The bytes of a text that decide: at most 640 lines of 96 bytes go, and the next one is refused.
pub const TEXT: usize = 61536;

// Prints the nets of a desk as they are laid out.
fn print_laid(
    desk: &[u32],
    nets: &[u32],
    x: &[i32],
    y: &[i32],
    kinds: &[u8],
    joins: &[u32],
    out: &mut [u8],
) -> usize
    requires in_bounds { DESK ≤ length desk.now }
    requires desk_value { valid (book_of desk.now) ≡ true }
    requires fits { Fits (drawing nets.now x.now y.now kinds.now joins.now) (length (book_of desk.now).lists.nets) }
    requires in_bounds_2 { ROOM ≤ length out.old }
    ensures put { Put out.old 0 (listing (page_on (book_of desk.now).lists (drawing nets.now x.now y.now kinds.now joins.now)) (length (book_of desk.now).lists.nets)) out.new result }
    ensures first { First result out.new }
{
    let page = listing::Page {
        nets,
        ids: select::rows_of(desk, book::Kind::Net),
        xs: x,
        ys: y,
        kinds,
        junctions: joins,
    };
    listing::write_listing(out, page, page.ids.len())
}

// Lays out the page of a desk, and prints it. The lists are made here.
fn print_desk(desk: &[u32], pruned: bool, apart: bool, out: &mut [u8]) -> usize
    requires in_bounds { DESK ≤ length desk.now }
    requires desk_value { valid (book_of desk.now) ≡ true }
    requires room { ROOM ≤ length out.old }
    ensures put { Put out.old 0 (page_printed pruned apart (book_of desk.now).lists) out.new result }
    ensures first { First result out.new }
{
    let mut nets = [0u32; 320];
    let mut x = [0i32; 512];
    let mut y = [0i32; 512];
    let mut kinds = [0u8; 512];
    let mut joins = [0u32; 768];
    let choice = Choice::new(pruned, apart);
    let laid = desk_layout::layout(
        desk, choice, &mut nets, &mut x, &mut y, &mut kinds, &mut joins,
    );
    if laid.is_err() {
        return listing::write_crowded(out);
    }
    print_laid(desk, &nets, &x, &y, &kinds, &joins, out)
}

// Prints a page text, its graph pruned or not, its wires separated or not, at the buffer's begin; returns how many bytes. The desk is made here.
pub fn list_page(text: &[u8], pruned: bool, apart: bool, out: &mut [u8]) -> usize
    requires { ROOM ≤ length out.old }
    ensures put { Put out.old 0 (printed pruned apart text.now) out.new result }
    ensures first { First result out.new }
{
    let mut desk = [0u32; desk::DESK];
    let mut refusal = [0u32; 2];
    if page_text::read_text(&mut desk, text, &mut refusal).is_err() {
        return listing::write_refused(out, refusal[0], refusal[1]);
    }
    print_desk(&desk, pruned, apart, out)
}

// What program `wires` prints: the listing, pruned and separated, of a page text whose first n bytes were read into `start`; returns how many bytes.
pub fn list_wires(start: &[u8], n: usize, out: &mut [u8]) -> usize
    requires { (length start.now ≡ TEXT) × First n start.now × (ROOM ≤ length out.old) }
    ensures prints { Prints (take n start.now) out.old out.new result }
    ensures first { First result out.new }
{
    list_page(&start[..n], true, true, out)
}
