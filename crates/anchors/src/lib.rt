// The explicit anchors of a page's records.
#![tactic(auto)]

ghost use Rattle.std.specs.Prelude.{◌≡◌, ◌/◌, ◌<◌, ◌≤◌, length, take};
ghost use Rattle.anchors.specs.Records.{BOX, ROW, RowsHeld};
ghost use Rattle.anchors.specs.Lent.{records_in};
ghost use Rattle.anchors.specs.Explicit.{takes, with_key, with_keys, explicit, columns};

use fixed::Anchor;
pub use fixed::BOX;

// Words of a port or an end, and of a net; those of a box are `fixed::BOX`.
pub const ROW: usize = 4;

pub const NET: usize = 1;

// All four directions.
const ALL: u32 = 15;

// A page's records, as rows of words, as many as fit: a box is its id, least x, least y, greatest x and greatest y, a port its box's id, x, y and directions,
// a net its id, and an end its net's id, x, y and mark.
#[derive(Clone, Copy, Debug, PartialEq, Eq)]
pub struct Records<'a> {
    pub boxes: &'a [u32],
    pub ports: &'a [u32],
    pub nets: &'a [u32],
    pub ends: &'a [u32],
}

// Ports by box, or ends by net if `ends` says so: a closure for each test would say the same twice.

// Whether a row is an anchor of `key`.
#[tactic(auto, unfolding(crate::specs::Explicit::takes))]
fn takes(row: &[u32; ROW], ends: bool, key: u32) -> bool
    ensures { result ≡ takes ends row.now key 0 }
{
    let [own, _, _, mark] = *row;
    own == key && (!ends || mark == 0)
}

// The anchors of one key among the rows, after the first n of the list of the caller, since there is no heap: how many there are then.
fn with_key(out: &mut [Anchor], n: usize, rows: &[u32], ends: bool, key: u32, ignored: u32) -> usize
    requires n_bound { n ≤ length out.old }
    requires room { length (with_key ends rows.now key ignored (length rows.now / ROW) (columns (take n out.old))).xs ≤ length out.old }
    ensures out_value { columns (take result out.new) ≡ with_key ends rows.now key ignored (length rows.now / ROW) (columns (take n out.old)) }
    ensures upper_bound { result ≤ length out.old }
{
    let mut count = n;
    let (parts, _) = rows.as_chunks::<ROW>();
    for row in parts {
        if takes(row, ends, key) {
            let [_, x, y, word] = *row;
            let directions = if ends { ALL } else { word };
            out[count] = Anchor {
                x,
                y,
                directions,
                ignored,
            };
            count += 1;
        }
    }
    count
}

// The anchors of the keys in turn; a key is the first of WIDTH words.
fn with_keys<const WIDTH: usize>(
    out: &mut [Anchor],
    n: usize,
    rows: &[u32],
    keys: &[u32],
    ends: bool,
) -> usize
    requires n_bound { n ≤ length out.old }
    requires few { (0 < WIDTH) × (WIDTH ≤ BOX) × (length keys.now / WIDTH < 4294967296) }
    requires room { length (with_keys ends rows.now (length rows.now / ROW) keys.now WIDTH (length keys.now / WIDTH) (columns (take n out.old))).xs ≤ length out.old }
    ensures out_value { columns (take result out.new) ≡ with_keys ends rows.now (length rows.now / ROW) keys.now WIDTH (length keys.now / WIDTH) (columns (take n out.old)) }
    ensures upper_bound { result ≤ length out.old }
{
    let mut count = n;
    let (parts, _) = keys.as_chunks::<WIDTH>();
    for (i, key) in parts.iter().enumerate() {
        let ignored = if ends { nodes::NONE } else { i as u32 };
        count = with_key(out, count, rows, ends, key[0], ignored);
    }
    count
}

// The explicit anchors of a page's records: how many there are.
pub fn explicit(records: Records, out: &mut [Anchor]) -> usize
    requires rows_held { RowsHeld (records_in records) }
    requires room { length (explicit (records_in records)).xs ≤ length out.old }
    ensures out_value { columns (take result out.new) ≡ explicit (records_in records.entry) }
    ensures upper_bound { result ≤ length out.old }
{
    let n = with_keys::<BOX>(out, 0, records.ports, records.boxes, false);
    with_keys::<NET>(out, n, records.ends, records.nets, true)
}
