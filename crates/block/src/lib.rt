// A block of words: the boxes, ports, nets and ends of a desk. Tests of its records, and records put in and taken out.
// A block is a slice, with `Counted` in the contracts, and no struct: C lends its words, so one would be made anew at each call.
#![tactic(auto)]

ghost use Rattle.std.specs.Prelude.{◌≡◌, true, ◌&&◌, [], ◌+◌, ◌*◌, ◌≤◌, ◌<◌, length, get_or};
ghost use Rattle.std.specs.List.{list_all};
ghost use Rattle.rows.specs.Rows.{is_in, ids, key, count, scan, place};
ghost use Rattle.book.specs.declared.Kind.{Kind};
ghost use Rattle.book.specs.Sizes.{BOX, PORT};
ghost use Rattle.book.specs.Refusals.{number_of};
ghost use Rattle.block.specs.Sizes.{BLOCK};
ghost use Rattle.book.specs.Book.{width as width_of, most as most_of, ok_id, ok_place, ok_fields, ok_owners, ok_members, ok_lists, ranged as ranged_of, answer};
ghost use Rattle.book.specs.Book.{new_number, known_number, room_number, take_number, id_number, place_number, leave_number, spot as spot_of};
ghost use Rattle.block.specs.Block.{start, size as type_size, area, list_of, lists_of, ok_list, apart, Counted, with_row, with_row_at, without_row, block_before};
ghost use Rattle.book.specs.Entries.{before, out, back, is_held};

use book::{Kind, Refusal};

// The most records of a list of any kind.
const MOST: usize = book::PORTS;

pub const BOX_AREA: usize = 1 + book::BOXES * book::BOX;

pub const PORT_AREA: usize = 1 + book::PORTS * book::PORT;

pub const NET_AREA: usize = 1 + book::NETS * book::NET;

pub const END_AREA: usize = 1 + book::ENDS * book::END;

pub const PORTS_AT: usize = BOX_AREA;

pub const NETS_AT: usize = PORTS_AT + PORT_AREA;

pub const ENDS_AT: usize = NETS_AT + NET_AREA;

pub const BLOCK: usize = ENDS_AT + END_AREA;

// Where a kind's area begins in a block.
pub fn area_at(kind: Kind) -> usize
    ensures { result ≡ start kind }
{
    match kind {
        Kind::Box => 0,
        Kind::Port => PORTS_AT,
        Kind::Net => NETS_AT,
        Kind::End => ENDS_AT,
    }
}

// The words of a kind's area.
pub fn size(kind: Kind) -> usize
    ensures { result ≡ type_size kind }
{
    match kind {
        Kind::Box => BOX_AREA,
        Kind::Port => PORT_AREA,
        Kind::Net => NET_AREA,
        Kind::End => END_AREA,
    }
}

#[tactic(auto, unfolding(book::specs::Book::ok_id_in))]
fn ok_id(id: u32) -> bool
    ensures { result ≡ ok_id id }
{
    (1 <= id) & (id <= book::IDS)
}

#[tactic(auto, unfolding(book::specs::Book::ok_place))]
fn ok_place(x: u32, y: u32) -> bool
    ensures { result ≡ ok_place x y }
{
    ((fixed::LEAST <= x) & (x <= fixed::GREATEST)) & ((fixed::LEAST <= y) & (y <= fixed::GREATEST))
}

fn ok_box(row: &[u32]) -> bool
    requires { length row.now ≡ BOX }
    ensures { result ≡ ok_fields Kind.Box row.now }
{
    let fields = ok_id(row[0]) & (ok_place(row[1], row[2]) & ok_place(row[3], row[4]));
    fields & ((row[1] <= row[3]) & (row[2] <= row[4]))
}

fn ok_point(row: &[u32]) -> bool
    requires { length row.now ≡ PORT }
    ensures { result ≡ ok_id (get_or row.now 0 0) && ok_place (get_or row.now 1 0) (get_or row.now 2 0) }
{
    ok_id(row[0]) & ok_place(row[1], row[2])
}

// Whether a record's fields are in range.
fn ok_fields(kind: Kind, row: &[u32]) -> bool
    requires { length row.now ≡ width_of kind }
    ensures { result ≡ ok_fields kind row.now }
{
    match kind {
        Kind::Box => ok_box(row),
        Kind::Port => ok_point(row) & (row[3] <= 15),
        Kind::Net => ok_id(row[0]),
        Kind::End => ok_point(row) & (row[3] <= 1),
    }
}

// A field out of range is refused.
#[tactic(auto, unfolding(book::specs::Book::ranged))]
fn ranged(ok: bool) -> Result<(), Refusal>
    ensures { number_of result ≡ ranged_of ok }
{
    if ok { Ok(()) } else { Err(Refusal::OutOfRange) }
}

// The area of a kind.
#[tactic(auto, using(crate::proofs::Blocks::areas), unfolding(crate::specs::Block::area, rows::specs::Rows::part))]
fn area(blk: &[u32], kind: Kind) -> &[u32]
    requires { length blk.now ≡ BLOCK }
    ensures { result.now ≡ area kind blk.now }
{
    let a = area_at(kind);
    &blk[a..a + size(kind)]
}

// The records of that kind in the block.
#[tactic(auto, using(crate::proofs::Blocks::areas))]
fn records(blk: &[u32], kind: Kind) -> usize
    requires { length blk.now ≡ BLOCK }
    ensures { result ≡ count (area kind blk.now) }
{
    area(blk, kind)[0] as usize
}

// Whether a record of that kind with that first field is in the block.
#[tactic(auto, using(crate::proofs::Blocks::areas), unfolding(crate::specs::Block::list_of))]
fn holds(blk: &[u32], kind: Kind, id: u32) -> bool
    requires { Counted blk.now }
    ensures { result ≡ is_in id (ids (list_of kind blk.now)) }
{
    rows::holds(area(blk, kind), kind.width(), id)
}

// A full list is refused.
#[tactic(auto, using(crate::proofs::Blocks::areas), unfolding(book::specs::Book::room_number))]
fn check_room(blk: &[u32], kind: Kind) -> Result<(), Refusal>
    requires { Counted blk.now }
    ensures { number_of result ≡ room_number kind (list_of kind blk.now) }
{
    if records(blk, kind) < kind.most() {
        Ok(())
    } else {
        Err(Refusal::Full)
    }
}

// Whether a new box or net may be added.
#[tactic(auto, unfolding(book::specs::Book::new_number))]
fn check_new(blk: &[u32], kind: Kind, id: u32) -> Result<(), Refusal>
    requires { Counted blk.now }
    ensures { number_of result ≡ new_number kind (list_of kind blk.now) id }
{
    if holds(blk, kind, id) {
        return Err(Refusal::Taken);
    }
    check_room(blk, kind)
}

// Whether a new record of a box or net may be added.
#[tactic(auto, unfolding(book::specs::Book::known_number))]
fn check_known(blk: &[u32], owner: Kind, kind: Kind, id: u32) -> Result<(), Refusal>
    requires { Counted blk.now }
    ensures { number_of result ≡ known_number kind (list_of owner blk.now) (list_of kind blk.now) id }
{
    if !holds(blk, owner, id) {
        return Err(Refusal::Unknown);
    }
    check_room(blk, kind)
}

// Whether a record may be added: its fields, then the lists.
#[tactic(auto, using(crate::proofs::Blocks::areas), unfolding(crate::specs::Block::lists_of, book::specs::Book::take_number_in, book::specs::Book::fields_number_in, book::specs::Book::answer, rows::specs::Rows::key))]
pub fn check_add(blk: &[u32], kind: Kind, row: &[u32]) -> Result<(), Refusal>
    requires counted { Counted blk.now }
    requires row_len { length row.now ≡ width_of kind }
    ensures { number_of result ≡ take_number kind row.now (lists_of blk.now) }
{
    ranged(ok_fields(kind, row))?;
    match kind {
        Kind::Box | Kind::Net => check_new(blk, kind, row[0]),
        Kind::Port => check_known(blk, Kind::Box, kind, row[0]),
        Kind::End => check_known(blk, Kind::Net, kind, row[0]),
    }
}

// Puts a row last in the area of its kind.
#[tactic(auto, using(crate::proofs::Blocks::parts), unfolding(crate::specs::Block::with_row))]
pub fn put_record(blk: &mut [u32], kind: Kind, row: &[u32])
    requires counted { Counted blk.old }
    requires row_len { (length row.now ≡ width_of kind) × (room_number kind (list_of kind blk.old) ≡ 0) }
    ensures { blk.new ≡ with_row kind row.now blk.old }
{
    let a = area_at(kind);
    rows::append(&mut blk[a..a + size(kind)], row);
}

// Whether the records of a kind keep their limit, and their fields the ranges.
#[tactic(auto, using(crate::proofs::Blocks::areas, crate::proofs::Fits::list_far))]
fn ok_list(blk: &[u32], kind: Kind) -> bool
    requires { length blk.now ≡ BLOCK }
    ensures { result ≡ ok_list kind (list_of kind blk.now) }
{
    let n = records(blk, kind);
    if kind.most() < n {
        return false;
    }
    let w = kind.width();
    let rows = &area(blk, kind)[1..1 + n * w];
    rows.chunks_exact(w).all(|row| ok_fields(kind, row))
}

// The first fields of a kind's records, gathered: side by side they are searched faster.
#[tactic(auto, using(crate::proofs::Blocks::areas), unfolding(crate::specs::Block::list_of))]
fn ids<'a>(blk: &[u32], kind: Kind, words: &'a mut [u32]) -> &'a [u32]
    requires few { (length blk.now ≡ BLOCK) × (count (area kind blk.now) ≤ most_of kind) }
    requires room { most_of kind ≤ length words.old }
    ensures { result.now ≡ ids (list_of kind blk.now) }
{
    let n = records(blk, kind);
    rows::gather(area(blk, kind), kind.width(), n, words);
    &words[..n]
}

// Whether no id is there twice.
#[tactic(auto, using(crate::proofs::Fits::apart_fail, crate::proofs::Fits::apart_on, rows::proofs::Rows::done))]
fn distinct(ids: &[u32]) -> bool
    ensures { result ≡ scan apart ids.now }
{
    for i in 0..ids.len() {
        if rows::among(&ids[i + 1..], ids[i]) {
            return false;
        }
    }
    true
}

// Whether all ids are among the owners.
fn all_among(ids: &[u32], owners: &[u32]) -> bool
    ensures { result ≡ list_all (λ id. is_in id owners.now) ids.now }
{
    ids.iter().all(|id| rows::among(owners, *id))
}

// Whether the boxes and ports, or the nets and ends, fit.
#[tactic(auto, using(crate::proofs::Fits::pair_is, crate::proofs::Fits::list_few))]
fn ok_pair(blk: &[u32], owner: Kind, kind: Kind) -> bool
    requires { length blk.now ≡ BLOCK }
    ensures { result ≡ ok_owners owner (list_of owner blk.now) && ok_members kind (list_of owner blk.now) (list_of kind blk.now) }
{
    if !ok_list(blk, owner) || !ok_list(blk, kind) {
        return false;
    }
    let mut owners = [0; MOST];
    let owners = ids(blk, owner, &mut owners);
    let mut owned = [0; MOST];
    let owned = ids(blk, kind, &mut owned);
    distinct(owners) && all_among(owned, owners)
}

// Whether a block is a valid set of lists.
#[tactic(auto, using(crate::proofs::Fits::lists_are))]
pub fn ok_block(blk: &[u32]) -> bool
    requires { length blk.now ≡ BLOCK }
    ensures { result ≡ ok_lists (lists_of blk.now) }
{
    ok_pair(blk, Kind::Box, Kind::Port) && ok_pair(blk, Kind::Net, Kind::End)
}

// Whether a box or net may be retired.
#[tactic(auto, unfolding(book::specs::Book::id_number, book::specs::Book::answer))]
fn check_id(blk: &[u32], owner: Kind, kind: Kind, id: u32) -> Result<(), Refusal>
    requires { Counted blk.now }
    ensures { number_of result ≡ answer true (ranged_of (ok_id id)) (id_number (list_of owner blk.now) (list_of kind blk.now) id) }
{
    ranged(ok_id(id))?;
    if !holds(blk, owner, id) {
        return Err(Refusal::Unknown);
    }
    if holds(blk, kind, id) {
        return Err(Refusal::InUse);
    }
    Ok(())
}

// Whether the port or end at a place may be retired.
#[tactic(auto, using(crate::proofs::Blocks::areas), unfolding(book::specs::Book::place_number))]
fn check_place(blk: &[u32], kind: Kind, at: u32) -> Result<(), Refusal>
    requires { Counted blk.now }
    ensures { number_of result ≡ place_number (list_of kind blk.now) at }
{
    if (at as usize) < records(blk, kind) {
        Ok(())
    } else {
        Err(Refusal::Unknown)
    }
}

// Whether the record that is named so may be retired: its id, then the lists.
#[tactic(auto, unfolding(crate::specs::Block::lists_of, book::specs::Book::leave_number, book::specs::Book::answer))]
pub fn check_retire(blk: &[u32], kind: Kind, name: u32) -> Result<(), Refusal>
    requires { Counted blk.now }
    ensures { number_of result ≡ leave_number kind name (lists_of blk.now) }
{
    match kind {
        Kind::Box => check_id(blk, kind, Kind::Port, name),
        Kind::Net => check_id(blk, kind, Kind::End, name),
        Kind::Port | Kind::End => check_place(blk, kind, name),
    }
}

// The place of the record with that id.
#[tactic(auto, using(crate::proofs::Blocks::areas, crate::proofs::Blocks::place_is))]
fn place_of(blk: &[u32], kind: Kind, id: u32) -> usize
    requires { Counted blk.now }
    ensures { result ≡ place id (ids (list_of kind blk.now)) }
{
    let n = records(blk, kind);
    rows::find(area(blk, kind), kind.width(), n, id).unwrap_or(n)
}

// The place of the record that is named so: a box or net by its id, a port or end by its place.
#[tactic(auto, unfolding(crate::specs::Block::lists_of))]
pub fn spot(blk: &[u32], kind: Kind, name: u32) -> usize
    requires { Counted blk.now }
    ensures { result ≡ spot_of kind (lists_of blk.now) name }
{
    match kind {
        Kind::Box | Kind::Net => place_of(blk, kind, name),
        Kind::Port | Kind::End => name as usize,
    }
}

// Takes row i out of the area of its kind.
#[tactic(auto, using(crate::proofs::Blocks::parts), unfolding(crate::specs::Block::without_row))]
pub fn cut_record(blk: &mut [u32], kind: Kind, i: usize)
    requires counted { Counted blk.old }
    requires i_bound { i < count (area kind blk.old) }
    ensures { blk.new ≡ without_row kind i blk.old }
{
    let a = area_at(kind);
    rows::remove(&mut blk[a..a + size(kind)], kind.width(), i);
}

// Puts a row in at place i of the area of its kind.
#[tactic(auto, using(crate::proofs::Blocks::parts), unfolding(crate::specs::Block::with_row_at))]
fn insert_record(blk: &mut [u32], kind: Kind, i: usize, row: &[u32])
    requires counted { Counted blk.old }
    requires row_len { length row.now ≡ width_of kind }
    requires room { room_number kind (list_of kind blk.old) ≡ 0 }
    requires i_bound { i ≤ count (area kind blk.old) }
    ensures { blk.new ≡ with_row_at kind i row.now blk.old }
{
    let a = area_at(kind);
    rows::insert(&mut blk[a..a + size(kind)], i, row);
}

// The first word of row i.
#[tactic(auto, using(crate::proofs::Blocks::key_in, crate::proofs::Blocks::key_here))]
fn id_at(blk: &[u32], kind: Kind, i: usize) -> u32
    requires counted { Counted blk.now }
    requires i_bound { i < count (area kind blk.now) }
    ensures { result ≡ key (get_or (list_of kind blk.now) i []) }
{
    area(blk, kind)[1 + i * kind.width()]
}

// Whether a record belongs to the one at place i.
#[tactic(auto, unfolding(crate::specs::Block::lists_of))]
fn is_held(blk: &[u32], kind: Kind, i: usize) -> bool
    requires counted { Counted blk.now }
    requires i_bound { i < count (area kind blk.now) }
    ensures { result ≡ is_held kind (lists_of blk.now) i }
{
    match kind {
        Kind::Box => holds(blk, Kind::Port, id_at(blk, kind, i)),
        Kind::Net => holds(blk, Kind::End, id_at(blk, kind, i)),
        Kind::Port | Kind::End => false,
    }
}

// Undoes an addition: takes the last record of a kind out, if there is one and nothing belongs to it.
#[tactic(auto, using(crate::proofs::Taken::counted, crate::proofs::Taken::out_answer), unfolding(crate::specs::Block::block_before))]
pub fn take_out(blk: &mut [u32], kind: Kind) -> bool
    requires { (length blk.old ≡ BLOCK) × (ok_lists (lists_of blk.old) ≡ true) }
    ensures value { result ≡ ok_lists (before (out kind) (lists_of blk.old)) }
    ensures blk_after { result ≡ true → blk.new ≡ block_before (out kind) blk.old }
{
    let n = records(blk, kind);
    if n == 0 || is_held(blk, kind, n - 1) {
        return false;
    }
    cut_record(blk, kind, n - 1);
    true
}

// Undoes a retirement: puts a record in at place i, if it could be added and the place is there.
#[tactic(auto, using(crate::proofs::Taken::counted, crate::proofs::Taken::back_answer, book::proofs::Refusals::done_is), unfolding(crate::specs::Block::block_before))]
pub fn put_back(blk: &mut [u32], kind: Kind, i: usize, row: &[u32]) -> bool
    requires { (length blk.old ≡ BLOCK) × (ok_lists (lists_of blk.old) ≡ true) × (length row.now ≡ width_of kind) }
    ensures value { result ≡ ok_lists (before (back kind i row.now) (lists_of blk.old)) }
    ensures blk_after { result ≡ true → blk.new ≡ block_before (back kind i row.now) blk.old }
{
    let n = records(blk, kind);
    if n < i {
        return false;
    }
    if check_add(blk, kind, row).is_err() {
        return false;
    }
    insert_record(blk, kind, i, row);
    true
}
