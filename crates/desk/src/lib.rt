// A desk: boxes, ports, nets and ends in a lent slice of words, with a pile of up to 32 undo entries.
#![tactic(auto)]

ghost use Rattle.std.specs.Prelude.{◌≡◌, true, [], map, ◌+◌, ◌*◌, ◌≤◌, ◌<◌, length, get_or};
ghost use Rattle.rows.specs.Rows.{count, scan, rows as rows_of};
ghost use Rattle.book.specs.declared.Kind.{Kind};
ghost use Rattle.book.specs.Sizes.{COPIES};
ghost use Rattle.block.specs.Sizes.{BLOCK};
ghost use Rattle.desk.specs.Sizes.{NEXT, ENTRY, PILE, DESK};
ghost use Rattle.book.specs.Refusals.{number_of};
ghost use Rattle.book.specs.Book.{width as width_of, ok_lists, ok_copy, valid, take_number, answer};
ghost use Rattle.block.specs.Block.{area, list_of, lists_of, Counted, block_before};
ghost use Rattle.desk.specs.Desk.{block, Ready, Sound, taken, emptied, at0, laid, unlaid, book_of, seen_of, sized};
ghost use Rattle.desk.specs.Desk.{entry_of, out_words, back_words};
ghost use Rattle.book.specs.Entries.{before, copies};
ghost use Rattle.desk.specs.Calls.{Call, does, number, words};

use book::{Kind, Refusal};

pub const NEXT: usize = 1 + block::BLOCK;

pub const ENTRY: usize = 2 + book::BOX;

pub const PILE: usize = book::COPIES as usize * ENTRY;

pub const LATER: usize = PILE - ENTRY;

// An undo entry's first word is the kind of an added record, or this more than the kind of a retired one.
const KINDS: u32 = 4;

pub const DESK: usize = NEXT + PILE;

// Adds a record without an undo entry, as reading a text does.
pub fn take_record(desk: &mut [u32], kind: Kind, row: &[u32]) -> Result<(), Refusal>
    requires ready { Ready desk.old }
    requires row_len { length row.now ≡ width_of kind }
    ensures value { number_of result ≡ take_number kind row.now (lists_of (block desk.old)) }
    ensures desk_after { desk.new ≡ at0 (number_of result) (taken kind row.now desk.old) desk.old }
{
    block::check_add(&desk[1..NEXT], kind, row)?;
    block::put_record(&mut desk[1..NEXT], kind, row);
    Ok(())
}

// Empties the lists and the pile. (Five stores are no longer than a loop over the kinds.)
#[tactic(auto, unfolding(crate::specs::Desk::emptied))]
pub fn empty(desk: &mut [u32])
    requires { DESK ≤ length desk.old }
    ensures { desk.new ≡ emptied desk.old }
{
    desk[0] = 0;
    desk[1] = 0;
    desk[1 + block::PORTS_AT] = 0;
    desk[1 + block::NETS_AT] = 0;
    desk[1 + block::ENDS_AT] = 0;
}

// Lays an entry on the pile.
fn lay(desk: &mut [u32], entry: &[u32; ENTRY])
    requires { DESK ≤ length desk.old }
    ensures { desk.new ≡ laid entry.now desk.old }
{
    let depth = desk[0].saturating_add(1).min(book::COPIES);
    desk.copy_within(NEXT..NEXT + LATER, NEXT + ENTRY);
    desk[NEXT..NEXT + ENTRY].copy_from_slice(entry);
    desk[0] = depth;
}

// Takes the latest entry off.
fn unlay(desk: &mut [u32])
    requires { (DESK ≤ length desk.old) × (0 < get_or desk.old 0 0) }
    ensures { desk.new ≡ unlaid desk.old }
{
    desk.copy_within(NEXT + ENTRY..DESK, NEXT);
    desk[0] -= 1;
}

// Undoes a change, if the entry applies and leaves a valid set of lists.
fn take_entry(blk: &mut [u32], entry: &[u32]) -> bool
    requires { (length blk.old ≡ BLOCK) × (ok_lists (lists_of blk.old) ≡ true) × (length entry.now ≡ ENTRY) }
    ensures value { result ≡ ok_lists (before (entry_of entry.now) (lists_of blk.old)) }
    ensures blk_after { result ≡ true → blk.new ≡ block_before (entry_of entry.now) blk.old }
{
    let word = entry[0];
    if let Ok(kind) = Kind::try_from(word) {
        return block::take_out(blk, kind);
    }
    if let Ok(kind) = Kind::try_from(word - KINDS) {
        return block::put_back(blk, kind, entry[1] as usize, &entry[2..2 + kind.width()]);
    }
    false
}

// Whether the entries, taken in turn, apply and leave valid sets of lists. The block is scratch.
fn ok_entries(pile: &[u32], depth: usize, blk: &mut [u32]) -> bool
    requires { (length pile.now ≡ PILE) × (depth ≤ COPIES) × (length blk.old ≡ BLOCK) × (ok_lists (lists_of blk.old) ≡ true) }
    ensures { result ≡ scan ok_copy (copies (map entry_of (rows_of ENTRY depth pile.now)) (lists_of blk.old)) }
{
    for k in 0..depth {
        let a = k * ENTRY;
        if !take_entry(blk, &pile[a..a + ENTRY]) {
            return false;
        }
    }
    true
}

// Whether the words are a desk: the lists now, and on a copy of them the entries.
fn ok_desk(desk: &[u32]) -> bool
    requires { DESK ≤ length desk.now }
    ensures { result ≡ valid (book_of desk.now) }
{
    let depth = desk[0] as usize;
    if depth > book::COPIES as usize {
        return false;
    }
    if !block::ok_block(&desk[1..NEXT]) {
        return false;
    }
    let mut blk = [0; block::BLOCK];
    blk.copy_from_slice(&desk[1..NEXT]);
    ok_entries(&desk[NEXT..DESK], depth, &mut blk)
}

// What every call but reading tests first.
pub fn validate(desk: &[u32]) -> Result<(), Refusal>
    ensures { number_of result ≡ sized desk.now (answer (seen_of desk.now).sound 0 0) }
{
    if desk.len() < DESK {
        return Err(Refusal::TooShort);
    }
    if !ok_desk(desk) {
        return Err(Refusal::OutOfRange);
    }
    Ok(())
}

// Lays the entry of an addition.
fn lay_added(desk: &mut [u32], kind: Kind)
    requires { DESK ≤ length desk.old }
    ensures { desk.new ≡ laid (out_words kind) desk.old }
{
    let mut entry = [0; ENTRY];
    entry[0] = u32::from(kind);
    lay(desk, &entry);
}

// Lays the entry of the retirement of record i.
fn lay_retired(desk: &mut [u32], kind: Kind, i: usize)
    requires in_bounds { DESK ≤ length desk.old }
    requires counted { Counted (block desk.old) }
    requires i_bound { i < count (area kind (block desk.old)) }
    ensures { desk.new ≡ laid (back_words kind i (get_or (list_of kind (block desk.old)) i [])) desk.old }
{
    let mut entry = [0; ENTRY];
    entry[0] = KINDS + u32::from(kind);
    entry[1] = i as u32;
    let w = kind.width();
    let a = 2 + block::area_at(kind) + i * w;
    entry[2..2 + w].copy_from_slice(&desk[a..a + w]);
    lay(desk, &entry);
}

// Takes the latest entry, and undoes its change.
fn take_latest(desk: &mut [u32])
    requires sound { Sound desk.old }
    requires nonzero { 0 < get_or desk.old 0 0 }
    ensures { desk.new ≡ does Call.undo desk.old }
{
    let mut entry = [0; ENTRY];
    entry.copy_from_slice(&desk[NEXT..NEXT + ENTRY]);
    unlay(desk);
    take_entry(&mut desk[1..NEXT], &entry);
}

// An addition.
pub fn add(desk: &mut [u32], kind: Kind, row: &[u32]) -> Result<(), Refusal>
    requires { length row.now ≡ width_of kind }
    ensures value { number_of result ≡ number (Call.add kind row.now) desk.old }
    ensures desk_after { desk.new ≡ words (Call.add kind row.now) desk.old }
{
    validate(desk)?;
    block::check_add(&desk[1..NEXT], kind, row)?;
    lay_added(desk, kind);
    block::put_record(&mut desk[1..NEXT], kind, row);
    Ok(())
}

// A retirement.
pub fn retire(desk: &mut [u32], kind: Kind, name: u32) -> Result<(), Refusal>
    ensures value { number_of result ≡ number (Call.retire kind name) desk.old }
    ensures desk_after { desk.new ≡ words (Call.retire kind name) desk.old }
{
    validate(desk)?;
    block::check_retire(&desk[1..NEXT], kind, name)?;
    let i = block::spot(&desk[1..NEXT], kind, name);
    lay_retired(desk, kind, i);
    block::cut_record(&mut desk[1..NEXT], kind, i);
    Ok(())
}

// Undoes the latest change.
pub fn undo(desk: &mut [u32]) -> Result<(), Refusal>
    ensures value { number_of result ≡ number Call.undo desk.old }
    ensures desk_after { desk.new ≡ words Call.undo desk.old }
{
    validate(desk)?;
    let depth = desk[0];
    if depth == 0 {
        return Err(Refusal::NothingToUndo);
    }
    take_latest(desk);
    Ok(())
}
