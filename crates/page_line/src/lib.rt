// A line of a page text as a record: its kind, and its fields as a row of words.
#![tactic(auto)]

ghost use Rattle.std.specs.Prelude.{◌≡◌, ◌≤◌, IfSome, length, take};
ghost use Rattle.decimals.specs.Bytes.{TAB, split};
ghost use Rattle.decimals.specs.Write.{written};
ghost use Rattle.page_line.specs.Fields.{MOST, count_of, id_word, row_of, small_word, step_word, values, word as word_of};
ghost use Rattle.page_line.specs.Records.{ROW, Told, kind_of, line_of, sorts};
ghost use Rattle.page_line.specs.Lines.{line_at};

use book::Kind;

const BASE: u64 = decimals::BASE;

const BIAS: u64 = decimals::BIAS as u64;

// A word that is out of range.
const OUT: u32 = u32::MAX;

// The most fields that a line is read for.
const MOST: usize = 12;

// The words of the longest row.
pub const ROW: usize = 5;

// The longest line, its LF included.
pub const LINE: usize = 96;

// What a field is: an id, a coordinate in steps, or a small number (directions, a mark).
#[derive(Clone, Copy, Debug, PartialEq, Eq)]
pub enum Sort {
    Ident,
    Step,
    Small,
}

// The values of the fields of `s`: how many there are, if all are plain decimals and there is room for them. (`enumerate` would not hand on how many.)
fn read_fields(s: &[u8], vals: &mut [u64; MOST]) -> Option<usize>
    ensures value { result ≡ count_of (split TAB s.now) }
    ensures vals_after { IfSome result (λ n. take n vals.new ≡ values (split TAB s.now)) }
{
    let mut n = 0;
    for field in s.split(|b| *b == decimals::TAB) {
        if n == MOST {
            return None;
        }
        vals[n] = decimals::read_number(field)?;
        n += 1;
    }
    Some(n)
}

// A value as an id.
#[tactic(auto, unfolding(crate::specs::Fields::id_word))]
fn id_word(v: u64) -> u32
    ensures { result ≡ id_word v }
{
    u32::try_from(v.saturating_sub(BASE)).unwrap_or(0)
}

// A value as a coordinate, in steps above -2^31.
#[tactic(auto, unfolding(crate::specs::Fields::step_word))]
fn step_word(v: u64) -> u32
    ensures { result ≡ step_word v }
{
    u32::try_from(v.saturating_sub(BIAS)).unwrap_or(OUT)
}

// A value as directions or a mark.
#[tactic(auto, unfolding(crate::specs::Fields::small_word))]
fn small_word(v: u64) -> u32
    ensures { result ≡ small_word v }
{
    if v < BASE {
        return OUT;
    }
    u32::try_from(v - BASE).unwrap_or(OUT)
}

impl Sort {
    // A value as the word of its field's sort.
    #[tactic(auto, unfolding(crate::specs::Fields::word))]
    fn word(self, v: u64) -> u32
        ensures { result ≡ word_of self v }
    {
        match self {
            Sort::Ident => id_word(v),
            Sort::Step => step_word(v),
            Sort::Small => small_word(v),
        }
    }
}

// The fields of a kind.
fn sorts(kind: Kind) -> &'static [Sort]
    ensures { result.now ≡ sorts kind }
{
    match kind {
        Kind::Box => &[Sort::Ident, Sort::Step, Sort::Step, Sort::Step, Sort::Step],
        Kind::Port | Kind::End => &[Sort::Ident, Sort::Step, Sort::Step, Sort::Small],
        Kind::Net => &[Sort::Ident],
    }
}

// Writes the row of a record whose fields have these values.
fn fill(kind: Kind, vals: &[u64], row: &mut [u32])
    requires { (length vals.now ≡ length (sorts kind)) × (ROW ≤ length row.old) }
    ensures { row.new ≡ written row.old 0 (row_of (sorts kind) vals.now) }
{
    let sorts = sorts(kind);
    for i in 0..vals.len() {
        row[i] = sorts[i].word(vals[i]);
    }
}

// The kind that a word names. It is no `TryFrom`: the kind is of `book`, the word of std.
#[tactic(auto, unfolding(crate::specs::Records::kind_of, decimals::specs::Bytes::same))]
fn kind_of(word: &[u8]) -> Option<Kind>
    ensures { result ≡ kind_of word.now }
{
    match word {
        b"box" => Some(Kind::Box),
        b"port" => Some(Kind::Port),
        b"net" => Some(Kind::Net),
        b"end" => Some(Kind::End),
        _ => None,
    }
}

// A line's bytes before its LF, as a record.
pub fn read_line(body: &[u8], row: &mut [u32]) -> Option<Kind>
    requires { ROW ≤ length row.old }
    ensures { Told (line_of body.now) row.old row.new result }
{
    let e = decimals::find(body, 0, decimals::TAB);
    if e == body.len() {
        return None;
    }
    let kind = kind_of(&body[..e])?;
    let mut vals = [0; MOST];
    let n = read_fields(&body[e + 1..], &mut vals)?;
    if n != kind.width() {
        return None;
    }
    fill(kind, &vals[..n], row);
    Some(kind)
}

// The line from `at` to the LF at `e`; none if it is no record, there is no LF or the line is too long.
pub fn line_at(text: &[u8], at: usize, e: usize, row: &mut [u32]) -> Option<Kind>
    requires { (at ≤ e) × (e ≤ length text.now) × (ROW ≤ length row.old) }
    ensures { Told (line_at text.now at e) row.old row.new result }
{
    if e == text.len() || LINE <= e - at {
        return None;
    }
    read_line(&text[at..e], row)
}
