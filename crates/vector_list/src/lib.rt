// Reads lists of bytes, and the fixed list of answers: lines of fields parted by tabs, with sections of counted bytes between them.
#![tactic(auto)]

ghost use Rattle.std.specs.Prelude.{◌≡◌, ◌+◌, ◌≤◌, IfSome, length};
ghost use Rattle.std.specs.Io.{ReadsAtMost};
ghost use Rattle.vector_list.specs.Words.{unsigned, signed};

use std::io;
use std::io::Read;

// The size of a list at most.
pub const LIST: usize = 2097152;

const BASE: u64 = decimals::BASE;

const BIAS: u64 = decimals::BIAS as u64;

// Room for a list.
pub fn room() -> [u8; LIST]
    ensures { 2097152 ≡ length result }
{
    [0; LIST]
}

// Reads bytes until the room is full or the input ends; returns how many. Each turn reads a byte at least, so that there are turns enough.
pub fn read_list<R: Read>(input: &mut R, room: &mut [u8]) -> io::Result<usize>
    ensures { ReadsAtMost result room.new }
{
    let mut n = 0;
    for _ in 0..room.len() {
        let read = input.read(&mut room[n..])?;
        if read == 0 {
            break;
        }
        n += read;
    }
    Ok(n)
}

// A field: its number's word (`decimals::BASE` above the number), if it is one, and the place behind it and its separator.
#[derive(Clone, Copy, Debug, PartialEq, Eq)]
pub struct Entry {
    pub word: Option<u64>,
    pub next: usize,
}

// The place of the first tab or LF from `at` on, or the length.
pub fn field_end(list: &[u8], at: usize) -> usize
    requires { at ≤ length list.now }
    ensures { (at ≤ result) × (result ≤ length list.now) }
{
    let rest = &list[at..];
    let end = rest
        .iter()
        .position(|b| *b == decimals::TAB || *b == decimals::LF);
    at + end.unwrap_or(rest.len())
}

// The place behind the separator at e.
fn behind(list: &[u8], e: usize) -> usize
    requires { e ≤ length list.now }
    ensures { (e ≤ result) × (result ≤ length list.now) }
{
    if e < list.len() { e + 1 } else { e }
}

// The field at `at`.
pub fn field(list: &[u8], at: usize) -> Entry
    requires { at ≤ length list.now }
    ensures { (at ≤ result.next) × (result.next ≤ length list.now) }
{
    let e = field_end(list, at);
    Entry {
        word: decimals::read_number(&list[at..e]),
        next: behind(list, e),
    }
}

// A word's number, if there is one that is not negative; else the greatest word. This and the next are no `From`: the types are std's.
pub fn unsigned(word: Option<u64>) -> u32
    ensures { result ≡ unsigned word }
{
    match word {
        Some(word) if BASE <= word => ((word - BASE) % BASE) as u32,
        _ => u32::MAX,
    }
}

// A word's number as a coordinate, or 0 where there is none.
pub fn signed(word: Option<u64>) -> i32
    ensures { result ≡ signed word }
{
    let steps = word.unwrap_or(0) % BASE + BIAS;
    fixed::down((steps % BASE) as u32)
}

// Whether the field at `at` is these bytes.
pub fn is_word(list: &[u8], at: usize, word: &[u8]) -> bool
    requires { at ≤ length list.now }
{
    let e = field_end(list, at);
    &list[at..e] == word
}

// The place behind the next LF.
pub fn next_line(list: &[u8], at: usize) -> usize
    requires { at ≤ length list.now }
    ensures { (at ≤ result) × (result ≤ length list.now) }
{
    behind(list, decimals::find(list, at, decimals::LF))
}

// Whether the field at `at` has this word: the place behind it then.
fn word_is(list: &[u8], at: usize, word: u64) -> Option<usize>
    requires { at ≤ length list.now }
    ensures { IfSome result (λ next. (at ≤ next) × (next ≤ length list.now)) }
{
    let f = field(list, at);
    if f.word == Some(word) {
        Some(f.next)
    } else {
        None
    }
}

// Whether the field at `at` is the number v: the place behind it then.
pub fn number_is(list: &[u8], at: usize, v: u32) -> Option<usize>
    requires { at ≤ length list.now }
    ensures { IfSome result (λ next. (at ≤ next) × (next ≤ length list.now)) }
{
    word_is(list, at, BASE + v as u64)
}

// Whether the field at `at` is the coordinate u, counted from -2^31: the place behind it then.
pub fn step_is(list: &[u8], at: usize, u: u32) -> Option<usize>
    requires { at ≤ length list.now }
    ensures { IfSome result (λ next. (at ≤ next) × (next ≤ length list.now)) }
{
    word_is(list, at, BASE - BIAS + u as u64)
}

// Whether the field at `at` is the byte b: the place behind it then.
pub fn byte_is(list: &[u8], at: usize, b: u8) -> Option<usize>
    requires { at ≤ length list.now }
    ensures { IfSome result (λ next. (at ≤ next) × (next ≤ length list.now)) }
{
    if !is_word(list, at, &[b]) {
        return None;
    }
    Some(field(list, at).next)
}
