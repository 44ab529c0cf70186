// Replays a fixed list of calls on a desk, given on standard input, and compares each number, each refused line and the surviving records. Between
// calls the list may set words of the desk.
#![tactic(auto)]

ghost use Rattle.std.specs.Prelude.{◌+◌, ◌<◌, ◌≤◌, length};
ghost use Rattle.desk.specs.Sizes.{DESK};

use book::{Kind, number_of};
use std::io;
use vector_list::{signed, unsigned};

// The number of a line that says no call.
const NO_CALL: u32 = 99;

// A line of the list: its word, the six fields behind it as words, the number in its last field, and the text that follows it.
#[derive(Clone, Copy, Debug, PartialEq, Eq)]
struct Line<'a> {
    word: &'a [u8],
    fields: [Option<u64>; 6],
    number: Option<u32>,
    text: &'a [u8],
}

// The six fields from `at` on.
fn fields(list: &[u8], at: usize) -> [Option<u64>; 6]
    requires { at ≤ length list.now }
{
    let mut words = [None; 6];
    let mut next = at;
    for word in &mut words {
        let field = vector_list::field(list, next);
        *word = field.word;
        next = field.next;
    }
    words
}

// The number in the last field of the line at `at`, if an LF ends the line and it has at most eight fields.
fn last_number(list: &[u8], at: usize) -> Option<u32>
    requires { at ≤ length list.now }
{
    let mut next = at;
    for _ in 0..8 {
        let field = vector_list::field(list, next);
        if list.get(vector_list::field_end(list, next)) == Some(&b'\n') {
            return Some(unsigned(field.word));
        }
        next = field.next;
    }
    None
}

// The line at `at`, and the place behind it and its text.
fn read_line<'a>(list: &'a [u8], at: usize) -> (Line<'a>, usize)
    requires { at ≤ length list.now }
    ensures { result.1 ≤ length list.now }
{
    let word = &list[at..vector_list::field_end(list, at)];
    let fields = fields(list, vector_list::field(list, at).next);
    let start = vector_list::next_line(list, at);
    let bytes = match word {
        b"text" | b"lists" => unsigned(fields[0]) as usize,
        _ => 0,
    };
    let end = start.saturating_add(bytes).min(list.len());
    let line = Line {
        word,
        fields,
        number: last_number(list, at),
        text: &list[start..end],
    };
    (line, end)
}

// Makes the call that a line says; whether it answers the number in the line's last field.
fn call(desk: &mut [u32], line: &Line) -> bool {
    let f = line.fields;
    let id = unsigned(f[0]);
    let (x, y, last) = (signed(f[1]), signed(f[2]), unsigned(f[3]));
    let done = match line.word {
        b"box" => clue_desk::add_box(desk, id, x, y, signed(f[3]), signed(f[4])),
        b"port" => clue_desk::add_port(desk, id, x, y, last),
        b"net" => clue_desk::add_net(desk, id),
        b"end" => clue_desk::add_end(desk, id, x, y, last),
        b"rbox" => clue_desk::retire_box(desk, id),
        b"rport" => clue_desk::retire_port(desk, id),
        b"rnet" => clue_desk::retire_net(desk, id),
        b"rend" => clue_desk::retire_end(desk, id),
        b"undo" => clue_desk::undo(desk),
        _ => return line.number == Some(NO_CALL),
    };
    line.number == Some(number_of(done))
}

// Whether two desks hold the same records of a kind: the same count, and the same rows.
fn same_records(a: &[u32], b: &[u32], kind: Kind) -> bool
    requires { (DESK ≤ length a.now) × (DESK ≤ length b.now) }
{
    let at = 1 + block::area_at(kind);
    let count = a[at] as usize;
    if count > kind.most() {
        return false;
    }
    let end = at + 1 + count * kind.width();
    a[at..end] == b[at..end]
}

// What the list is replayed on: a desk, another one for the texts of surviving records, and the words of a refusal.
#[derive(Debug, PartialEq, Eq, Drop)]
struct Desks {
    desk: [u32; desk::DESK],
    other: [u32; desk::DESK],
    refusal: [u32; page_text::REFUSAL],
}

impl Desks {
    // Reads the text behind a line, and compares the number, the line and the inner number.
    fn reads(&mut self, line: &Line) -> bool {
        let done = clue_desk::read_text(&mut self.desk, line.text, &mut self.refusal);
        number_of(done) == unsigned(line.fields[1])
            && self.refusal[0] == unsigned(line.fields[2])
            && self.refusal[1] == unsigned(line.fields[3])
    }

    // Compares the surviving records with the page text behind a line, read onto the other desk.
    fn survive(&mut self, line: &Line) -> bool {
        clue_desk::read_text(&mut self.other, line.text, &mut self.refusal).is_ok()
            && same_records(&self.desk, &self.other, Kind::Box)
            && same_records(&self.desk, &self.other, Kind::Port)
            && same_records(&self.desk, &self.other, Kind::Net)
            && same_records(&self.desk, &self.other, Kind::End)
    }

    // Sets the word of the desk that a line says, if there is one.
    fn set_word(&mut self, line: &Line) -> bool {
        match self.desk.get_mut(unsigned(line.fields[0]) as usize) {
            Some(word) => {
                *word = unsigned(line.fields[1]);
                true
            }
            None => false,
        }
    }

    // Replays a line; whether all was as the line says.
    fn replay(&mut self, line: &Line) -> bool {
        match line.word {
            b"new" => {
                desk::empty(&mut self.desk);
                true
            }
            b"text" => self.reads(line),
            b"lists" => self.survive(line),
            b"word" => self.set_word(line),
            _ => call(&mut self.desk, line),
        }
    }
}

fn main(rt: HostRuntime) -> io::Result<()> {
    let mut room = vector_list::room();
    let n = vector_list::read_list(&mut rt.stdin(), &mut room)?;
    let list = &room[..n];
    let mut desks = Desks {
        desk: [0; desk::DESK],
        other: [0; desk::DESK],
        refusal: [0; page_text::REFUSAL],
    };
    let mut calls: usize = 0;
    let mut wrong: usize = 0;
    let mut at = 0;
    // A line takes a byte at least, so that there are turns enough.
    for _ in 0..list.len() {
        if at == list.len() {
            break;
        }
        let (line, next) = read_line(list, at);
        calls += 1;
        if !desks.replay(&line) {
            wrong += 1;
        }
        at = next;
    }
    println!(rt; "{calls} lines replayed, {wrong} differ")
}
