// Reading a page text onto a desk.
#![tactic(auto)]

ghost use Rattle.std.specs.Prelude.{◌≡◌, ◌≤◌, ◌<◌, length};
ghost use Rattle.book.specs.Refusals.{number_of};
ghost use Rattle.desk.specs.Sizes.{DESK};
ghost use Rattle.desk.specs.Desk.{Ready, block};
ghost use Rattle.block.specs.Block.{lists_of};
ghost use Rattle.page_line.specs.Lines.{line_at};
ghost use Rattle.page_text.specs.declared.BadLine.TheVariants.{Refused};
ghost use Rattle.page_text.specs.Reading.{read_text, takes};
ghost use Rattle.page_text.specs.Words.{inner_of, leaves, read_number, read_refusal, read_words, step_made, stop_of, text_words};

use book::Refusal;

// The words that tell a refused line.
pub const REFUSAL: usize = 2;

// Why a line does not go: it is no record, or its record is refused.
#[derive(Clone, Copy, Debug, PartialEq, Eq)]
pub enum BadLine {
    Malformed,
    Refused(Refusal),
}

impl From<Refusal> for BadLine {
    ghost from_gives = { λ refusal bad. bad ≡ Refused refusal };

    fn from(refusal: Refusal) -> BadLine {
        BadLine::Refused(refusal)
    }
}

// The inner number.
impl From<BadLine> for u32 {
    ghost from_gives = { λ bad n. n ≡ inner_of bad };

    fn from(bad: BadLine) -> u32 {
        match bad {
            BadLine::Malformed => 0,
            BadLine::Refused(why) => u32::from(why),
        }
    }
}

// Where a text stops: the 1-based line and the inner number, which C is told.
#[derive(Clone, Copy, Debug, PartialEq, Eq)]
pub struct Stop {
    pub line: u32,
    pub inner: u32,
}

// Adds the line from `at` to `e`.
fn take_line(desk: &mut [u32], text: &[u8], at: usize, e: usize) -> Result<(), BadLine>
    requires ready { Ready desk.old }
    requires at_le_e { (at ≤ e) × (e ≤ length text.now) }
    ensures value { step_made result ≡ takes (line_at text.now at e) (lists_of (block desk.old)) }
    ensures desk_after { desk.new ≡ leaves (line_at text.now at e) desk.old }
{
    let mut row = [0; page_line::ROW];
    let Some(kind) = page_line::line_at(text, at, e, &mut row) else {
        return Err(BadLine::Malformed);
    };
    desk::take_record(desk, kind, &row[..kind.width()])?;
    Ok(())
}

// Empties the lists and the pile, then adds the lines of the text; where a line does not go it empties the lists again.
fn read_lines(desk: &mut [u32], text: &[u8]) -> Result<(), Stop>
    requires { DESK ≤ length desk.old }
    ensures value { result ≡ stop_of (read_text text.now) }
    ensures desk_after { desk.new ≡ text_words text.now desk.old }
{
    desk::empty(desk);
    let mut at = 0;
    let mut line = 0;
    // The lines are counted as they are read. `split_inclusive` would hand on each line with its LF, which `line_at` must know to be there: the LF would be looked for twice.
    while at < text.len() {
        line += 1;
        let e = decimals::find(text, at, decimals::LF);
        if let Err(bad) = take_line(desk, text, at, e) {
            desk::empty(desk);
            return Err(Stop {
                line,
                inner: u32::from(bad),
            });
        }
        at = e + 1;
    }
    Ok(())
}

// Reads a page text, unless the desk or the refusal's words are lent too small. A line that does not go is told in the refusal's first two words, its 1-based
// number and the inner number; zeros stand behind them, or in all of them.
pub fn read_text(desk: &mut [u32], text: &[u8], refusal: &mut [u32]) -> Result<(), Refusal>
    ensures value { number_of result ≡ read_number text.now desk.old refusal.old }
    ensures desk_after { desk.new ≡ read_words text.now desk.old refusal.old }
    ensures refusal_after { refusal.new ≡ read_refusal text.now desk.old refusal.old }
{
    // Two tests, in the order of 01's table.
    if desk.len() < desk::DESK {
        return Err(Refusal::TooShort);
    }
    if refusal.len() < REFUSAL {
        return Err(Refusal::TooShort);
    }
    refusal.fill(0);
    if let Err(stop) = read_lines(desk, text) {
        refusal[0] = stop.line;
        refusal[1] = stop.inner;
        return Err(Refusal::BadText);
    }
    Ok(())
}
