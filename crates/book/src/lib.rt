// What the clue desk keeps of 01: the kinds of records and the limits. The definitions and their laws are in specs/ and proofs/; the few functions here are those of a kind and of a refusal.
#![tactic(auto)]

ghost use Rattle.std.specs.Prelude.{◌≡◌};
ghost use Rattle.book.specs.Book.{width as width_of, most as most_of};
ghost use Rattle.book.specs.Kinds.{tag, Decodes};
ghost use Rattle.book.specs.Refusals.{number_of};

pub const IDS: u32 = 4294967295;

pub const COPIES: u32 = 32;

pub const BOX: usize = 5;

pub const PORT: usize = 4;

pub const NET: usize = 1;

pub const END: usize = 4;

pub const BOXES: usize = 64;

pub const PORTS: usize = 256;

pub const NETS: usize = 64;

pub const ENDS: usize = 256;

// A kind of record.
#[derive(Clone, Copy, Debug, PartialEq, Eq)]
pub enum Kind {
    Box,
    Port,
    Net,
    End,
}

impl Kind {
    // The words of a row.
    pub fn width(self) -> usize
        ensures { result ≡ width_of self }
    {
        match self {
            Kind::Box => BOX,
            Kind::Port => PORT,
            Kind::Net => NET,
            Kind::End => END,
        }
    }

    // The most records of a kind.
    pub fn most(self) -> usize
        ensures { result ≡ most_of self }
    {
        match self {
            Kind::Box => BOXES,
            Kind::Port => PORTS,
            Kind::Net => NETS,
            Kind::End => ENDS,
        }
    }
}

// A kind as a word.
impl From<Kind> for u32 {
    ghost from_gives = { λ kind n. n ≡ tag kind };

    fn from(kind: Kind) -> u32 {
        match kind {
            Kind::Box => 0,
            Kind::Port => 1,
            Kind::Net => 2,
            Kind::End => 3,
        }
    }
}

// A word that stands for no kind.
#[derive(Clone, Copy, Debug, PartialEq, Eq)]
pub struct UnknownKind(pub u32);

impl TryFrom<u32> for Kind {
    type Error = UnknownKind;

    ghost try_from_gives = { Decodes };

    fn try_from(word: u32) -> Result<Self, UnknownKind> {
        match word {
            0 => Ok(Kind::Box),
            1 => Ok(Kind::Port),
            2 => Ok(Kind::Net),
            3 => Ok(Kind::End),
            _ => Err(UnknownKind(word)),
        }
    }
}

// Why a call is refused. `u32::from` gives the number that is handed back to C.
#[derive(Clone, Copy, Debug, PartialEq, Eq)]
pub enum Refusal {
    // A lent list is too short.
    TooShort,
    // A field is out of range, or the words are no desk.
    OutOfRange,
    // The id is live already.
    Taken,
    // The box, net or place is unknown.
    Unknown,
    // The box has ports, or the net has ends.
    InUse,
    // The list is full.
    Full,
    NothingToUndo,
    // Too many implicit anchors or nodes.
    Crowded,
    // The start is no node.
    NoStart,
    // An end is no node.
    NoEnd,
    NoLine,
    // A net has under two endpoints.
    NotEnoughEndpoints,
    // An endpoint is no node.
    InvalidPoint,
    // A net's line has one node.
    PathTooShort,
    // Too many vertices of a page or ends of a net.
    TooLong,
    // A line of a text is malformed or refused.
    BadText,
}

impl From<Refusal> for u32 {
    ghost use Rattle.std.specs.Prelude.{◌≡◌};
    ghost use Rattle.book.specs.Refusals.{code};

    ghost from_gives = { λ refusal n. n ≡ code refusal };

    fn from(refusal: Refusal) -> u32 {
        match refusal {
            Refusal::TooShort => 1,
            Refusal::OutOfRange => 2,
            Refusal::Taken => 3,
            Refusal::Unknown => 4,
            Refusal::InUse => 5,
            Refusal::Full => 6,
            Refusal::NothingToUndo => 7,
            Refusal::Crowded => 8,
            Refusal::NoStart => 9,
            Refusal::NoEnd => 10,
            Refusal::NoLine => 11,
            Refusal::NotEnoughEndpoints => 12,
            Refusal::InvalidPoint => 13,
            Refusal::PathTooShort => 14,
            Refusal::TooLong => 15,
            Refusal::BadText => 16,
        }
    }
}

// The number that is handed back to C: 0 for a call that is done.
pub fn number_of(done: Result<(), Refusal>) -> u32
    ensures { result ≡ number_of done }
{
    match done {
        Ok(()) => 0,
        Err(refusal) => u32::from(refusal),
    }
}
