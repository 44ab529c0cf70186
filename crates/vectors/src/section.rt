// The list's sections: a header line, and after it as many bytes as its last field says.
ghost use Rattle.std.specs.Prelude.{◌<◌, length};

use crate::fields::Fields;
use decimals::TAB;
use std::io;

// A section: the list from its header on, the header's line with its LF, and the bytes that follow.
#[derive(Clone, Copy, Debug, PartialEq, Eq)]
pub struct Section<'a> {
    list: &'a [u8],
    pub header: &'a [u8],
    pub bytes: &'a [u8],
}

impl<'a> Section<'a> {
    // The header's first field: what the section is.
    pub fn word(&self) -> &'a [u8] {
        Fields::of(self.list).next()
    }

    // The header's fields behind the first; where it has too few, the next lines' follow.
    pub fn fields(&self) -> Fields<'a> {
        let mut fields = Fields::of(self.list);
        fields.next();
        fields
    }

    // Tells that the section differs, with the word and the name of its page.
    pub fn tell(&self, rt: &impl Print, page: &Section) -> io::Result<()> {
        let mut fields = Fields::of(page.list);
        rt.write_all(fields.next())?;
        print!(rt; " ")?;
        rt.write_all(fields.next())?;
        print!(rt; " differs: ")?;
        rt.write_all(self.header)
    }
}

// How many bytes follow a header.
fn bytes_behind(header: &[u8]) -> usize {
    if matches!(Fields::of(header).next(), b"counts") {
        return 0;
    }
    let last = header.iter().rposition(|b| *b == TAB);
    let start = last.map_or(0, |tab| tab + 1);
    Fields::of(&header[start..]).unsigned() as usize
}

// The first section of a list, and the rest.
pub fn split(list: &[u8]) -> (Section, &[u8])
    requires { 0 < length list.now }
    ensures { length result.1.now < length list.now }
{
    let header = &list[..vector_list::next_line(list, 0)];
    // Behind an empty header a line is passed over.
    let behind = &list[vector_list::next_line(list, 1)..];
    let (bytes, rest) = behind.split_at(bytes_behind(header).min(behind.len()));
    let section = Section {
        list,
        header,
        bytes,
    };
    (section, rest)
}
