// Replays the oracle's fixed list of pages, pages.txt, and compares what the crates answer with it, section by section.
// docs/ORACLE.md has the list's form.
#![tactic(auto)]

mod dump;
mod fields;
mod page;
mod query;
mod section;
mod tally;

use page::Desk;
use section::Section;
use std::{fs, io};
use tally::Tally;

// The page that was read last, before which the list's first section stands for it; whether its text was refused, and the desk with its records; and what was
// counted.
#[derive(Debug, PartialEq, Eq, Drop)]
struct Replay<'a> {
    page: Option<Section<'a>>,
    refused: bool,
    desk: Desk,
    tally: Tally,
}

impl<'a> Replay<'a> {
    // Reads a page.
    fn read(&mut self, page: Section<'a>) {
        let mut refusal = [0; page_text::REFUSAL];
        let read = page_text::read_text(&mut self.desk, page.bytes, &mut refusal);
        self.page = Some(page);
        self.refused = read.is_err();
        self.tally.pages = self.tally.pages.saturating_add(1);
    }

    // Compares another section with the page; whether it does not differ.
    fn compare(&mut self, page: &Section, section: &Section) -> bool {
        let (desk, tally) = (&self.desk, &mut self.tally);
        let (header, bytes) = (section.fields(), section.bytes);
        if self.refused {
            return tally.refused.note(page::listing(page.bytes, header, bytes));
        }
        match section.word() {
            b"anchors" => tally.anchor_lists.note(page::anchors(desk, bytes)),
            b"graph" => tally.graphs.note(page::graph(desk, header, bytes)),
            b"counts" => tally.counts.note(page::counts(desk, header)),
            b"search" => tally.searches.note(query::search(desk, header, bytes)),
            b"wires" => tally
                .listings
                .note(page::listing(page.bytes, header, bytes)),
            _ => {
                tally.passed = tally.passed.saturating_add(1);
                true
            }
        }
    }

    // Reads a page, or compares another section; one that differs is told with its page.
    fn replay(&mut self, rt: &impl Print, section: Section<'a>) -> io::Result<()> {
        if matches!(section.word(), b"page") {
            self.read(section);
            return Ok(());
        }
        let page = self.page.unwrap_or(section);
        self.page = Some(page);
        if !self.compare(&page, &section) {
            self.tally.wrong = self.tally.wrong.saturating_add(1);
            section.tell(rt, &page)?;
        }
        Ok(())
    }
}

fn main(rt: HostRuntime) -> io::Result<()> {
    let mut room = vector_list::room();
    let n = vector_list::read_list(&mut fs::open(&rt, "pages.txt")?, &mut room)?;
    let mut rest = &room[..n];
    let mut replay = Replay {
        page: None,
        refused: false,
        desk: [0; desk::DESK],
        tally: Tally::default(),
    };
    // A section says how long it is: no range counts so.
    while !rest.is_empty() {
        let (section, behind) = section::split(rest);
        replay.replay(&rt, section)?;
        rest = behind;
    }
    rt.print(replay.tally)
}
