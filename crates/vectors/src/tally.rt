// What is counted.
use std::fmt;

// What a comparison came to: whether all was as it should be, and how many entries were compared.
#[derive(Clone, Copy, Debug, PartialEq, Eq)]
pub struct Verdict {
    pub same: bool,
    pub entries: usize,
}

// How many sections of a kind were compared, and how many entries they have.
#[derive(Clone, Copy, Debug, Default, PartialEq, Eq)]
pub struct Count {
    sections: u64,
    entries: u64,
}

impl Count {
    // Counts a section, with its entries if they could be compared; whether it does not differ.
    pub fn note(&mut self, compared: Option<Verdict>) -> bool {
        self.sections = self.sections.saturating_add(1);
        let Some(verdict) = compared else {
            return false;
        };
        self.entries = self.entries.saturating_add(verdict.entries as u64);
        verdict.same
    }
}

#[derive(Clone, Copy, Debug, Default, PartialEq, Eq)]
pub struct Tally {
    pub pages: u64,
    pub anchor_lists: Count,
    pub graphs: Count,
    pub counts: Count,
    pub searches: Count,
    pub listings: Count,
    pub refused: Count,
    pub passed: u64,
    pub wrong: u64,
}

impl fmt::Display for Tally {
    fn fmt<W: fmt::Write>(&self, f: &mut fmt::Formatter<W>) -> fmt::Result {
        let (lists, graphs) = (self.anchor_lists, self.graphs);
        let (searches, listings, refused) = (self.searches, self.listings, self.refused);
        writeln!(f, "{} pages read", self.pages)?;
        writeln!(
            f,
            "{} lists of implicit anchors compared, with {} anchors",
            lists.sections, lists.entries
        )?;
        writeln!(
            f,
            "{} graphs compared, with {} nodes",
            graphs.sections, graphs.entries
        )?;
        writeln!(
            f,
            "{} counts of anchors and nodes compared",
            self.counts.sections
        )?;
        writeln!(
            f,
            "{} searches compared, with {} nodes",
            searches.sections, searches.entries
        )?;
        writeln!(
            f,
            "{} listings compared, with {} bytes",
            listings.sections, listings.entries
        )?;
        writeln!(
            f,
            "{} refused texts compared, with {} bytes",
            refused.sections, refused.entries
        )?;
        writeln!(f, "{} sections passed over", self.passed)?;
        writeln!(f, "{} sections differ", self.wrong)
    }
}
