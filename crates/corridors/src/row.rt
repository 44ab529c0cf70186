// The empty runs of a row of cells.
ghost use Rattle.std.specs.Prelude.{◌≤◌, length};
ghost use Rattle.corridors.specs.declared.row.TheConstants.{CELLS};

// The most cells of a row.
pub const CELLS: usize = 127;

// The most empty runs of a row.
const RUNS: usize = 64;

// The cells from the first to before the end.
#[derive(Clone, Copy, Debug, PartialEq, Eq)]
pub struct Run {
    pub start: u8,
    pub end: u8,
    pub ghost within: { end ≤ CELLS },
}

// The first `count` are the runs of a row. No heap: an array and a count.
#[derive(Clone, Copy, Debug, PartialEq, Eq)]
pub struct Row {
    pub count: usize,
    pub runs: [Run; RUNS],
    pub ghost few: { count ≤ length runs },
}

impl Row {
    ghost use Rattle.std.specs.Prelude.{◌≡◌, ◌<◌, position, take};
    ghost use Rattle.corridors.specs.Grid.{add_cell, cells};
    ghost use Rattle.corridors.specs.Merge.{has};
    ghost use Rattle.corridors.specs.Lent.{same, row, run, removed, listed};

    // A row with no runs.
    pub const EMPTY: Row = Row {
        count: 0,
        runs: [Run { start: 0, end: 0 }; RUNS],
    };

    // The runs.
    pub fn runs(&self) -> &[Run]
        ensures { result.now ≡ take self.now.count self.now.runs }
    {
        &self.runs[..self.count]
    }

    // The first place of the run v.
    fn find(&self, v: Run) -> Option<usize>
        ensures { result ≡ position (λ r. same r v) (take self.now.count self.now.runs) }
    {
        self.runs[..self.count].iter().position(|r| *r == v)
    }

    // Takes the run v out, the last run filling the hole. Whether it was there.
    #[tactic(auto, using(crate::proofs::Rows::taking))]
    pub fn remove(&mut self, v: Run) -> bool
        ensures value { result ≡ has (row self.old) (run v) }
        ensures changed { row self.new ≡ removed (row self.old) (run v) }
    {
        match self.find(v) {
            Some(f) => {
                self.count -= 1;
                self.runs[f] = self.runs[self.count];
                true
            }
            None => false,
        }
    }

    // The empty cell k lengthens the last run, or begins one.
    #[tactic(auto, using(crate::proofs::Rows::adding))]
    fn add_cell(&mut self, k: u8)
        requires { (k < CELLS) × (self.old.count < RUNS) }
        ensures { row self.new ≡ add_cell (row self.old) k }
    {
        if self.count > 0 {
            let last = self.runs[self.count - 1];
            if last.end == k {
                self.runs[self.count - 1] = Run {
                    start: last.start,
                    end: k + 1,
                };
                return;
            }
        }
        self.runs[self.count] = Run {
            start: k,
            end: k + 1,
        };
        self.count += 1;
    }

    // The empty runs of the cells that are not marked.
    #[tactic(auto, using(crate::proofs::Filling::listing))]
    pub fn list_runs(&mut self, marks: &[bool])
        requires { length marks.now ≤ CELLS }
        ensures { row self.new ≡ listed marks.now (length marks.now) }
    {
        self.count = 0;
        for (k, filled) in marks.iter().enumerate() {
            if !*filled {
                self.add_cell(k as u8);
            }
        }
    }
}
