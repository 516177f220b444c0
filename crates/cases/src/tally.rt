use std::fmt;

// How many cases of a file were run, and how many of their answers differ. No tally in common with `sources`, which
// adds up comparisons that are counted at their end, of a number that is proved, and says them in other words.
#[derive(Clone, Copy, Default)]
pub(crate) struct Tally {
    cases: u32,
    differ: u32,
}

impl Tally {
    // Another case begins.
    pub(crate) fn begin(&mut self) {
        self.cases = self.cases.saturating_add(1);
    }

    // An answer of the case differs. Says which case it is.
    pub(crate) fn differs(&mut self) -> u32 {
        self.differ = self.differ.saturating_add(1);
        self.cases
    }
}

impl fmt::Display for Tally {
    fn fmt<W: fmt::Write>(&self, f: &mut fmt::Formatter<W>) -> fmt::Result {
        write!(f, "{} cases, {} differ", self.cases, self.differ)
    }
}
