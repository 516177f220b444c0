// Cases of an older and a newer description: whether the newer has grown from the older, what is struck of a list of
// the newer's items, and whether the newer's fault lies inside what the older lacks.
use crate::by_line::{description_of, fault_of, item_of};
use crate::tally::Tally;
use anyhow::Context;
use checked::checked::Checked;
use growth::grown::grown;
use growth::striker::Striker;
use rules::items::Item;
use std::alloc::Global;
use std::fs;

// Whose items the lines of a case are.
#[derive(Clone, Copy)]
enum Part {
    Newer,
    Struck,
}

// One case as far as it was read.
#[derive(Drop)]
struct Case {
    older: Option<Checked>,
    newer: Option<Checked>,
    part: Option<Part>,
    striker: Striker,
    // what is left of the newer's items, and how many lines were compared with them
    left: Vec<Item>,
    compared: usize,
    // whether the newer's fault lies inside what the older lacks
    lacks: bool,
}

// Runs the cases of a file, and prints which lines differ and how many there are.
pub(crate) fn run(rt: &HostRuntime, name: &str) -> anyhow::Result<()> {
    let text = fs::read_to_string(rt, name)?;
    let mut case = Case::new(rt.alloc());
    let mut tally = Tally::default();
    for line in text.as_str().lines() {
        if line.starts_with("older ") {
            tally.begin();
        }
        if !case.take(rt.alloc(), line)? {
            let number = tally.differs();
            println!(rt; "{name}, case {number} differs: {line}")?;
        }
    }
    println!(rt; "{name}: {tally}")?;
    Ok(())
}

impl Case {
    fn new(heap: Global) -> Case {
        Case {
            older: None,
            newer: None,
            part: None,
            striker: Striker::new(),
            left: Vec::new(heap),
            compared: 0,
            lacks: false,
        }
    }

    // Takes one line of the case; false where it is an answer, and another one is worked out.
    fn take(&mut self, heap: Global, line: &str) -> anyhow::Result<bool> {
        match line {
            "reading by the newer:" => self.part = Some(Part::Newer),
            "struck:" => self.part = Some(Part::Struck),
            "no fault inside what the older lacks" => return Ok(self.all_compared() && !self.lacks),
            "the fault lies inside what the older lacks" => {
                return Ok(self.all_compared() && self.lacks);
            }
            "reading by the older:" => self.part = None,
            _ => {
                if line.starts_with("older")
                    || line.starts_with("newer")
                    || line.starts_with("grown")
                {
                    return self.described(heap, line);
                }
                return self.listed(heap, line);
            }
        }
        Ok(true)
    }

    // Takes the two descriptions and whether the newer has grown, each after its word.
    fn described(&mut self, heap: Global, line: &str) -> anyhow::Result<bool> {
        let mut same = true;
        let words = line.split_whitespace();
        for (before, word) in words.zip(line.split_whitespace().skip(1)) {
            match before {
                "older" => {
                    let older = description_of(heap, word)?;
                    *self = Case::new(heap);
                    self.older = Some(older);
                }
                "newer" => self.newer = Some(description_of(heap, word)?),
                "grown" => same = (word == "yes") == self.is_grown(),
                _ => {}
            }
        }
        Ok(same)
    }

    fn is_grown(&self) -> bool {
        match (&self.older, &self.newer) {
            (Some(older), Some(newer)) => grown(older, newer),
            _ => false,
        }
    }

    // Takes an item or the fault of the newer's reading, or an item of what is left of it.
    fn listed(&mut self, heap: Global, line: &str) -> anyhow::Result<bool> {
        match self.part {
            None => Ok(true),
            Some(Part::Newer) => {
                self.newer_line(heap, line)?;
                Ok(true)
            }
            Some(Part::Struck) => {
                let item = item_of(heap, line)?;
                let at = self.compared;
                self.compared = at.saturating_add(1);
                Ok(self.left.get(at) == Some(&item))
            }
        }
    }

    // Strikes an item of the newer's, or asks about its fault.
    fn newer_line(&mut self, heap: Global, line: &str) -> anyhow::Result<()> {
        let older = self
            .older
            .as_ref()
            .context("a case without an older description")?;
        if line == "end" {
            return Ok(());
        }
        if let Some(fault) = line.strip_prefix("refused ") {
            self.lacks = self.striker.lacks(older.tables(), fault_of(heap, fault)?);
            return Ok(());
        }
        if let Some(item) = self.striker.take(older.tables(), item_of(heap, line)?) {
            self.left.push(item)?;
        }
        Ok(())
    }

    // Whether as many lines were compared as items are left.
    fn all_compared(&self) -> bool {
        self.compared == self.left.len()
    }
}
