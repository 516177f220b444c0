ghost use Rattle.std.specs.Prelude.{◌≡◌, Bool, true, List};
ghost use Rattle.table.specs.Description.{Description, description};
ghost use Rattle.rules.specs.Growth.{grown, lacks};
ghost use Rattle.reading.specs.Histories.{HandsOut};
ghost use Rattle.comparison.specs.Law.{OlderAndNewer};
ghost use Rattle.comparison.specs.Beside.{Begun, Still, Compares};

use crate::comparison::{Comparison, Seen};
use bits::source::Source;
use checked::checked::Checked;
use growth::grown::grown;
use growth::striker::Striker;
use reading::state::Reading;
use rules::faults::ReadingFault;

impl<'d, O: Source, N: Source> Comparison<'d, O, N> {
    // Opens two readings side by side. Whatever is called of readings over sources of these two types: each has handed
    // out a beginning of the items that the rules give for its description and bits, called on all of them, and meets
    // their end or fault; and where the newer description has grown from the older, readings of the same bits compare
    // as the law of older and newer says.
    pub fn open(
        older: &'d Checked,
        newer: &'d Checked,
        old_source: O,
        new_source: N,
    ) -> Comparison<'d, O, N>
        ensures begun { Begun O.bits N.bits (description older.now.loaded) (description newer.now.loaded) (O.bits old_source) (N.bits new_source) result }
        ensures older { (d : Description) (list : List Bool) → HandsOut O.Source O.bits d list }
        ensures newer { (d : Description) (list : List Bool) → HandsOut N.Source N.bits d list }
        ensures law { grown (description older.now.loaded) (description newer.now.loaded) ≡ true → OlderAndNewer O.Source N.Source O.bits N.bits (description older.now.loaded) (description newer.now.loaded) }
    {
        Comparison {
            tables: older.tables(),
            older: Reading::open(older, old_source),
            newer: Reading::open(newer, new_source),
            striker: Striker::new(),
            grown: grown(older, newer),
        }
    }
}

impl<O: Source, N: Source> Comparison<'_, O, N> {
    // Whether the newer description has grown from the older.
    pub fn has_grown(&self) -> bool
        ensures { result ≡ self.now.grown }
    {
        self.grown
    }

    // Whether the newer's fault, after what it has handed out, lies inside what the older lacks.
    pub fn lacks(&self, fault: ReadingFault) -> bool
        ensures { result ≡ lacks (description self.now.tables.now) self.now.striker.depth fault }
    {
        self.striker.lacks(self.tables, fault)
    }

    // What comes next: the newer's next item if it is struck, else what is left of it, or how the newer has ended,
    // beside what the older answers.
    pub fn next(&mut self) -> Seen
        ensures compared { Compares O.bits N.bits self.old self.new result }
        ensures still { Still O.bits N.bits self.old self.new }
    {
        match self.newer.next() {
            Ok(Some(item)) => match self.striker.take(self.tables, item) {
                Some(left) => Seen::Both {
                    older: self.older.next(),
                    newer: Ok(Some(left)),
                },
                None => Seen::Struck(item),
            },
            Ok(None) => Seen::Both {
                older: self.older.next(),
                newer: Ok(None),
            },
            Err(fault) => Seen::Both {
                older: self.older.next(),
                newer: Err(fault),
            },
        }
    }
}
