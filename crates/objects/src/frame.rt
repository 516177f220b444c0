ghost use Rattle.std.specs.Prelude.{◌≡◌};
ghost use Rattle.objects.specs.declared.frame.Frame.TheVariants.{Lines};

use records::statements::{ReadLine, UseLine};
use records::stretches::Stretch;

// What an open object still has to do. Its cases have loose fields and no structs: each is taken apart by the one
// function that does it, and the definitions of what lies ahead go by its fields.
#[derive(Clone, Copy)]
pub enum Frame {
    // `count` lines from the line `at` on
    Lines {
        at: u32,
        count: u16,
    },
    // the same, after a read of one value, whose end is still to be passed over
    After {
        at: u32,
        count: u16,
    },
    // the rounds of a while, of which `left` may follow: its node, and the lines of its block
    Rounds {
        line: u16,
        node: u16,
        count: u16,
        left: u16,
    },
    // the elements of a read from `index` up to `total`
    Elements {
        line: u16,
        fields: ReadLine,
        index: u16,
        total: u16,
    },
    // the objects of a counted use from `index` up to `total`
    Counted {
        line: u16,
        fields: UseLine,
        index: u16,
        total: u16,
    },
    // the objects of a use without a count, from `index` on
    Uncounted {
        line: u16,
        fields: UseLine,
        index: u16,
    },
}

// The lines of a stretch.
impl From<Stretch> for Frame {
    ghost from_gives = { λ stretch frame. frame ≡ Lines stretch.first stretch.number };

    fn from(stretch: Stretch) -> Frame {
        Frame::Lines {
            at: u32::from(stretch.first),
            count: stretch.number,
        }
    }
}
