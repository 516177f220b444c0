use records::statements::UseLine;
use rules::items::Item;

// What one step inside an open object comes to, where the reading isn't refused.
#[derive(Clone, Copy)]
pub enum Move {
    // nothing is handed out; the reading stands at `place`
    Quiet {
        place: u32,
    },
    // an item is handed out, after which the reading stands at `place`
    Give {
        item: Item,
        place: u32,
    },
    // an object of a use begins
    Begin {
        line: u16,
        fields: UseLine,
        index: u16,
    },
    // the object has nothing left to do
    Leave,
}
