use bits::source::Source;
use growth::striker::Striker;
use reading::state::Reading;
use reading::walk::Answer;
use rules::items::Item;
use table::loaded::Loaded;

// A reading by an older description and one by a newer.
#[derive(Drop)]
pub struct Comparison<'d, O: Source, N: Source> {
    // the older's tables
    pub(crate) tables: &'d Loaded,
    pub(crate) older: Reading<'d, O>,
    pub(crate) newer: Reading<'d, N>,
    // what is left of the newer's items for the older
    pub(crate) striker: Striker,
    pub(crate) grown: bool,
}

// What comes next of two readings side by side.
#[derive(Clone, Copy)]
pub enum Seen {
    // an item of the newer's of which nothing is left for the older
    Struck(Item),
    // what both answer; of the newer's item, what is left of it
    Both { older: Answer, newer: Answer },
}
