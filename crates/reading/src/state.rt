ghost use Rattle.table.specs.Description.{description};
ghost use Rattle.objects.specs.Ahead.{Readable, readable_prop};
ghost use Rattle.reading.specs.Walks.{Sound, sound_prop};

use crate::walk::Walk;
use bits::source::Source;
use rules::faults::ReadingFault;
use rules::items::Item;
use table::loaded::Loaded;

// A reading of a source by a checked description.
#[derive(Drop)]
pub struct Reading<'d, S: Source> {
    pub(crate) tables: &'d Loaded,
    pub(crate) source: S,
    pub(crate) walk: Walk,
    pub(crate) fault: Option<ReadingFault>,
    // the last item handed out
    pub(crate) last: Option<Item>,
    ghost readable: { Readable (description tables.now) } by { readable_prop (description tables.now) },
    ghost sound: { Sound (description tables.now) walk } by { sound_prop (description tables.now) walk },
}
