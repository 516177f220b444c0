ghost use Rattle.std.specs.Prelude.{◌≡◌, ◌≤◌};
ghost use Rattle.bits.specs.Make.{most_bytes};
ghost use Rattle.table.specs.Description.{description};
ghost use Rattle.objects.specs.Ahead.{Readable, readable_prop};
ghost use Rattle.reading.specs.Walks.{Sound, sound_prop};

use reading::walk::Walk;
use rules::faults::ReadingFault;
use table::loaded::Loaded;

// A reading by a checked description of a stream that comes piece by piece. Its size is fixed, and it keeps no byte of
// the stream.
#[derive(Drop)]
pub struct Streaming<'d> {
    pub(crate) tables: &'d Loaded,
    // how many bytes the stream has
    pub(crate) total: u32,
    pub(crate) walk: Walk,
    pub(crate) fault: Option<ReadingFault>,
    ghost readable: { Readable (description tables.now) } by { readable_prop (description tables.now) },
    ghost sound: { Sound (description tables.now) walk } by { sound_prop (description tables.now) walk },
    ghost few: { total ≤ most_bytes },
}

// Bytes of a stream: from number `first` up to number `end`.
#[derive(Clone, Copy, PartialEq, Eq, Debug)]
pub struct Wanted {
    pub first: u32,
    pub end: u32,
}
