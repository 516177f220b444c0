ghost use Rattle.table.specs.Description.{description};
ghost use Rattle.table.specs.Loading.{loaded};
ghost use Rattle.checked.specs.Check.{first_fault};
ghost use Rattle.checked.specs.Making.{Makes, Checks};

use crate::checked::Checked;
use crate::first::first_fault;
use records::faults::Fault;
use std::alloc::Global;
use table::load::load;
use table::loaded::Loaded;

impl Checked {
    // Checks a description: its first fault, or the description as checked. A refused description is let go.
    pub fn new(loaded: Loaded) -> Result<Checked, Fault>
        ensures { Makes (first_fault (description loaded)) loaded result }
    {
        // by a match: in `map_or_else` the part without a fault is a closure, which does not know that there is none
        match first_fault(&loaded) {
            Some(fault) => Err(fault),
            None => Ok(Checked::of(loaded)),
        }
    }

    // Loads and checks a description file: its first fault, or the description as checked.
    pub fn load(heap: Global, bytes: &[u8]) -> Result<Checked, Fault>
        ensures { Checks (loaded bytes.now) result }
    {
        Checked::new(load(heap, bytes)?)
    }
}
