ghost use Rattle.table.specs.Description.{description};
ghost use Rattle.writing.specs.Ready.{Ready};

use checked::checked::Checked;
use reading::walk::Walk;

// An open writing of a stream. It has to be finished or given up: it is no `Drop`, so a program that forgets it does
// not build.
pub struct Writing {
    // the description, which is handed back at the end
    pub(crate) checked: Checked,
    // how many bits the stream will have, and how many are written
    pub(crate) total: u32,
    pub(crate) written: u32,
    // where a reading of what is written stands
    pub(crate) walk: Walk,
    ghost ready: { ∥ Ready (description checked.loaded) total written walk ∥₁ },
}

// The duty to end a writing, which comes with it. It can't be copied, and is spent by finishing or by giving up.
pub struct Duty {
    pub(crate) total: u32,
}
