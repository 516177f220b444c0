ghost use Rattle.std.specs.Prelude.{◌≡◌, false, None};
ghost use Rattle.table.specs.Description.{description};
ghost use Rattle.table.specs.First.{is_some};
ghost use Rattle.checked.specs.Check.{first_fault};

use table::loaded::Loaded;

// A description in which no rule is broken. Only the check makes one.
#[derive(Drop)]
pub struct Checked {
    loaded: Loaded,
    ghost faultless: { is_some (first_fault (description loaded)) ≡ false },
}

impl Checked {
    // A description without a fault, as checked: this cannot refuse.
    pub(crate) fn of(loaded: Loaded) -> Checked
        requires { is_some (first_fault (description loaded)) ≡ false }
        ensures { result.loaded ≡ loaded }
    {
        Checked { loaded }
    }

    // The tables of the description, which has no fault.
    pub fn tables(&self) -> &Loaded
        ensures same { result.now ≡ self.now.loaded }
        ensures faultless { first_fault (description result.now) ≡ None }
    {
        &self.loaded
    }
}
