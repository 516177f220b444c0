// Checking a description.
ghost use Rattle.std.specs.Prelude.{◌≡◌};
ghost use Rattle.table.specs.Loading.{loaded};
ghost use Rattle.embed.specs.Checking.{answer_of, CheckTold};

use crate::answers::{ACCEPTED, CheckAnswer};
use checked::checked::Checked;
use records::faults::Fault;
use std::alloc::Global;

// What checking came to.
fn answer(checked: Result<Checked, Fault>) -> CheckAnswer
    ensures { result ≡ answer_of checked }
{
    match checked {
        Ok(_) => ACCEPTED,
        Err(fault) => CheckAnswer::from(fault),
    }
}

// Checks a description file.
#[unsafe(no_mangle)]
pub extern "C" fn jilafotra_check(heap: Global, description: &[u8]) -> CheckAnswer
    ensures { CheckTold (loaded description.now) result }
{
    answer(Checked::load(heap, description))
}
