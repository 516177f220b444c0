use crate::tally::Tally;
use std::fs;

// What stands between the cases of a file: each is a block of lines with an empty line after it.
const BETWEEN: &str = "\n\n";

// Runs the cases of a file by a test of one, and prints which differ and how many there are. A case for which the test
// answers nothing is left out. `how` is printed after the file's name.
pub(crate) fn run<F: Fn(&str) -> anyhow::Result<Option<bool>>>(
    rt: &HostRuntime,
    file: &str,
    how: &str,
    agrees: F,
) -> anyhow::Result<()>
    requires { F.IsAlwaysCallable agrees }
{
    let text = fs::read_to_string(rt, file)?;
    let mut tally = Tally::default();
    for case in text.as_str().trim_end().split(BETWEEN) {
        let Some(same) = agrees(case)? else {
            continue;
        };
        tally.begin();
        if !same {
            let number = tally.differs();
            println!(rt; "{file}{how}, case {number} differs")?;
        }
    }
    println!(rt; "{file}{how}: {tally}")?;
    Ok(())
}
