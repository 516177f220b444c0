ghost use Rattle.std.specs.Prelude.{◌≤◌, length};
ghost use Rattle.objects.specs.Upcoming.{Comes};

use records::records::Line;
use records::statements::Statement;
use table::record::record_at;

// A line in its block: its number, and how many lines come after it.
#[derive(Clone, Copy)]
pub(crate) struct BlockLine {
    pub(crate) line: u16,
    pub(crate) after: u16,
}

// The next line of some lines.
#[derive(Clone, Copy)]
pub(crate) struct NextLine {
    pub(crate) at: BlockLine,
    pub(crate) statement: Statement,
}

// The first of `count` lines from `at` on whose kind there is, if there is one. A loop that steps by hand: it goes by
// the lines' numbers, of which 0 is none, ends where the table does, and says how many lines are left.
pub(crate) fn next_line(lines: &[Line], at: u32, count: u16) -> Option<NextLine>
    requires { length lines.now ≤ 65534 }
    ensures { Comes lines.now at count result }
{
    let mut line = at;
    let mut left = count;
    while left > 0 {
        if line as usize > lines.len() {
            return None;
        }
        left -= 1;
        match Statement::try_from(record_at(lines, line as usize)) {
            Err(_) => line += 1,
            Ok(statement) => {
                let at = BlockLine {
                    line: line as u16,
                    after: left,
                };
                return Some(NextLine { at, statement });
            }
        }
    }
    None
}
