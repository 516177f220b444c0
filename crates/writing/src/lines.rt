ghost use Rattle.std.specs.Prelude.{◌≡◌};
ghost use Rattle.records.specs.Statements.{statement};
ghost use Rattle.roundtrip.specs.Writing.{looks_ahead};
ghost use Rattle.writing.specs.Ready.{some_ahead};

use records::records::Line;
use records::statements::Statement;

// Above 0 where a line looks ahead.
fn ahead_by(statement: Option<Statement>) -> u16
    ensures { result ≡ looks_ahead statement }
{
    match statement {
        Some(Statement::Read(fields)) => fields.ahead,
        _ => 0,
    }
}

fn looks_ahead(line: Line) -> u16
    ensures { result ≡ looks_ahead (statement line) }
{
    ahead_by(Statement::try_from(line).ok())
}

// Whether some line looks ahead.
pub(crate) fn some_ahead(lines: &[Line]) -> bool
    ensures { result ≡ some_ahead lines.now }
{
    for i in 0..lines.len() {
        if looks_ahead(lines[i]) > 0 {
            return true;
        }
    }
    false
}
