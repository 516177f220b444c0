ghost use Rattle.std.specs.Prelude.{◌≡◌};
ghost use Rattle.records.specs.Statements.{written};
ghost use Rattle.table.specs.Description.{description};
ghost use Rattle.owners.specs.Names.{owned_by, writes_wrong, carry_wrong, carries_wrong, line_owner};

use crate::lines::class_of_line;
use passes::families::{expandable, in_family};
use records::statements::{Statement, UseLine, written};
use table::loaded::Loaded;

// Whether class c or its base owns name n.
pub(crate) fn owned_by(loaded: &Loaded, c: usize, n: usize) -> bool
    ensures { result ≡ owned_by (description loaded.now) c n }
{
    let name = loaded.name(n);
    name.owner as usize == c || name.owner == loaded.class(c).base
}

// Whether a line of class c writes a name that is not its to take.
fn writes_wrong(loaded: &Loaded, c: usize, s: Option<Statement>) -> bool
    ensures { result ≡ writes_wrong (description loaded.now) c s }
{
    let name = written(s);
    name != 0 && !owned_by(loaded, c, name as usize)
}

// Whether a carried name is not the used class's own, or carried from an expandable family.
fn carry_wrong(loaded: &Loaded, line: UseLine) -> bool
    ensures { result ≡ carry_wrong (description loaded.now) line.class line.carried }
{
    let class = line.class as usize;
    line.carried != 0
        && (loaded.name(line.carried as usize).owner != line.class
            || in_family(loaded, class) && expandable(loaded, class))
}

// Whether a line carries a name wrongly.
fn carries_wrong(loaded: &Loaded, s: Option<Statement>) -> bool
    ensures { result ≡ carries_wrong (description loaded.now) s }
{
    match s {
        Some(Statement::Use(line)) => carry_wrong(loaded, line),
        _ => false,
    }
}

// Whether line n has a name in its fields that is not its to take.
pub fn line_owner(loaded: &Loaded, n: usize) -> bool
    ensures { result ≡ line_owner (description loaded.now) n }
{
    let statement = loaded.statement(n);
    writes_wrong(loaded, class_of_line(loaded, n), statement) || carries_wrong(loaded, statement)
}
