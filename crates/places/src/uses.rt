ghost use Rattle.std.specs.Prelude.{◌≡◌};
ghost use Rattle.table.specs.Description.{description};
ghost use Rattle.places.specs.Uses.{top_place, extension_place, uncounted_wrong, use_wrong, read_wrong, statement_wrong, line_place};

use passes::families::expandable;
use records::statements::{ReadLine, Statement, UseLine};
use table::loaded::Loaded;

// Whether the top class is a member.
pub(crate) fn top_wrong(loaded: &Loaded) -> bool
    ensures { result ≡ top_place (description loaded.now) }
{
    loaded.class(loaded.top as usize).is_member()
}

// Whether extension n is of a base, or of what is not expandable.
pub fn extension_place(loaded: &Loaded, n: usize) -> bool
    ensures { result ≡ extension_place (description loaded.now) n }
{
    let class = loaded.extension(n).class as usize;
    loaded.class(class).is_base() || !expandable(loaded, class)
}

// Whether a use without a count is not of an expandable family, or not from least to most elements.
fn uncounted_wrong(loaded: &Loaded, line: UseLine) -> bool
    ensures { result ≡ uncounted_wrong (description loaded.now) line.class line.least line.most }
{
    let class = line.class as usize;
    !(loaded.class(class).is_base() && expandable(loaded, class))
        || line.most < line.least
        || line.most == 0
}

// Whether a use is of a member, or without a count where it needs one.
fn use_wrong(loaded: &Loaded, line: UseLine) -> bool
    ensures { result ≡ use_wrong (description loaded.now) line.class line.count line.least line.most }
{
    loaded.class(line.class as usize).is_member()
        || line.count == 0 && uncounted_wrong(loaded, line)
}

// Whether a read looks ahead with a count.
fn read_wrong(line: ReadLine) -> bool
    ensures { result ≡ read_wrong line.ahead line.count }
{
    line.ahead != 0 && line.count != 0
}

// Whether a read or a use is where it does not belong.
fn statement_wrong(loaded: &Loaded, s: Option<Statement>) -> bool
    ensures { result ≡ statement_wrong (description loaded.now) s }
{
    match s {
        Some(Statement::Read(line)) => read_wrong(line),
        Some(Statement::Use(line)) => use_wrong(loaded, line),
        _ => false,
    }
}

// Whether line n is where it does not belong.
pub fn line_place(loaded: &Loaded, n: usize) -> bool
    ensures { result ≡ line_place (description loaded.now) n }
{
    statement_wrong(loaded, loaded.statement(n))
}
