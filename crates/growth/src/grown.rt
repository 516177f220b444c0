// Whether a newer description has grown from an older one.
ghost use Rattle.std.specs.Prelude.{◌≡◌, ℕ, true, ◌&&◌, List, length, drop};
ghost use Rattle.std.specs.List.{list_all};
ghost use Rattle.records.specs.Statements.{statement, written};
ghost use Rattle.table.specs.Description.{entry, no_class, description};
ghost use Rattle.rules.specs.Growth.{member_grown, line_grown, unchanged, new_members_fit, new_lines_fit, grown, ReadsOn};

use crate::same::{Fields, stands};
use checked::checked::Checked;
use records::records::{Class, Line};
use records::statements::{Statement, written};
use table::loaded::Loaded;
use table::record::record_at;

// The greatest size that class number n gives, 0 where there is none.
fn greatest_at(classes: &[Class], n: usize) -> u16
    ensures { result ≡ (entry classes.now n no_class).greatest }
{
    record_at(classes, n).greatest
}

// A new member of an older family is in an expandable one.
fn member_grown(classes: &[Class], member: Class) -> bool
    ensures { result ≡ member_grown classes.now member }
{
    let base = member.base as usize;
    !(member.is_member() && base <= classes.len()) || greatest_at(classes, base) > 0
}

// A new line writes only new names, above the older's count.
fn line_grown(names: usize, line: Line) -> bool
    ensures { result ≡ line_grown names line }
{
    let name = written(Statement::try_from(line).ok()) as usize;
    name == 0 || name > names
}

// Each new member of an older family is in an expandable one. This and the next are two, each with its own definition:
// what they share is the chain of three calls, which one with a closure would write out again.
fn members_grown(older: &[Class], newer: &[Class]) -> bool
    ensures { result ≡ list_all (member_grown older.now) (drop (length older.now) newer.now) }
{
    newer
        .iter()
        .skip(older.len())
        .all(|member| member_grown(older, *member))
}

// Each line after the older's writes only new names.
fn lines_grown(names: usize, older: usize, newer: &[Line]) -> bool
    ensures { result ≡ list_all (line_grown names) (drop older newer.now) }
{
    newer
        .iter()
        .skip(older)
        .all(|line| line_grown(names, *line))
}

// Whether the top class and every older record stand unchanged in place.
fn unchanged(older: &Loaded, newer: &Loaded) -> bool
    ensures { result ≡ unchanged (description older.now) (description newer.now) }
{
    newer.top == older.top
        && stands(older.classes.as_slice(), newer.classes.as_slice())
        && stands(older.names.as_slice(), newer.names.as_slice())
        && stands(older.extensions.as_slice(), newer.extensions.as_slice())
        && stands(older.lines.as_slice(), newer.lines.as_slice())
        && stands(older.nodes.as_slice(), newer.nodes.as_slice())
        && stands(older.maps.as_slice(), newer.maps.as_slice())
        && stands(older.rows.as_slice(), newer.rows.as_slice())
}

// Whether the new members fit the older families.
fn new_members_fit(older: &Loaded, newer: &Loaded) -> bool
    ensures { result ≡ new_members_fit (description older.now) (description newer.now) }
{
    members_grown(older.classes.as_slice(), newer.classes.as_slice())
}

// Whether the new lines leave the older names.
fn new_lines_fit(older: &Loaded, newer: &Loaded) -> bool
    ensures { result ≡ new_lines_fit (description older.now) (description newer.now) }
{
    lines_grown(older.names.len(), older.lines.len(), newer.lines.as_slice())
}

// The three rules of growth.
fn keeps_rules(older: &Loaded, newer: &Loaded) -> bool
    ensures { result ≡ (unchanged (description older.now) (description newer.now) && new_members_fit (description older.now) (description newer.now) && new_lines_fit (description older.now) (description newer.now)) }
{
    unchanged(older, newer) && new_members_fit(older, newer) && new_lines_fit(older, newer)
}

// Whether the newer description has grown from the older one; where it has, it reads on: whatever the bits, unless
// the newer's fault lies inside what the older lacks, both end alike and what is left of the newer's items are the
// older's.
pub fn grown(older: &Checked, newer: &Checked) -> bool
    ensures answer { result ≡ grown (description older.now.loaded) (description newer.now.loaded) }
    ensures law { result ≡ true → ReadsOn (description older.now.loaded) (description newer.now.loaded) }
{
    keeps_rules(older.tables(), newer.tables())
}
