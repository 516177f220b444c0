ghost use Rattle.std.specs.Prelude.{◌≡◌};
ghost use Rattle.fields.specs.Lines.{read_nodes_fine, read_rest_fine, assign_fine, map_read_fine, limits_fine, carry_fine, use_fine, while_fine};
ghost use Rattle.fields.specs.Lines.{statement_fine, used_fields, rest_unused, line_fine};

use crate::values::{is_alignment, names_one, names_one_or_none};
use records::counts::Counts;
use records::records::Line;
use records::statements::{ReadLine, Statement, UseLine};

// Whether the nodes of a read are fine: only the width is compulsory.
fn read_nodes_fine(counts: Counts, line: ReadLine) -> bool
    ensures { result ≡ read_nodes_fine counts line }
{
    names_one(line.width, counts.nodes)
        && names_one_or_none(line.count, counts.nodes)
        && names_one_or_none(line.lowest, counts.nodes)
        && names_one_or_none(line.highest, counts.nodes)
}

// Whether its name, alignment and look-ahead are.
fn read_rest_fine(counts: Counts, line: ReadLine) -> bool
    ensures { result ≡ read_rest_fine counts line }
{
    names_one_or_none(line.name, counts.names) && is_alignment(line.alignment) && line.ahead <= 1
}

// Whether an assignment has its name and its node.
fn assign_fine(counts: Counts, name: u16, node: u16) -> bool
    ensures { result ≡ assign_fine counts name node }
{
    names_one(name, counts.names) && names_one(node, counts.nodes)
}

// Whether a map read has its map.
fn map_read_fine(counts: Counts, map: u16, name: u16) -> bool
    ensures { result ≡ map_read_fine counts map name }
{
    names_one(map, counts.maps) && names_one_or_none(name, counts.names)
}

// Whether a use has its class, and no count or one that is there.
fn use_fine(counts: Counts, line: UseLine) -> bool
    ensures { result ≡ use_fine counts line }
{
    names_one(line.class, counts.classes) && names_one_or_none(line.count, counts.nodes)
}

// Whether least and most are 0 where a count node stands.
fn limits_fine(line: UseLine) -> bool
    ensures { result ≡ limits_fine line }
{
    line.count == 0 || line.least == 0 && line.most == 0
}

// Whether both names of a carry are there, or neither.
fn carry_fine(counts: Counts, line: UseLine) -> bool
    ensures { result ≡ carry_fine counts line }
{
    if line.carried == 0 {
        line.receiving == 0
    } else {
        names_one(line.carried, counts.names) && names_one(line.receiving, counts.names)
    }
}

// Whether a while has its node, and at least one round.
fn while_fine(counts: Counts, node: u16, rounds: u16) -> bool
    ensures { result ≡ while_fine counts node rounds }
{
    names_one(node, counts.nodes) && rounds != 0
}

// Whether the fields that a line's kind has are fine.
fn statement_fine(counts: Counts, s: Option<Statement>) -> bool
    ensures { result ≡ statement_fine counts s }
{
    match s {
        Some(Statement::Read(line)) => read_nodes_fine(counts, line)
            && read_rest_fine(counts, line),
        Some(Statement::Assign { name, node }) => assign_fine(counts, name, node),
        Some(Statement::MapRead { map, name }) => map_read_fine(counts, map, name),
        Some(Statement::Use(line)) => {
            use_fine(counts, line) && limits_fine(line) && carry_fine(counts, line)
        }
        Some(Statement::If { node, .. }) => names_one(node, counts.nodes),
        Some(Statement::While { node, rounds, .. }) => while_fine(counts, node, rounds),
        None => false,
    }
}

// How many of the seven fields a line's kind has.
fn used_fields(s: Option<Statement>) -> u16
    ensures { result ≡ used_fields s }
{
    match s {
        Some(Statement::Read(_)) => 7,
        Some(Statement::Assign { .. } | Statement::MapRead { .. }) => 2,
        Some(Statement::Use(_)) => 6,
        Some(Statement::If { .. } | Statement::While { .. }) => 3,
        None => 0,
    }
}

// Whether the fields after the first `used` are 0.
fn rest_unused(l: Line, used: u16) -> bool
    ensures { result ≡ rest_unused l used }
{
    (used >= 3 || l.c == 0)
        && (used >= 4 || l.d == 0)
        && (used >= 5 || l.e == 0)
        && (used >= 6 || l.f == 0)
        && (used >= 7 || l.g == 0)
}

// Whether the fields of a line are fine.
pub fn line_fine(counts: Counts, l: Line) -> bool
    ensures { result ≡ line_fine counts l }
{
    let statement = Statement::try_from(l).ok();
    statement_fine(counts, statement) && rest_unused(l, used_fields(statement))
}
