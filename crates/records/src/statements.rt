ghost use Rattle.std.specs.Prelude.{◌≡◌, ok_or};
ghost use Rattle.records.specs.Statements.{statement, read_line, use_line, statement_kind, written};

use crate::records::Line;
use thiserror::Error;

// The fields of a read. A node, a name, a count or a bound of 0 says none, and `ahead` is a number, as the record holds
// them: the rules for fields test them here, and a look-up of 0 is defined.
#[derive(Clone, Copy, PartialEq, Eq)]
pub struct ReadLine {
    pub signed: bool,
    // the node of the width in bits
    pub width: u16,
    // the name that gets the value
    pub name: u16,
    // the node of the count
    pub count: u16,
    // in bits: 0, 8, 16, 32, 64 or 128
    pub alignment: u16,
    // 1 for a look-ahead
    pub ahead: u16,
    // the nodes of the lowest and the highest value
    pub lowest: u16,
    pub highest: u16,
}

// The fields of a use of a class. A node, a name or a bound of 0 says none, as in a read.
#[derive(Clone, Copy, PartialEq, Eq)]
pub struct UseLine {
    pub class: u16,
    // the node of the count
    pub count: u16,
    // without a count: the least and the most objects
    pub least: u16,
    pub most: u16,
    // the used object's name whose value goes to the name `receiving` of the user
    pub carried: u16,
    pub receiving: u16,
}

// A line with its fields by name. Later code goes by this view of a line.
#[derive(Clone, Copy, PartialEq, Eq)]
pub enum Statement {
    // reads one value, or `count` of them
    Read(ReadLine),
    // gives a name the value of a node
    Assign { name: u16, node: u16 },
    // reads an index and gives the output of a map's row
    MapRead { map: u16, name: u16 },
    // reads objects of a class, `count` of them, or from `least` to `most`
    Use(UseLine),
    // the next `first` lines where the node is true, else the `second` lines after them
    If { node: u16, first: u16, second: u16 },
    // the next `lines` lines as long as the node is true, at most `rounds` times
    While { node: u16, lines: u16, rounds: u16 },
}

// A number that no kind of line has.
#[derive(Clone, Copy, PartialEq, Eq, Debug, Error)]
#[error("no kind of line has the number {kind}")]
pub struct UnknownLine {
    pub kind: u16,
}

// The line's fields, by the names that they have at its kind.
impl TryFrom<Line> for Statement {
    type Error = UnknownLine;

    ghost try_from_gives = { λ line result. result ≡ ok_or (statement line) (record { kind = line.kind }) };

    fn try_from(line: Line) -> Result<Statement, UnknownLine> {
        match line.kind {
            1 => Ok(Statement::Read(read_line(false, line))),
            2 => Ok(Statement::Read(read_line(true, line))),
            3 => Ok(Statement::Assign {
                name: line.a,
                node: line.b,
            }),
            4 => Ok(Statement::MapRead {
                map: line.a,
                name: line.b,
            }),
            5 => Ok(Statement::Use(use_line(line))),
            6 => Ok(Statement::If {
                node: line.a,
                first: line.b,
                second: line.c,
            }),
            7 => Ok(Statement::While {
                node: line.a,
                lines: line.b,
                rounds: line.c,
            }),
            kind => Err(UnknownLine { kind }),
        }
    }
}

impl Line {
    // The line's fields, by the names that they have at its kind, where there is such a kind. It can't fail: what it
    // answers has a place for none. Where it matters which number no kind has, there is `TryFrom`.
    pub fn statement(self) -> Option<Statement>
        ensures { result ≡ statement self }
    {
        Statement::try_from(self).ok()
    }
}

// The fields of a read.
fn read_line(signed: bool, line: Line) -> ReadLine
    ensures { result ≡ read_line signed line }
{
    ReadLine {
        signed,
        width: line.a,
        name: line.b,
        count: line.c,
        alignment: line.d,
        ahead: line.e,
        lowest: line.f,
        highest: line.g,
    }
}

// The fields of a use.
fn use_line(line: Line) -> UseLine
    ensures { result ≡ use_line line }
{
    UseLine {
        class: line.a,
        count: line.b,
        least: line.c,
        most: line.d,
        carried: line.e,
        receiving: line.f,
    }
}

// The name that a line writes, 0 if none. No Option: records say none by 0, and a look-up of 0 is defined.
pub fn written(statement: Option<Statement>) -> u16
    ensures { result ≡ written statement }
{
    match statement {
        Some(Statement::Read(line)) => line.name,
        Some(Statement::Assign { name, .. } | Statement::MapRead { name, .. }) => name,
        Some(Statement::Use(line)) => line.receiving,
        Some(Statement::If { .. } | Statement::While { .. }) | None => 0,
    }
}

impl Statement {
    // The number of the kind. By a match: `as` takes no case with fields.
    pub fn kind(self) -> u16
        ensures { result ≡ statement_kind self }
    {
        match self {
            Statement::Read(line) => if line.signed { 2 } else { 1 },
            Statement::Assign { .. } => 3,
            Statement::MapRead { .. } => 4,
            Statement::Use(_) => 5,
            Statement::If { .. } => 6,
            Statement::While { .. } => 7,
        }
    }
}
