ghost use Rattle.std.specs.Prelude.{Some};
ghost use Rattle.records.specs.Texts.{counts_text, fault_text};

use crate::counts::Counts;
use crate::faults::{Cause, Fault};
use std::fmt;

impl fmt::Display for Cause {
    fn fmt<W: fmt::Write>(&self, f: &mut fmt::Formatter<W>) -> fmt::Result {
        f.write_str(sentence(*self))
    }
}

// Seven numbers, in the order of the file.
impl fmt::Display for Counts {
    ghost output = { λ c. Some (counts_text c) };

    fn fmt<W: fmt::Write>(&self, f: &mut fmt::Formatter<W>) -> fmt::Result {
        write!(
            f,
            "{} {} {} {} {} {} {}",
            self.classes, self.names, self.extensions, self.lines, self.nodes, self.maps, self.rows
        )
    }
}

// Three numbers: cause, table, record.
impl fmt::Display for Fault {
    ghost output = { λ f. Some (fault_text f) };

    fn fmt<W: fmt::Write>(&self, f: &mut fmt::Formatter<W>) -> fmt::Result {
        write!(
            f,
            "{} {} {}",
            self.cause.number(),
            self.table.number(),
            self.record
        )
    }
}

// One sentence for each cause, for whoever has to mend the description.
fn sentence(cause: Cause) -> &'static str {
    match cause {
        Cause::Mark => "the file does not begin with the mark SDT",
        Cause::Version => "the file's version is missing, or is not 1",
        Cause::Count => "a table's count is missing or above its largest, or there is no class",
        Cause::Length => "the file is longer or shorter than the tables that it counts",
        Cause::Field => "a field is outside its values, or names a record that is not there",
        Cause::Stretch => {
            "a line is not in exactly one stretch of lines, or a block runs past what holds it"
        }
        Cause::Depth => "blocks are nested more than 8 deep, or a node is more than 8 deep",
        Cause::Rank => "a used class, or a member of a used base, does not rank below its user",
        Cause::Owner => "a name is not owned by the class that takes it, or may not be carried",
        Cause::Place => {
            "an id, a width, a size, a use, an extension or a map index is not allowed where it stands"
        }
        Cause::Memory => "there was no memory for the tables",
    }
}
