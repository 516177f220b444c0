ghost use Rattle.std.specs.Prelude.{◌≡◌};
ghost use Rattle.records.specs.Causes.{cause_number, table_number, of_file};

// What is wrong with a description.
#[derive(Clone, Copy, PartialEq, Eq, Debug)]
pub enum Cause {
    // the file does not begin with the mark
    Mark = 1,
    // another version, or none
    Version = 2,
    // a count is missing or out of its range
    Count = 3,
    // the file is longer or shorter than its tables
    Length = 4,
    // a field is outside its values, or names a record that is not there
    Field = 5,
    // a line is not in exactly one stretch, or a block runs past what holds it
    Stretch = 6,
    // blocks or nodes nest too deep
    Depth = 7,
    // a used class does not rank below its user
    Rank = 8,
    // a name that is not the line's to take
    Owner = 9,
    // an id, a width, a size or a use where it does not belong
    Place = 10,
    // there was no memory for the tables
    Memory = 90,
}

impl Cause {
    // The number by which users know the cause. Each enum whose cases have numbers has such a method, and no trait gives
    // it: `as` takes no type parameter, and each contract cites its own numbers.
    pub fn number(self) -> u16
        ensures { result ≡ cause_number self }
    {
        self as u16
    }
}

// What a fault speaks of: the file as a whole and its top class, or one of the seven tables.
#[derive(Clone, Copy, PartialEq, Eq, Debug)]
pub enum Table {
    File = 0,
    Classes = 1,
    Names = 2,
    Extensions = 3,
    Lines = 4,
    Nodes = 5,
    Maps = 6,
    Rows = 7,
}

impl Table {
    // The tables are numbered in the order of the file, from 1.
    pub fn number(self) -> u16
        ensures { result ≡ table_number self }
    {
        self as u16
    }
}

// A broken rule: its cause, and the record that it names, by table and number; 0 of the file names none. No Option of
// the two: users know a fault by its three numbers, of which the file's are 0 and 0, and the rules speak of them.
#[derive(Clone, Copy, PartialEq, Eq, Debug)]
pub struct Fault {
    pub cause: Cause,
    pub table: Table,
    pub record: usize,
}

impl Fault {
    // A fault of the file as a whole.
    pub fn of_file(cause: Cause) -> Fault
        ensures { result ≡ of_file cause }
    {
        Fault {
            cause,
            table: Table::File,
            record: 0,
        }
    }
}
