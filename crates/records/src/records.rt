// The records of the seven tables, field by field as they stand in the file.
// A field that names a record holds its number, counted from 1; 0 says none. A kind is the file's number and no enum, and
// what is 0 or 1 is a number and no bool, since any other is loaded too, and refused by the number of its record.

// A class of objects: plain, or the base or a member of a family.
#[derive(Clone, Copy, Default, PartialEq, Eq)]
pub struct Class {
    // 0 plain, 1 base, 2 member
    pub kind: u16,
    // the base of a member
    pub base: u16,
    // 1 for an abstract base, of which there are no objects
    pub abstracted: u16,
    // the greatest size of an object in bytes; above 0 the class or family is expandable
    pub greatest: u16,
    // the width of a family's ids in bits
    pub width: u16,
    // the first and the last id
    pub from: u16,
    pub to: u16,
    // a class is used only by classes of a greater rank
    pub rank: u16,
    // the first line and the number of lines
    pub first: u16,
    pub number: u16,
}

// A name of an object's value.
#[derive(Clone, Copy, Default, PartialEq, Eq)]
pub struct Name {
    // the class whose objects hold the value
    pub owner: u16,
}

// Further lines of an expandable class.
#[derive(Clone, Copy, Default, PartialEq, Eq)]
pub struct Extension {
    pub class: u16,
    // the first line and the number of lines
    pub first: u16,
    pub number: u16,
}

// A line of a class or extension. What its seven fields mean depends on its kind: `statement` gives them names.
#[derive(Clone, Copy, Default, PartialEq, Eq)]
pub struct Line {
    pub kind: u16,
    pub a: u16,
    pub b: u16,
    pub c: u16,
    pub d: u16,
    pub e: u16,
    pub f: u16,
    pub g: u16,
}

// A node of an expression: a constant, a name, the own size, or an operator on the nodes a and b.
#[derive(Clone, Copy, Default, PartialEq, Eq)]
pub struct Node {
    pub op: u16,
    pub a: u16,
    pub b: u16,
}

// A map from the numbers of so many bits to outputs.
#[derive(Clone, Copy, Default, PartialEq, Eq)]
pub struct Map {
    // the width of an index in bits
    pub width: u16,
    // the first row and the number of rows
    pub first: u16,
    pub number: u16,
}

// A row of a map: an index and its output, in two's complement.
#[derive(Clone, Copy, Default, PartialEq, Eq)]
pub struct Row {
    pub index: u16,
    // the high and the low half of the output
    pub high: u16,
    pub low: u16,
}
