ghost use Rattle.std.specs.Prelude.{◌≡◌};
ghost use Rattle.records.specs.Classes.{is_plain, is_base, is_member};

use crate::records::Class;

// What a class is to a family. A record holds the kind as the file's number, since it may be one that there is not.
#[derive(Clone, Copy, PartialEq, Eq, Debug)]
pub enum ClassKind {
    Plain = 0,
    Base = 1,
    Member = 2,
}

impl Class {
    // Whether the class is in no family.
    pub fn is_plain(self) -> bool
        ensures { result ≡ is_plain self }
    {
        self.kind == ClassKind::Plain as u16
    }

    // Whether the class is the base of a family.
    pub fn is_base(self) -> bool
        ensures { result ≡ is_base self }
    {
        self.kind == ClassKind::Base as u16
    }

    // Whether the class is a member of a family.
    pub fn is_member(self) -> bool
        ensures { result ≡ is_member self }
    {
        self.kind == ClassKind::Member as u16
    }
}
