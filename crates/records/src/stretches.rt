ghost use Rattle.std.specs.Prelude.{◌≡◌, ◌<◌, true};
ghost use Rattle.records.specs.Stretches.{in_stretch};

use crate::records::{Class, Extension, Map};

// A stretch of a table: the `number` records from `first` on.
#[derive(Clone, Copy)]
pub struct Stretch {
    pub first: u16,
    pub number: u16,
}

impl Stretch {
    // Whether it has record n.
    pub fn has(self, n: usize) -> bool
        ensures value { result ≡ in_stretch self.first self.number n }
        ensures bound { result ≡ true → n < 131072 }
    {
        let first = self.first as usize;
        (first..first + self.number as usize).contains(&n)
    }
}

// The lines of a class.
impl From<Class> for Stretch {
    ghost from_gives = { λ class stretch. stretch ≡ record { first = class.first; number = class.number } };

    fn from(class: Class) -> Stretch {
        Stretch {
            first: class.first,
            number: class.number,
        }
    }
}

// The lines of an extension.
impl From<Extension> for Stretch {
    ghost from_gives = { λ extension stretch. stretch ≡ record { first = extension.first; number = extension.number } };

    fn from(extension: Extension) -> Stretch {
        Stretch {
            first: extension.first,
            number: extension.number,
        }
    }
}

// The rows of a map.
impl From<Map> for Stretch {
    ghost from_gives = { λ map stretch. stretch ≡ record { first = map.first; number = map.number } };

    fn from(map: Map) -> Stretch {
        Stretch {
            first: map.first,
            number: map.number,
        }
    }
}
