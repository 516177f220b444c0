ghost use Rattle.table.specs.Description.{description};
ghost use Rattle.roundtrip.specs.Own.{own_bits, Sensible};
ghost use Rattle.pending.specs.Owned.{Answers, Narrow};

use crate::headers::header_bits;
use crate::values_of::value_bits;
use rules::items::{Item, Kind};
use rules::lookups::{declared_at, greatest};
use table::loaded::Loaded;

// Bits as a number: the `width` lowest bits of `value`.
#[derive(Clone, Copy)]
pub struct Own {
    pub width: u32,
    pub value: u64,
}

// An item's own bits, at most 48; none where its numbers are such that no reading could hand it out.
pub fn own_bits(tables: &Loaded, item: Item) -> Option<Own>
    requires narrow { Narrow (description tables.now) }
    ensures { Answers (own_bits (description tables.now) item) (Sensible (description tables.now) item) result }
{
    match item.kind {
        Kind::Value => value_bits(tables, item.line, item.value, item.length),
        Kind::Open => {
            let declared = declared_at(tables, item.line) as usize;
            let class = tables.class(declared);
            header_bits(class, greatest(tables, declared), item.value, item.length)
        }
        Kind::Close => Some(Own { width: 0, value: 0 }),
    }
}
