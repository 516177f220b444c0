// Where the bits of an item end.
ghost use Rattle.std.specs.Prelude.{◌≡◌, ◌+◌, ◌*◌, ◌≤◌, false, slice_index_or};
ghost use Rattle.table.specs.Description.{description};
ghost use Rattle.reading.specs.Positions.{size_length, size_length_at, header_end, item_end};

use bits::source::Source;
use rules::items::{Item, Kind};
use rules::lookups::{declared_at, greatest, id_width};
use table::loaded::Loaded;

// The bit at a place, 0 past the end.
fn bit_at<S: Source>(source: &S, p: u64) -> bool
    ensures { result ≡ slice_index_or (S.bits source.now) p false }
{
    if p >= source.length() as u64 {
        return false;
    }
    match source.get(p as u32, 1) {
        Ok(bit) => bit == 1,
        Err(_) => false,
    }
}

// How many bits a size takes from a place on, of at most so many bytes.
fn size_length<S: Source>(source: &S, bytes: u64, p: u64) -> u64
    requires { p + 8 * bytes ≤ 1099511627776 }
    ensures value { result ≡ size_length (S.bits source.now) bytes p }
    ensures bound { result ≤ 8 * bytes }
{
    if bytes == 0 {
        return 0;
    }
    if !bit_at(source, p) {
        return 8;
    }
    8 + size_length(source, bytes - 1, p + 8)
}

// How many bits the size takes from a place on, by the greatest size.
fn size_length_at<S: Source>(source: &S, greatest: u16, p: u64) -> u64
    requires { p ≤ 8589934592 }
    ensures value { result ≡ size_length_at (S.bits source.now) greatest p }
    ensures bound { result ≤ 32 }
{
    if greatest == 0 {
        return 0;
    }
    size_length(source, 4, p)
}

// The end of the id and the size of an object of a declared class.
fn header_end<S: Source>(source: &S, tables: &Loaded, declared: u16, p: u32) -> u64
    ensures { result ≡ header_end (description tables.now) (S.bits source.now) declared p }
{
    let declared = declared as usize;
    let after = u64::from(p) + u64::from(id_width(tables.class(declared)));
    after + size_length_at(source, greatest(tables, declared), after)
}

// Where the bits of an item end; an open's are its id and its size.
pub(crate) fn item_end<S: Source>(source: &S, tables: &Loaded, item: Item) -> u64
    ensures { result ≡ item_end (description tables.now) (S.bits source.now) item }
{
    match item.kind {
        Kind::Value => u64::from(item.place) + u64::from(item.length),
        Kind::Open => header_end(source, tables, declared_at(tables, item.line), item.place),
        Kind::Close => u64::from(item.place),
    }
}
