ghost use Rattle.std.specs.Prelude.{◌≡◌, ◌+◌, ◌≤◌, length};
ghost use Rattle.bits.specs.Make.{most_bytes};
ghost use Rattle.streaming.specs.Making.{Pages};

use crate::page::Page;

impl<'a> Page<'a> {
    // The page, or none where the bytes do not lie in the stream.
    pub(crate) fn new(total: u32, first: u32, bytes: &'a [u8]) -> Option<Page<'a>>
        requires { total ≤ most_bytes }
        ensures { Pages total first bytes.now result }
    {
        if u64::from(first) + bytes.len() as u64 > u64::from(total) {
            return None;
        }
        Some(Page {
            total,
            first,
            bytes,
        })
    }
}
