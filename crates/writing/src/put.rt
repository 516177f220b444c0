// Putting items.
ghost use Rattle.std.specs.Prelude.{◌≡◌, ◌*◌, length, nat_le};
ghost use Rattle.writing.specs.Calls.{HasRoom, PutCalled};
ghost use Rattle.writing.specs.Tries.{Taken, is_neat};

use crate::refusal::WritingRefusal;
use crate::state::Writing;
use pending::own::own_bits;
use pending::store::store_bits;
use pending::trial::Trial;
use rules::items::{Item, Kind};

// Whether an item is of a known class and, if it is a close, at most seven bits before it are unread.
fn is_neat(item: Item, written: u32) -> bool
    ensures { result ≡ is_neat item written }
{
    item.class != 0 && (item.kind != Kind::Close || u64::from(item.place) <= u64::from(written) + 7)
}

impl Writing {
    // Whether a buffer has room for the stream.
    pub(crate) fn has_room(&self, buffer: &[u8]) -> bool
        ensures { result ≡ nat_le self.now.total (length buffer.now * 8) }
    {
        buffer.len() >= self.total.div_ceil(8) as usize
    }

    // Takes an item where it may come next, and stores what it appends.
    fn take(&mut self, item: Item, buffer: &mut [u8]) -> bool
        requires { HasRoom self.old buffer.old }
        ensures { Taken self.old item buffer.old result self.new buffer.new }
    {
        if !is_neat(item, self.written) {
            return false;
        }
        let Some(own) = own_bits(self.checked.tables(), item) else {
            return false;
        };
        let trial = Trial {
            length: self.total,
            place: item.place,
            own,
        };
        if !self.walk.offer(&trial, self.checked.tables(), item) {
            return false;
        }
        let end = item.place + own.width;
        store_bits(buffer, &trial, self.written, end);
        self.written = end;
        true
    }

    // Puts an item: stores what it appends. Refuses `ShortBuffer`, then `NotNext`.
    pub fn put(&mut self, item: Item, buffer: &mut [u8]) -> Result<(), WritingRefusal>
        ensures { PutCalled self.old item buffer.old result self.new buffer.new }
    {
        if !self.has_room(buffer) {
            return Err(WritingRefusal::ShortBuffer);
        }
        if self.take(item, buffer) {
            return Ok(());
        }
        Err(WritingRefusal::NotNext)
    }
}
