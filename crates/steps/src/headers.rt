ghost use Rattle.std.specs.Prelude.{◌≡◌, ℕ, ◌+◌, ◌*◌, ◌^◌, ◌<◌, ◌≤◌, IfOk, if◌then◌else◌, nat_eq};
ghost use Rattle.rules.specs.Steps.{size_bytes, sized, header};

use crate::view::View;
use bits::source::Source;
use records::records::Class;
use rules::faults::{Failure, ReadingCause};
use rules::lookups::id_width;
use rules::steps::Header;

// How an object with a greatest size is aligned: to 8 if it is expandable.
fn alignment(greatest: u16) -> u16
    ensures { result ≡ (if nat_eq greatest 0 then 0 else 8) }
{
    if greatest == 0 { 0 } else { 8 }
}

impl<S: Source> View<'_, S> {
    // A size of at most `left` bytes after those that give `high`, and the place after it.
    #[inline(always)]
    #[cycle(more_size_bytes)]
    fn size_bytes(&self, left: u32, high: u32, p: u32) -> Result<(u32, u32), Failure>
        requires room { (high + 1) * 128 ^ left ≤ 268435456 }
        ensures value { result ≡ size_bytes (S.bits self.now.source.now) self.now.window left high p }
        ensures bound { IfOk result (λ s. (s.0 < 268435456) × (p ≤ s.1) × (s.1 ≤ self.now.window.end)) }
    {
        if left == 0 {
            return Err(ReadingCause::Size.into());
        }
        let byte = self.taken(8, p)? as u32;
        if byte < 128 {
            return Ok((high * 128 + byte, p + 8));
        }
        self.more_bytes(left - 1, high * 128 + byte % 128, p + 8)
    }

    // The same after a first byte. Apart from it, which then stands where it is called: most sizes have one byte.
    #[inline(never)]
    #[cycle(more_size_bytes)]
    fn more_bytes(&self, left: u32, high: u32, p: u32) -> Result<(u32, u32), Failure>
        requires room { (high + 1) * 128 ^ left ≤ 268435456 }
        ensures value { result ≡ size_bytes (S.bits self.now.source.now) self.now.window left high p }
        ensures bound { IfOk result (λ s. (s.0 < 268435456) × (p ≤ s.1) × (s.1 ≤ self.now.window.end)) }
    {
        self.size_bytes(left, high, p)
    }

    // The size of an object whose greatest size is given, and the place after it.
    fn sized(&self, greatest: u16, p: u32) -> Result<(u32, u32), Failure>
        requires place { p ≤ self.now.window.end }
        ensures value { result ≡ sized (S.bits self.now.source.now) self.now.window greatest p }
        ensures bound { IfOk result (λ s. (s.0 ≤ greatest) × (p ≤ s.1) × (s.1 + 8 * s.0 ≤ self.now.window.end)) }
    {
        if greatest == 0 {
            return Ok((0, p));
        }
        let (size, after) = self.size_bytes(4, 0, p)?;
        if size > greatest as u32 {
            return Err(ReadingCause::Size.into());
        }
        if after + 8 * size > self.window.end {
            return Err(ReadingCause::PastWindow.into());
        }
        Ok((size, after))
    }

    // The beginning of an object of a declared class: aligned to 8 if expandable, the id in a family, the size if
    // expandable.
    #[inline(always)]
    pub fn header(&self, declared: Class, greatest: u16, p: u32) -> Result<Header, Failure>
        requires place { p ≤ 2147483647 }
        requires width { declared.width ≤ 16 }
        ensures value { result ≡ header (S.bits self.now.source.now) self.now.window declared greatest p }
        ensures bound { IfOk result (λ h. (p ≤ h.place) × (h.place ≤ h.after) × (h.after + 8 * h.size ≤ self.now.window.end)) }
    {
        let place = self.aligned(alignment(greatest), p)?;
        let width = id_width(declared) as u32;
        let id = self.taken(width, place)? as u16;
        let (size, after) = self.sized(greatest, place + width)?;
        Ok(Header {
            id,
            size,
            place,
            after,
        })
    }
}
