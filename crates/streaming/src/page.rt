ghost use Rattle.std.specs.Prelude.{◌≡◌, ◌+◌, ◌*◌, ◌-◌, ◌≤◌, length};
ghost use Rattle.bits.specs.Get.{get_answer};
ghost use Rattle.bits.specs.Make.{most_bytes};
ghost use Rattle.streaming.specs.Pages.{page_bits, page_short};

use crate::zeros::Zeros;
use bits::bytes::Bytes;
use bits::join::Join;
use bits::place::check_place;
use bits::refusal::Refusal;
use bits::source::Source;

// Some bytes of a stream of `total` bytes, from number `first` on. As a source it has the stream's length, and 0 where
// it has no byte.
#[derive(Drop)]
pub(crate) struct Page<'a> {
    pub(crate) total: u32,
    pub(crate) first: u32,
    pub(crate) bytes: &'a [u8],
    ghost inside: { first + length bytes.now ≤ total },
    ghost few: { total ≤ most_bytes },
}

impl Page<'_> {
    // Which byte is the page's first, and how many it has.
    pub(crate) fn first(&self) -> u32
        ensures { result ≡ self.now.first }
    {
        self.first
    }

    pub(crate) fn count(&self) -> u32
        ensures { result ≡ length self.now.bytes.now }
    {
        self.bytes.len() as u32
    }

    // The bits from a place that are not all the page's own.
    fn get_across(&self, p: u32, n: u32) -> Result<u64, Refusal>
        ensures { result ≡ get_answer (page_bits self.now.total self.now.first self.now.bytes.now) p n }
    {
        let after = self.total - self.first - self.bytes.len() as u32;
        let back = Join::new(Bytes::new(self.bytes)?, Zeros { count: 8 * after })?;
        let whole = Join::new(
            Zeros {
                count: 8 * self.first,
            },
            back,
        )?;
        whole.get(p, n)
    }
}

impl Source for Page<'_> {
    ghost bits = { λ p. page_bits p.total p.first p.bytes.now };

    ghost short = { λ p. page_short p.total p.first p.bytes.now p.inside p.few };

    fn length(&self) -> u32 {
        8 * self.total
    }

    fn get(&self, p: u32, n: u32) -> Result<u64, Refusal> {
        let own = 8 * self.first;
        if p >= own && u64::from(p) + u64::from(n) <= u64::from(own) + 8 * self.bytes.len() as u64 {
            return Bytes::new(self.bytes)?.get(p - own, n);
        }
        self.get_across(p, n)
    }
}
