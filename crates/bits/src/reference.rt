use crate::refusal::Refusal;
use crate::source::Source;

// A shared reference to a source is a source of the same bits.
impl<S: Source> Source for &S {
    ghost bits = { λ s. S.bits s.now };

    ghost short = { λ s. S.short s.now };

    fn length(&self) -> u32 {
        (**self).length()
    }

    fn get(&self, p: u32, n: u32) -> Result<u64, Refusal> {
        (**self).get(p, n)
    }
}
