ghost use Rattle.bits.specs.Laws.{Laws};

// Its contract states the laws of lists of bits that the layers above rest on.
pub fn laws_hold() -> u8
    ensures { Laws }
{
    0
}
