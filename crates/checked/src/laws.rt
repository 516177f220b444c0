// What follows for a description without a fault.
ghost use Rattle.checked.specs.Chains.{ChainsLaw};
ghost use Rattle.checked.specs.Faultless.{FaultlessLaw, NestsLaw, OwnsLaw};
ghost use Rattle.checked.specs.Sound.{SoundLaw, RankedLaw};

// No rule is broken at any record; blocks nest at most 8 deep inside what holds them; names belong to the lines that
// take them; what records name is there; used classes rank below their users; at most 16 objects stand inside one
// another.
pub fn laws_of_checked() -> u8
    ensures faultless { FaultlessLaw }
    ensures nests { NestsLaw }
    ensures owns { OwnsLaw }
    ensures sound { SoundLaw }
    ensures ranked { RankedLaw }
    ensures chains { ChainsLaw }
{
    0
}
