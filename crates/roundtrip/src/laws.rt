// Each law stands on the contract of a function, so that it is proved.
ghost use Rattle.std.specs.Prelude.{◌≡◌, true};
ghost use Rattle.roundtrip.specs.Least.{Least, Looks};
ghost use Rattle.roundtrip.specs.Rule.{FinishLaw, NewerLaw, RuleLaw};
ghost use Rattle.roundtrip.specs.Standing.{LocalLaw};
ghost use Rattle.roundtrip.specs.Trial.{TrialHolds};
ghost use Rattle.roundtrip.specs.Writing.{StandingLaw, TestLaw, WritingLaw};

// What a writing may put next, and what it then appends.
pub fn writing_law() -> bool
    ensures answer { result ≡ true }
    ensures unseen { LocalLaw }
    ensures standing { StandingLaw }
    ensures tested { TestLaw }
    ensures written { WritingLaw }
    ensures ruled { RuleLaw }
    ensures finished { FinishLaw }
    ensures newer { NewerLaw }
    ensures fewest { Least }
    ensures looks { Looks }
    ensures tried { TrialHolds }
{
    true
}
