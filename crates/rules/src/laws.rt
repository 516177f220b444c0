// The laws of readings: each stands on the contract of a function, so that it is proved.
ghost use Rattle.std.specs.Prelude.{◌≡◌, true};
ghost use Rattle.rules.specs.Code.{CodeLaw};
ghost use Rattle.rules.specs.Growth.{CopyLaw, DepthLaw, GrownMeans, GrowthLaw, PartsLaw};
ghost use Rattle.rules.specs.Order.{BitsLaw, BytesLaw, OrderLaw, WindowLaw};
ghost use Rattle.rules.specs.Ranks.{FaultsKnown};
ghost use Rattle.rules.specs.Sample.{CasesHold};
ghost use Rattle.rules.specs.Tidy.{TidyLaw};
ghost use Rattle.rules.specs.Values.{OperatorsLaw, ValueLaw};

// The sample and the edge cases, by one proof over their list.
pub fn cases_hold() -> bool
    ensures answer { result ≡ true }
    ensures law { CasesHold }
{
    true
}

// A newer description reads what an older one reads, but for what is struck.
pub fn growth_law() -> bool
    ensures answer { result ≡ true }
    ensures means { GrownMeans }
    ensures whole { GrowthLaw }
    ensures parts { PartsLaw }
    ensures copies { CopyLaw }
    ensures depth { DepthLaw }
{
    true
}

// At most 16 objects are open at once, and each fault has a number from 11 to 25.
pub fn faults_known() -> bool
    ensures answer { result ≡ true }
    ensures law { FaultsKnown }
{
    true
}

// The items of a reading nest, at most 16 objects are open, places never go back nor pass the window's end, values
// lie within their bits, expandable objects begin and end on byte boundaries, and nothing but the source's bits
// counts.
pub fn order_law() -> bool
    ensures answer { result ≡ true }
    ensures items { OrderLaw }
    ensures windows { WindowLaw }
    ensures bytes { BytesLaw }
    ensures alone { BitsLaw }
{
    true
}

// What an operator gives lies in the range of numbers.
pub fn operators_law() -> bool
    ensures answer { result ≡ true }
    ensures law { OperatorsLaw }
{
    true
}

// A tidy reading that ends is the reading; one that need not be tidy is the reading.
pub fn tidy_law() -> bool
    ensures answer { result ≡ true }
    ensures law { TidyLaw }
{
    true
}

// Code and values by their recursion equations.
pub fn equations_law() -> bool
    ensures answer { result ≡ true }
    ensures code { CodeLaw }
    ensures values { ValueLaw }
{
    true
}
