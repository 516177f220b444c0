ghost use Rattle.std.specs.Prelude.{◌≡◌, ℕ, ◌≤◌, Bool};
ghost use Rattle.table.specs.First.{first_upto, some_upto, count_upto};
ghost use Rattle.table.specs.Tests.{Answers};

// The first of the numbers 1 to `count` that passes the test. They are made from 0..count, since over 1..=count the
// program that checks a description takes half as many instructions again.
pub fn first<F: Fn(usize) -> bool>(count: usize, test: F) -> Option<usize>
    requires { F.IsAlwaysCallable test }
    ensures { (p : ℕ → Bool) → Answers F.post test p → result ≡ first_upto p count }
{
    (0..count).map(|i| i + 1).find(|n| test(*n))
}

// Whether one of them passes.
pub fn some<F: Fn(usize) -> bool>(count: usize, test: F) -> bool
    requires { F.IsAlwaysCallable test }
    ensures { (p : ℕ → Bool) → Answers F.post test p → result ≡ some_upto p count }
{
    first(count, test).is_some()
}

// How many of them pass.
pub fn count<F: Fn(usize) -> bool>(count: usize, test: F) -> usize
    requires { F.IsAlwaysCallable test }
    ensures value { (p : ℕ → Bool) → Answers F.post test p → result ≡ count_upto p count }
    ensures bound { result ≤ count }
{
    (0..count).map(|i| i + 1).filter(|n| test(*n)).count()
}
