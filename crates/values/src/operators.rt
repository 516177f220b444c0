// The operators on values. A value lies from -2,147,483,648 to 4,294,967,295.
ghost use Rattle.std.specs.Prelude.{◌≡◌, ℤ, pos, ◌≤◌, ◌||◌, cond, int_lt, int_div, unsigned_abs, Ok, Err, IfOk, SomeIff};
ghost use Rattle.std.specs.Int.{w64, CanDivide};
ghost use Rattle.rules.specs.declared.faults.ReadingCause.TheVariants.{ZeroDivisor, BadOperand};
ghost use Rattle.rules.specs.Values.{ranged, flag, is_zero, applied};
ghost use Rattle.values.specs.Operations.{Checked};

use rules::faults::ReadingCause;
use rules::terms::Operator;

const LOWEST: i64 = -2147483648;

const HIGHEST: i64 = 4294967295;

// A value in the range.
fn ranged(v: i64) -> Result<i64, ReadingCause>
    ensures { result ≡ ranged v }
{
    if (LOWEST..=HIGHEST).contains(&v) {
        Ok(v)
    } else {
        Err(ReadingCause::OutOfRange)
    }
}

// The value z of a checked operation, which gives none only where z is far out of range.
fn checked(v: Option<i64>) -> Result<i64, ReadingCause>
    ensures { (z : ℤ) → Checked v z → result ≡ ranged z }
{
    ranged(v.ok_or(ReadingCause::OutOfRange)?)
}

// A divisor, which may not be 0.
fn divisor(y: i64) -> Result<i64, ReadingCause>
    ensures { result ≡ cond (is_zero y) (Err ZeroDivisor) (Ok y) }
{
    if is_zero(y) {
        return Err(ReadingCause::ZeroDivisor);
    }
    Ok(y)
}

// The quotient of two numbers, rounded towards 0; none where there is none of 64 bits.
fn quotient(x: i64, y: i64) -> Option<i64>
    ensures { SomeIff result (CanDivide w64 x y) (int_div x y) }
{
    x.checked_div(y)
}

// How far to shift: from 0 to 31.
fn shift(y: i64) -> Result<u32, ReadingCause>
    ensures value { result ≡ cond (int_lt y (pos 0) || int_lt (pos 31) y) (Err BadOperand) (Ok (unsigned_abs y)) }
    ensures bound { IfOk result (λ n. n ≤ 31) }
{
    if !(0..=31).contains(&y) {
        return Err(ReadingCause::BadOperand);
    }
    Ok(y as u32)
}

// An operand as bits: it may not be negative.
fn bits(x: i64) -> Result<i64, ReadingCause>
    ensures { result ≡ cond (int_lt x (pos 0)) (Err BadOperand) (Ok x) }
{
    if x < 0 {
        return Err(ReadingCause::BadOperand);
    }
    Ok(x)
}

// A test gives 1 or 0.
fn flag(test: bool) -> Result<i64, ReadingCause>
    ensures { result ≡ flag test }
{
    Ok(i64::from(test))
}

// Whether a value is 0, which is false.
pub fn is_zero(value: i64) -> bool
    ensures { result ≡ is_zero value }
{
    value == 0
}

// What an operator gives of two values. One match over a closed set: a table of functions would be searched by the
// same number.
pub fn apply(operator: Operator, x: i64, y: i64) -> Result<i64, ReadingCause>
    ensures { result ≡ applied operator x y }
{
    match operator {
        Operator::Multiply => checked(x.checked_mul(y)),
        Operator::Divide => checked(quotient(x, divisor(y)?)),
        Operator::Remainder => ranged(x.checked_rem(divisor(y)?).unwrap_or(0)),
        Operator::Add => checked(x.checked_add(y)),
        Operator::Subtract => checked(x.checked_sub(y)),
        Operator::ShiftLeft => checked(x.checked_mul(1 << shift(y)?)),
        Operator::ShiftRight => ranged(x >> shift(y)?),
        Operator::Less => flag(x < y),
        Operator::AtMost => flag(x <= y),
        Operator::Greater => flag(y < x),
        Operator::AtLeast => flag(y <= x),
        Operator::Equal => flag(x == y),
        Operator::Unequal => flag(x != y),
        Operator::BitAnd => ranged(bits(x)? & bits(y)?),
        Operator::BitOr => ranged(bits(x)? | bits(y)?),
        Operator::And => flag(!is_zero(x) && !is_zero(y)),
        Operator::Or => flag(!is_zero(x) || !is_zero(y)),
    }
}
