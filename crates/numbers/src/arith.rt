// Signed 32-bit numbers. Negation and the quotient are computed at 32 bits, where the smallest number alone can leave the range; a sum, a
// difference and a product at 64 bits, where nothing is lost, and brought back by one test of the range: with `checked_add`, `checked_sub` and
// `checked_mul` each takes three instructions more in a step.
ghost use Rattle.std.specs.Prelude.{◌≡◌, neg_ℤ, nat_abs};
ghost use Rattle.numbers.specs.Numbers.{in_range, calculate, truth, divide};
ghost use Rattle.numbers.specs.inner.Coded.{as_result, as_two_sided};

use endings::Ending;

#[derive(Clone, Copy, PartialEq, Eq, Debug)]
pub enum Operator {
    Plus,
    Minus,
    Times,
    Divide,
    Equals,
    Smaller,
    Greater,
}

pub fn in_range(z: i64) -> Result<i32, Ending>
    ensures { as_result result ≡ in_range z }
{
    i32::try_from(z).map_err(|_| Ending::OutsideRange)
}

pub fn negated(v: i32) -> Result<i32, Ending>
    ensures { as_result result ≡ in_range (neg_ℤ v) }
{
    v.checked_neg().ok_or(Ending::OutsideRange)
}

// Toward zero. Only the smallest number over minus one leaves the range.
fn quotient(a: i32, b: i32) -> Result<i32, Ending>
    ensures { as_result result ≡ calculate divide a b }
{
    if b == 0 {
        return Err(Ending::DivisionBy0);
    }
    a.checked_div(b).ok_or(Ending::OutsideRange)
}

pub fn truth(t: bool) -> i32
    ensures { result ≡ truth t }
{
    i32::from(t)
}

pub fn calculate(k: Operator, a: i32, b: i32) -> Result<i32, Ending>
    ensures { as_result result ≡ calculate (as_two_sided k) a b }
{
    let x = i64::from(a);
    let y = i64::from(b);
    match k {
        Operator::Plus => in_range(x + y),
        Operator::Minus => in_range(x - y),
        Operator::Times => in_range(x * y),
        Operator::Divide => quotient(a, b),
        Operator::Equals => Ok(truth(a == b)),
        Operator::Smaller => Ok(truth(a < b)),
        Operator::Greater => Ok(truth(b < a)),
    }
}

// The distance from zero.
pub fn distance(v: i32) -> u32
    ensures { result ≡ nat_abs v }
{
    v.unsigned_abs()
}
