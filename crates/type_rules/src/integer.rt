ghost use Rattle.std.specs.Prelude.{◌≡◌, ◌+ℤ◌, ◌-ℤ◌, ◌*ℤ◌, ◌≤◌, ℤ, pos, unsigned_abs};
ghost use Rattle.std.specs.Ordering.{int_cmp};
ghost use Rattle.std.specs.Int.{int_min, int_max};
ghost use Rattle.type_rules.specs.Integers.{quotient, remainder, modulo, product_of, power, magnitude, sign};
ghost use Rattle.type_rules.specs.Powers.{IsProduct, FitsAlike};

use lf_base::Trap;
use std::cmp::Ordering;

/// The order of two integers.
pub fn compared(a: i64, b: i64) -> Ordering
    ensures { result ≡ int_cmp a b }
{
    a.cmp(&b)
}

/// The exact sum.
pub fn sum(a: i64, b: i64) -> i128
    ensures { result ≡ a +ℤ b }
{
    i128::from(a) + i128::from(b)
}

/// The exact difference.
pub fn difference(a: i64, b: i64) -> i128
    ensures { result ≡ a -ℤ b }
{
    i128::from(a) - i128::from(b)
}

/// The exact product.
pub fn product(a: i64, b: i64) -> i128
    ensures { result ≡ a *ℤ b }
{
    i128::from(a) * i128::from(b)
}

/// The quotient, truncated toward zero.
pub fn quotient(a: i64, b: i64) -> Result<i128, Trap>
    ensures { result ≡ quotient a b }
{
    if b == 0 {
        return Err(Trap::DivisionByZero);
    }
    Ok(i128::from(a) / i128::from(b))
}

/// The remainder, with the sign of the first.
pub fn remainder(a: i64, b: i64) -> Result<i128, Trap>
    ensures { result ≡ remainder a b }
{
    if b == 0 {
        return Err(Trap::DivisionByZero);
    }
    Ok(i128::from(a) % i128::from(b))
}

/// The remainder, with the sign of the second.
pub fn modulo(a: i64, b: i64) -> Result<i128, Trap>
    ensures { result ≡ modulo a b }
{
    let (a, b) = (i128::from(a), i128::from(b));
    if b == 0 {
        return Err(Trap::DivisionByZero);
    }
    if b < 0 {
        Ok(-(-a).rem_euclid(-b))
    } else {
        Ok(a.rem_euclid(b))
    }
}

/// The magnitude.
pub fn magnitude(a: i64) -> i128
    ensures { result ≡ magnitude a }
{
    let a = i128::from(a);
    if a < 0 { -a } else { a }
}

/// The magnitude of the first with the sign of the second.
pub fn sign(a: i64, b: i64) -> i128
    ensures { result ≡ sign a b }
{
    if b < 0 { -magnitude(a) } else { magnitude(a) }
}

/// The lesser of two integers.
pub fn lesser(a: i64, b: i64) -> i64
    ensures { result ≡ int_min a b }
{
    if b < a { b } else { a }
}

/// The greater of two integers.
pub fn greater(a: i64, b: i64) -> i64
    ensures { result ≡ int_max a b }
{
    if b < a { a } else { b }
}

/// A product of many factors.
#[derive(Clone, Copy)]
struct Multiplied {
    /// The product, if 64 bits hold it.
    held: Option<i64>,
    /// How many multiplications it took.
    multiplications: u64,
}

/// The product of `count` factors, if 64 bits hold it. It multiplies at most 64 times.
fn product_of(factor: i64, count: u64) -> Multiplied
    ensures held { IsProduct result.held (product_of factor count) }
    ensures short { result.multiplications ≤ 64 }
{
    if -1 <= factor && factor <= 1 {
        return Multiplied {
            held: Some(unit_product(factor, count)),
            multiplications: 0,
        };
    }
    greater_product(factor, count)
}

/// The product of `count` factors that are not -1, 0 or 1, if 64 bits hold it.
fn greater_product(factor: i64, count: u64) -> Multiplied
    requires { 2 ≤ unsigned_abs factor }
    ensures held { IsProduct result.held (product_of factor count) }
    ensures short { result.multiplications ≤ 64 }
{
    let mut so_far: i64 = 1;
    for i in 0..count {
        match times(so_far, factor) {
            Some(next) => so_far = next,
            None => {
                return Multiplied {
                    held: None,
                    multiplications: i + 1,
                };
            }
        }
    }
    Multiplied {
        held: Some(so_far),
        multiplications: count,
    }
}

/// The product of `count` factors that are -1, 0 or 1.
fn unit_product(factor: i64, count: u64) -> i64
    requires { unsigned_abs factor ≤ 1 }
    ensures { result ≡ product_of factor count }
{
    if factor == 0 {
        return if count == 0 { 1 } else { 0 };
    }
    if factor == 1 {
        return 1;
    }
    if count % 2 == 0 { 1 } else { -1 }
}

/// The product, if 64 bits hold it.
fn times(a: i64, b: i64) -> Option<i64>
    ensures { IsProduct result (a *ℤ b) }
{
    let exact = product(a, b);
    if i128::from(i64::MIN) <= exact && exact <= i128::from(i64::MAX) {
        return Some(exact as i64);
    }
    None
}

/// The quotient of 1 and a product. One that 64 bits do not hold gives zero.
fn inverse(product: Option<i64>) -> Result<i128, Trap>
    ensures { (exact : ℤ) → IsProduct product exact → result ≡ quotient (pos 1) exact }
{
    match product {
        Some(product) => quotient(1, product),
        None => Ok(0),
    }
}

/// The power, where 64 bits hold it, else an overflow.
pub fn power(a: i64, b: i64) -> Result<i128, Trap>
    ensures { FitsAlike result (power a b) }
{
    let product = product_of(a, b.unsigned_abs());
    if b < 0 {
        return inverse(product.held);
    }
    match product.held {
        Some(product) => Ok(i128::from(product)),
        None => Err(Trap::IntegerOverflow),
    }
}
