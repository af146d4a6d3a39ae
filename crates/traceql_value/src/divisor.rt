//! The greatest common divisor, by which fractions are brought to lowest terms.

ghost use Rattle.std.specs.Prelude.{◌<◌};
ghost use Rattle.std.specs.Int.{IsGcd};

/// The greatest number that divides both, by Euclid's algorithm.
pub fn common_divisor(a: u128, b: u128) -> u128
    ensures { IsGcd a b result }
{
    let mut x = a;
    let mut y = b;
    'steps: while y != 0 {
        let rest = x % y;
        x = y;
        y = rest;
    }
    x
}
