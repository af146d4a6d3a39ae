//! Exact fractions, and their arithmetic within 64 bits.

ghost use Rattle.std.specs.Prelude.{◌≡◌, ◌≢◌, ℤ, pos, ◌*ℤ◌, neg_ℤ, ◌<◌, ◌≤◌, ◌-◌, ◌*◌, ◌^◌, unsigned_abs, int_rem, FitsSigned, IfSome, IfNone, IsNone};
ghost use Rattle.std.specs.Int.{w64};
ghost use Rattle.std.specs.Option.{SomeIff};
ghost use Rattle.traceql_value.specs.Fractions.{IsRatio, IsRatioOf, NoneIsQuotient, Compares, HaveRemainder, HavePower, power_of, whole_fraction, under, over_sum, over_difference};
ghost use Rattle.traceql_value.specs.Arithmetic.{ratio_of, sum_of, difference_of, product_of, quotient_of, remainder_of, power_within, negative_of, fraction_cmp};

use crate::divisor::common_divisor;
use crate::power::whole_power;
use std::cmp::Ordering;
use std::marker::Model;

/// A fraction in lowest terms, with a numerator of 64 signed bits and a denominator from 1 to 2^63 - 1.
#[derive(Clone, Copy, PartialEq, Eq)]
pub struct Ratio {
    numerator: i64,
    denominator: u64,
}

impl Model for Ratio {
    ghost use Rattle.traceql_value.specs.Fractions.{Fraction, IsRatio};

    ghost Value = { Fraction };

    ghost view = { λ r. record { numerator = r.numerator; denominator = r.denominator } };

    ghost invariant = { λ r. IsRatio (record { numerator = r.numerator; denominator = r.denominator }) };

    ghost inverse = { λ f. record { numerator = f.numerator; denominator = f.denominator } };
}

/// A numerator, brought to a denominator that is so many times as great.
fn widened(numerator: i64, times: u64) -> i128
    requires { times < 2 ^ 63 }
    ensures value { result ≡ numerator *ℤ pos times }
    ensures bound { unsigned_abs result ≤ 2 ^ 63 * (2 ^ 63 - 1) }
{
    i128::from(numerator) * i128::from(times)
}

impl Ratio {
    /// A whole number.
    pub fn whole(value: i64) -> Ratio
        ensures value { result ≡ record { numerator = value; denominator = 1 } }
        ensures ratio { IsRatio result }
    {
        Ratio {
            numerator: value,
            denominator: 1,
        }
    }

    /// The numerator in lowest terms.
    pub fn numerator(self) -> i64
        ensures value { result ≡ self.numerator }
        ensures ratio { IsRatio self }
    {
        self.numerator
    }

    /// The denominator in lowest terms.
    pub fn denominator(self) -> u64
        ensures value { result ≡ self.denominator }
        ensures ratio { IsRatio self }
    {
        self.denominator
    }

    /// The number with the other sign. `None` where that is outside of the bounds.
    pub fn neg(self) -> Option<Ratio>
        ensures value { IfSome result (IsRatioOf (neg_ℤ self.numerator) (pos self.denominator)) }
        ensures nil { IfNone result (NoneIsQuotient (neg_ℤ self.numerator) (pos self.denominator)) }
        ensures exact { result ≡ negative_of self }
    {
        let numerator = self.numerator.checked_neg()?;
        Some(Ratio {
            numerator,
            denominator: self.denominator,
        })
    }

    /// Which of two numbers is less, exactly.
    pub fn compare(self, other: Ratio) -> Ordering
        ensures compares { Compares self other result }
        ensures exact { result ≡ fraction_cmp self other }
    {
        let left = widened(self.numerator, other.denominator);
        let right = widened(other.numerator, self.denominator);
        left.cmp(&right)
    }

    /// The product. `None` where it is outside of the bounds.
    pub fn mul(self, other: Ratio) -> Option<Ratio>
        ensures value { IfSome result
            (IsRatioOf (self.numerator *ℤ other.numerator) (under self other)) }
        ensures nil { IfNone result
            (NoneIsQuotient (self.numerator *ℤ other.numerator) (under self other)) }
        ensures exact { result ≡ product_of self other }
    {
        let up = i128::from(self.numerator) * i128::from(other.numerator);
        Ratio::of(
            up,
            u128::from(self.denominator) * u128::from(other.denominator),
        )
    }

    /// The sum. `None` where it is outside of the bounds.
    pub fn add(self, other: Ratio) -> Option<Ratio>
        ensures value { IfSome result (IsRatioOf (over_sum self other) (under self other)) }
        ensures nil { IfNone result (NoneIsQuotient (over_sum self other) (under self other)) }
        ensures exact { result ≡ sum_of self other }
    {
        let left = widened(self.numerator, other.denominator);
        let right = widened(other.numerator, self.denominator);
        Ratio::of(
            left + right,
            u128::from(self.denominator) * u128::from(other.denominator),
        )
    }

    /// The difference. `None` where it is outside of the bounds.
    pub fn sub(self, other: Ratio) -> Option<Ratio>
        ensures value { IfSome result (IsRatioOf (over_difference self other) (under self other)) }
        ensures nil { IfNone result
            (NoneIsQuotient (over_difference self other) (under self other)) }
        ensures exact { result ≡ difference_of self other }
    {
        let left = widened(self.numerator, other.denominator);
        let right = widened(other.numerator, self.denominator);
        Ratio::of(
            left - right,
            u128::from(self.denominator) * u128::from(other.denominator),
        )
    }

    /// The quotient. `None` where it is outside of the bounds, or the other number is 0.
    pub fn div(self, other: Ratio) -> Option<Ratio>
        ensures zero { other.numerator ≡ pos 0 → IsNone result }
        ensures value { IfSome result
            (IsRatioOf (self.numerator *ℤ pos other.denominator)
            (other.numerator *ℤ pos self.denominator)) }
        ensures nil { other.numerator ≢ pos 0
            → IfNone result (NoneIsQuotient (self.numerator *ℤ pos other.denominator)
            (other.numerator *ℤ pos self.denominator)) }
        ensures exact { result ≡ quotient_of self other }
    {
        if other.numerator == 0 {
            return None;
        }
        let up = widened(self.numerator, other.denominator);
        let down = widened(other.numerator, self.denominator);
        Ratio::quotient(up, down)
    }

    /// The remainder of whole numbers, with the sign of the first. `None` where one isn't whole, or the other is 0.
    pub fn rem(self, other: Ratio) -> Option<Ratio>
        ensures value { SomeIff result (HaveRemainder self other)
            (whole_fraction (int_rem self.numerator other.numerator)) }
        ensures ratio { IfSome result IsRatio }
        ensures exact { result ≡ remainder_of self other }
    {
        if self.denominator != 1 || other.denominator != 1 || other.numerator == 0 {
            return None;
        }
        Some(Ratio::whole(self.numerator.wrapping_rem(other.numerator)))
    }

    /// The power of whole numbers; the power 0 is 1. `None` where one isn't whole, where the exponent is negative, or
    /// where the power is outside of the bounds.
    pub fn pow(self, other: Ratio) -> Option<Ratio>
        ensures value { SomeIff result (HavePower self other × FitsSigned w64 (power_of self other))
            (whole_fraction (power_of self other)) }
        ensures ratio { IfSome result IsRatio }
        ensures exact { result ≡ power_within self other }
    {
        if self.denominator != 1 || other.denominator != 1 || other.numerator < 0 {
            return None;
        }
        let power = whole_power(self.numerator, other.numerator as u64)?;
        Some(Ratio::whole(power))
    }

    /// The quotient of two whole numbers, of either sign, where it is within the bounds.
    fn quotient(numerator: i128, denominator: i128) -> Option<Ratio>
        requires some { denominator ≢ pos 0 }
        requires above { unsigned_abs numerator < 2 ^ 127 }
        requires below { unsigned_abs denominator < 2 ^ 127 }
        ensures value { IfSome result (IsRatioOf numerator denominator) }
        ensures nil { IfNone result (NoneIsQuotient numerator denominator) }
        ensures exact { result ≡ ratio_of numerator denominator }
    {
        if denominator < 0 {
            return Ratio::of(-numerator, denominator.unsigned_abs());
        }
        Ratio::of(numerator, denominator.unsigned_abs())
    }

    /// The quotient of two whole numbers, where it is within the bounds.
    fn of(numerator: i128, denominator: u128) -> Option<Ratio>
        requires above { 0 < denominator }
        requires below { denominator < 2 ^ 127 }
        ensures value { IfSome result (IsRatioOf numerator (pos denominator)) }
        ensures nil { IfNone result (NoneIsQuotient numerator (pos denominator)) }
        ensures exact { result ≡ ratio_of numerator (pos denominator) }
    {
        Ratio::reduced(numerator, denominator)
    }

    /// The same, by the greatest common divisor.
    fn reduced(numerator: i128, denominator: u128) -> Option<Ratio>
        requires above { 0 < denominator }
        requires below { denominator < 2 ^ 127 }
        ensures value { IfSome result (IsRatioOf numerator (pos denominator)) }
        ensures nil { IfNone result (NoneIsQuotient numerator (pos denominator)) }
    {
        let common = common_divisor(numerator.unsigned_abs(), denominator);
        let down = denominator / common;
        if down > i64::MAX as u128 {
            return None;
        }
        let Ok(up) = i64::try_from(numerator / common as i128) else {
            return None;
        };
        Some(Ratio {
            numerator: up,
            denominator: down as u64,
        })
    }
}
