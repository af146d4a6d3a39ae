//! Powers of whole numbers, for the operator `^`.

ghost use Rattle.std.specs.Prelude.{FitsSigned};
ghost use Rattle.std.specs.Int.{w64, int_pow};
ghost use Rattle.std.specs.Option.{SomeIff};

/// The power, where it has 64 signed bits. The power 0 is 1.
pub fn whole_power(base: i64, exponent: u64) -> Option<i64>
    ensures { SomeIff result (FitsSigned w64 (int_pow base exponent)) (int_pow base exponent) }
{
    if let Ok(few) = u32::try_from(exponent) {
        return base.checked_pow(few);
    }
    // The power of any other base left 64 bits long before such an exponent.
    if base == 0 || base == 1 {
        return Some(base);
    }
    if base == -1 {
        return Some(if exponent % 2 == 0 { 1 } else { -1 });
    }
    None
}
