//! Numbers in groups of seven bits, the lowest group first. Every group but the last has its top bit set.

ghost use Rattle.std.specs.Prelude.{◌≤◌, IfOk, length};
ghost use Rattle.byte_fields.specs.Numbers.{number_at, Gives};

/// What is wrong with a number.
#[derive(Clone, Copy, Debug, PartialEq, Eq)]
pub enum NumberFault {
    /// The bytes end within it.
    Short,
    /// Its last group is 0 and another stands before it, or it has more than 64 bits.
    Long,
}

/// The number at the front, and the bytes after it. At most `more` groups may follow its first one.
#[tactic(auto, unfolding(crate::specs::Numbers::number_at))]
pub fn number_of(bytes: &[u8], more: u32) -> Result<(u64, &[u8]), NumberFault>
    requires { more ≤ 9 }
    ensures gives { Gives (λ x. (x.0, x.1.now)) result (number_at more bytes.now) }
    ensures rest { IfOk result (λ x. length x.1.now ≤ length bytes.now) }
{
    let [group, rest @ ..] = bytes else {
        return Err(NumberFault::Short);
    };
    let group = u64::from(*group);
    if more == 0 {
        return if group > 1 {
            Err(NumberFault::Long)
        } else {
            Ok((group, rest))
        };
    }
    if group < 128 {
        return Ok((group, rest));
    }
    let (high, rest) = number_of(rest, more - 1)?;
    if high == 0 {
        return Err(NumberFault::Long);
    }
    Ok((group - 128 + 128 * high, rest))
}
