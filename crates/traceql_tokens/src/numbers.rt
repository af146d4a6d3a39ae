//! Numbers and durations: bytes to a token, with sums in decimal digits, so that no rounding comes between.

ghost use Rattle.std.specs.Prelude.{◌≡◌, ◌==◌, ◌+◌, ◌-◌, ◌*◌, ◌^◌, ◌<◌, ◌≤◌, ℕ, List, [], ◌∷◌, ◌++◌, All, IfOk, IfSome, OnOk, length, fold, min, slice_index, option_map};
ghost use Rattle.std.specs.List.{list_all};
ghost use Rattle.traceql_tokens.specs.Bytes.{AreDigits, decimal};
ghost use Rattle.traceql_tokens.specs.NumberWalk.{whole_at, after_whole, after_fraction, fraction_at, part_at, part_len, number_kind, duration_kind, duration_at, plain_at, number_at};
ghost use Rattle.traceql_tokens.specs.Numbers.{LIMIT, Part as ThePart, places, scaled};
ghost use Rattle.traceql_tokens.specs.Sums.{AreColumns, column_value, Holds, part_of};

use crate::runs::digits_len;
use crate::tables::unit_at;
use crate::{Class, Fault, TimeUnit, TokenKind};
use span_types::Memory;
use std::alloc::Global;

/// The least number that is out of range, 2^63.
const OUT_OF_RANGE: u64 = 0x8000_0000_0000_0000;

/// A part of a duration: digits, the digits after its dot or none, and a unit; and how many bytes it has.
#[derive(Clone, Copy)]
struct Part<'a> {
    whole: &'a [u8],
    fraction: &'a [u8],
    unit: TimeUnit,
    len: usize,
}

/// The digits that the bytes begin with, and the bytes after them.
#[tactic(auto, using(crate::proofs::NumberSteps::digit_facts))]
fn digits_at(bytes: &[u8]) -> (&[u8], &[u8])
    ensures digits { result.0.now ≡ whole_at bytes.now }
    ensures rest { result.1.now ≡ after_whole bytes.now }
    ensures all { AreDigits result.0.now }
{
    bytes.split_at(digits_len(bytes))
}

/// The digits after a dot that the bytes begin with, or none, and the bytes after them.
#[tactic(auto, using(crate::proofs::NumberSteps::fraction_facts))]
fn fraction_at(bytes: &[u8]) -> (&[u8], &[u8])
    ensures digits { result.0.now ≡ fraction_at bytes.now }
    ensures rest { result.1.now ≡ after_fraction bytes.now }
    ensures all { AreDigits result.0.now }
{
    if bytes.is_empty() || bytes[0] != b'.' {
        return (&[], bytes);
    }
    let (digits, rest) = digits_at(&bytes[1..]);
    if digits.is_empty() {
        return (&[], bytes);
    }
    (digits, rest)
}

/// The part of a duration that the bytes begin with.
#[tactic(auto, using(crate::proofs::NumberSteps::part_facts))]
fn part_at(bytes: &[u8]) -> Option<Part<'_>>
    ensures part { option_map part_of result ≡ part_at bytes.now }
    ensures len { IfSome result (λ p. p.len ≡ part_len (part_of p)) }
    ensures within { IfSome result (λ p. p.len ≤ length bytes.now) }
    ensures whole { IfSome result (λ p. AreDigits p.whole.now) }
    ensures fraction { IfSome result (λ p. AreDigits p.fraction.now) }
    ensures some { IfSome result (λ p. 0 < p.len) }
{
    let (whole, behind) = digits_at(bytes);
    if whole.is_empty() {
        return None;
    }
    let (fraction, rest) = fraction_at(behind);
    let unit = unit_at(rest)?;
    let len = bytes.len() - rest.len() + unit.text().len();
    Some(Part {
        whole,
        fraction,
        unit,
        len,
    })
}

/// The number that decimal digits stand for, or 2^63 where it is larger.
fn capped(digits: &[u8]) -> u64
    requires { AreDigits digits.now }
    ensures { result ≡ min (decimal digits.now) LIMIT }
{
    let mut number: u64 = 0;
    for digit in digits {
        let next = u128::from(number) * 10 + u128::from(*digit - b'0');
        number = next.min(u128::from(OUT_OF_RANGE)) as u64;
    }
    number
}

/// Adds the fraction of a part to columns of decimal digits, the first after the dot of the sum first. What is
/// carried out of the first column is returned: whole nanoseconds.
fn add_fraction(columns: &mut [u8], fraction: &[u8], nanos: u64) -> u64
    requires columns { AreColumns columns.old }
    requires digits { AreDigits fraction.now }
    requires room { length fraction.now ≤ length columns.old }
    requires nanos { nanos ≤ 3_600_000_000_000 }
    ensures columns { AreColumns columns.new }
    ensures small { result ≤ 4_000_000_000_000 }
    ensures sum { column_value columns.new + result * 10 ^ length columns.old
        ≡ column_value columns.old
        + nanos * decimal fraction.now * 10 ^ (length columns.old - length fraction.now) }
{
    let mut carry = 0;
    let mut left = fraction.len();
    while left > 0 {
        left -= 1;
        let total = u64::from(columns[left]) + u64::from(fraction[left] - b'0') * nanos + carry;
        columns[left] = (total % 10) as u8;
        carry = total / 10;
    }
    carry
}

/// Whether all digits are 0.
fn all_zero(columns: &[u8]) -> bool
    ensures { result ≡ list_all (λ c. c == 0) columns.now }
{
    columns.iter().all(|digit| *digit == 0)
}

/// The sum of parts of a duration: whole nanoseconds, which saturate at 2^63, and the decimal digits of what is
/// left, as many as the longest fraction has.
#[derive(Drop)]
struct Sum {
    whole: u64,
    columns: Vec<u8>,
}

impl Sum {
    /// The sum of no parts.
    fn new(alloc: Global) -> Sum
        ensures { Holds result [] }
    {
        Sum {
            whole: 0,
            columns: Vec::new(alloc),
        }
    }

    /// Adds a part.
    fn add(&mut self, part: Part<'_>) -> Result<(), Memory>
        requires columns { AreColumns self.old.columns.items }
        requires whole { AreDigits part.whole.now }
        requires fraction { AreDigits part.fraction.now }
        ensures columns { OnOk result (AreColumns self.new.columns.items) }
        ensures sum { OnOk result ((ps : List ThePart) → Holds self.old ps
            → Holds self.new (ps ++ part_of part.entry ∷ [])) }
    {
        let places = self.columns.len().max(part.fraction.len());
        self.columns.resize(places, 0)?;
        let nanos = part.unit.nanos();
        let carry = add_fraction(&mut self.columns, part.fraction, nanos);
        let whole = u128::from(self.whole)
            + u128::from(capped(part.whole)) * u128::from(nanos)
            + u128::from(carry);
        self.whole = whole.min(u128::from(OUT_OF_RANGE)) as u64;
        Ok(())
    }

    /// The token of the sum.
    fn kind(&self) -> TokenKind
        ensures { (ps : List ThePart) → Holds self.now ps
            → result ≡ duration_kind (places ps) (scaled (places ps) ps) }
    {
        if self.whole >= OUT_OF_RANGE {
            TokenKind::Broken(Class::Duration, Fault::NumberRange)
        } else if all_zero(&self.columns) {
            TokenKind::Duration(self.whole)
        } else {
            TokenKind::Broken(Class::Duration, Fault::FractionLiteral)
        }
    }
}

/// The duration that the bytes begin with, and how many bytes it has.
fn duration_at(alloc: Global, bytes: &[u8]) -> Result<Option<(TokenKind, usize)>, Memory>
    ensures { IfOk result (λ r. r ≡ duration_at bytes.now) }
{
    let mut sum = Sum::new(alloc);
    let mut len = 0;
    while let Some(part) = part_at(&bytes[len..]) {
        sum.add(part)?;
        len += part.len;
    }
    Ok(if len == 0 {
        None
    } else {
        Some((sum.kind(), len))
    })
}

/// The token of a whole number.
#[tactic(auto, using(crate::proofs::NumberCases::kind_cases))]
fn number_kind(digits: &[u8]) -> TokenKind
    requires { AreDigits digits.now }
    ensures { result ≡ number_kind (decimal digits.now) }
{
    let number = capped(digits);
    if number < OUT_OF_RANGE {
        TokenKind::Number(number)
    } else {
        TokenKind::Broken(Class::Number, Fault::NumberRange)
    }
}

/// The number or the bare decimal that the bytes begin with, and how many bytes it has.
#[tactic(auto, using(crate::proofs::NumberCases::plain_cases))]
fn plain_at(bytes: &[u8]) -> (TokenKind, usize)
    ensures { result ≡ plain_at bytes.now }
{
    let (whole, behind) = digits_at(bytes);
    let (fraction, _) = fraction_at(behind);
    if fraction.is_empty() {
        return (number_kind(whole), whole.len());
    }
    let kind = TokenKind::Broken(Class::Number, Fault::FractionLiteral);
    (kind, whole.len() + 1 + fraction.len())
}

/// The number, the bare decimal or the duration that the bytes begin with, and how many bytes it has. The first byte
/// is a digit.
#[tactic(auto, using(crate::proofs::NumberCases::number_cases))]
pub(crate) fn number_at(alloc: Global, bytes: &[u8]) -> Result<(TokenKind, usize), Memory>
    ensures { IfOk result (λ r. r ≡ number_at bytes.now) }
{
    match duration_at(alloc, bytes)? {
        Some(duration) => Ok(duration),
        None => Ok(plain_at(bytes)),
    }
}
