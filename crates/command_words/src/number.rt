//! Numbers in the words of the command line.

ghost use Rattle.std.specs.Prelude.{◌≡◌, ◌≢◌, [], IfOk, decimal, is_some, string_bytes, true};
ghost use Rattle.clap.specs.Words.{first_value, found_of};
ghost use Rattle.command_words.specs.Numbers.{IsNumber, number_fault, number_in};

use crate::asked::WordsError;
use clap::ArgMatches;
use std::alloc::{AllocError, Global};

/// The number from `low` to `high` that the option of this name has as its value.
pub(crate) fn number_given(
    alloc: Global,
    given: &ArgMatches<'_>,
    name: &str,
    low: u64,
    high: u64,
) -> Result<u64, WordsError>
    requires { is_some (first_value (found_of given.now) name.now) ≡ true }
    ensures ok { IfOk result
        (λ n. IsNumber low high (first_value (found_of given.now) name.now) n) }
    ensures refused { result ≡ Err WordsError.Refused
        → number_fault low high (first_value (found_of given.now) name.now) ≢ [] }
{
    let Some(text) = given.get_str(name) else {
        unreachable!();
    };
    match read_number(alloc, text, low, high) {
        Ok(Some(number)) => Ok(number),
        Ok(None) => Err(WordsError::Refused),
        Err(_) => Err(WordsError::Memory),
    }
}

// The decimal digits of a number.
fn write_number(alloc: Global, number: u64) -> Result<String, AllocError>
    ensures { IfOk result (λ text. string_bytes text ≡ decimal number) }
{
    format!(in alloc; "{number}")
}

// The number from `low` to `high` that a text is. It is read and written again, so that no other text of it is taken.
fn read_number(alloc: Global, text: &str, low: u64, high: u64) -> Result<Option<u64>, AllocError>
    ensures { IfOk result (λ number. number ≡ number_in low high text.now) }
{
    let Ok(number) = text.parse::<u64>() else {
        return Ok(None);
    };
    let written = write_number(alloc, number)?;
    if written.as_str() == text && low <= number && number <= high {
        Ok(Some(number))
    } else {
        Ok(None)
    }
}
