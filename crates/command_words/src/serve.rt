//! The words of a run that serves several clients.

ghost use Rattle.std.specs.Prelude.{◌≡◌, ◌≢◌, ◌≤◌, [], IfOk, codes, is_some, map, string_bytes, true};
ghost use Rattle.clap.specs.Kinds.{or_else};
ghost use Rattle.clap.specs.Words.{first_value, found_of};
ghost use Rattle.command_words.specs.Commands.{IsServeGiven, command_of};
ghost use Rattle.command_words.specs.Numbers.{IsCount, clients_fault, number_fault, rounds_fault};
ghost use Rattle.command_words.specs.Spelling.{begins_to_serve};

use crate::asked::{Asked, WordsError};
use crate::number::number_given;
use clap::ArgMatches;
use std::alloc::Global;

/// How many clients a run serves at most.
const MOST_CLIENTS: u64 = 16;

/// How often a run keeps the store up at most.
const MOST_ROUNDS: u64 = 1_000;

/// Whether the first word asks to serve several clients: it is `serve`. Words that begin so ask nothing else, and no
/// other words ask that.
pub fn asks_to_serve(words: &[String]) -> bool
    ensures { result ≡ begins_to_serve (map string_bytes words.now) }
{
    match words.first() {
        Some(word) => word.as_str() == "serve",
        None => false,
    }
}

/// How many clients there are and how often the store is kept up, each number in its range.
pub(crate) fn asked_serve(alloc: Global, given: &ArgMatches<'_>) -> Result<Asked, WordsError>
    requires { is_some (first_value (found_of given.now) (codes "clients")) ≡ true }
    ensures ok { IfOk result (λ asked. IsServeGiven (found_of given.now) (command_of asked)) }
    ensures refused { result ≡ Err WordsError.Refused
        → or_else (clients_fault (first_value (found_of given.now) (codes "clients")))
        (rounds_fault (first_value (found_of given.now) (codes "rounds"))) ≢ [] }
{
    let clients = number_given(alloc, given, "clients", 1, MOST_CLIENTS)?;
    let rounds = count_given(alloc, given, "rounds", MOST_ROUNDS)?;
    Ok(Asked::Serve {
        clients: clients as u32,
        rounds: rounds as u32,
    })
}

// The number up to `high` that the option of this name has as its value. Where it isn't given that is 0.
fn count_given(
    alloc: Global,
    given: &ArgMatches<'_>,
    name: &str,
    high: u64,
) -> Result<u64, WordsError>
    ensures ok { IfOk result (λ n. IsCount (first_value (found_of given.now) name.now) n) }
    ensures most { IfOk result (λ n. n ≤ high) }
    ensures refused { result ≡ Err WordsError.Refused
        → number_fault 0 high (first_value (found_of given.now) name.now) ≢ [] }
{
    match given.get_str(name) {
        Some(_) => number_given(alloc, given, name, 0, high),
        None => Ok(0),
    }
}
