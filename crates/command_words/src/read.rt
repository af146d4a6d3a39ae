//! Reading the words of the command line: words to what they ask, by `clap`.

ghost use Rattle.std.specs.Prelude.{◌≡◌, ◌≢◌, ℕ, List, [], Some, true, codes, is_some, map, string_bytes};
ghost use Rattle.std.specs.Prelude.{IfOk, IfErr};
ghost use Rattle.clap.specs.Kinds.{or_else};
ghost use Rattle.clap.specs.Words.{fault_of, first_value, found_of, kind_of, subcommand_of, subcommand_rows_of};
ghost use Rattle.clap.specs.declared.error.kind.ErrorKind.TheVariants.{OutOfMemory};
ghost use Rattle.command_words.specs.Commands.{Alone, IsDrillGiven, Spells, command_of};
ghost use Rattle.command_words.specs.Numbers.{seed_fault, traces_fault, word_faults};
ghost use Rattle.command_words.specs.Spelling.{given_in, search_line, trace_line};
ghost use Rattle.command_words.specs.Table.{words_app};

use crate::asked::{Asked, WordsError};
use crate::command::whole_command;
use crate::line::{search_line, trace_line};
use crate::number::number_given;
use crate::serve::asked_serve;
use clap::error::ErrorKind;
use clap::{ArgMatches, Error};
use std::alloc::Global;

/// How many traces a drill makes at most.
const MOST_TRACES: u64 = 100_000;

/// Reads the words of the command line, those after the program's name and the store's folder. Words that ask
/// nothing are refused. Memory may be wanted for any words.
pub fn read_words(alloc: Global, words: &[String]) -> Result<Asked, WordsError>
    // What is read is what the words ask.
    ensures asked { IfOk result (λ asked. Spells (map string_bytes words.now) (command_of asked)) }
    // Words are refused only where `clap` finds something at fault in them, or a number is out of its range.
    ensures refused { result ≡ Err WordsError.Refused
        → word_faults (map string_bytes words.now) ≢ [] }
{
    let matches = matches_of(alloc, words)?;
    let Some((name, given)) = matches.subcommand() else {
        unreachable!();
    };
    match name {
        "session" => Ok(Asked::Session),
        "ingest" => Ok(Asked::Ingest),
        "drill" => asked_drill(alloc, given),
        "serve" => asked_serve(alloc, given),
        "trace" => asked_trace(alloc, id_of(given)),
        "search" => asked_search(alloc, given),
        _ => unreachable!(),
    }
}

// What `clap` makes of the words.
fn matches_of<'a>(alloc: Global, words: &'a [String]) -> Result<ArgMatches<'a>, WordsError>
    ensures no_fault { IfOk result
        (λ _. fault_of words_app (map string_bytes words.entry.now) ≡ []) }
    ensures refused { result ≡ Err WordsError.Refused
        → fault_of words_app (map string_bytes words.entry.now) ≢ [] }
    ensures found { IfOk result
        (λ m. subcommand_rows_of m ≡ subcommand_of words_app (map string_bytes words.entry.now)) }
{
    let Ok(command) = whole_command(alloc) else {
        return Err(WordsError::Memory);
    };
    match command.try_get_matches_from(words) {
        Ok(matches) => Ok(matches),
        Err(error) => Err(cause_of(&error)),
    }
}

// The numbers of a drill, each in its range.
fn asked_drill(alloc: Global, given: &ArgMatches<'_>) -> Result<Asked, WordsError>
    requires seed { is_some (first_value (found_of given.now) (codes "seed")) ≡ true }
    requires traces { is_some (first_value (found_of given.now) (codes "traces")) ≡ true }
    ensures ok { IfOk result (λ asked. IsDrillGiven (found_of given.now) (command_of asked)) }
    ensures refused { result ≡ Err WordsError.Refused
        → or_else (seed_fault (first_value (found_of given.now) (codes "seed")))
        (traces_fault (first_value (found_of given.now) (codes "traces"))) ≢ [] }
{
    let seed = number_given(alloc, given, "seed", 0, u64::MAX)?;
    let traces = number_given(alloc, given, "traces", 1, MOST_TRACES)?;
    Ok(Asked::Drill {
        seed,
        traces: traces as u32,
    })
}

// The id that was given.
fn id_of<'a>(given: &ArgMatches<'a>) -> &'a str
    requires { is_some (first_value (found_of given.now) (codes "id")) ≡ true }
    ensures { first_value (found_of given.now) (codes "id") ≡ Some result.now }
{
    let Some(id) = given.get_str("id") else {
        unreachable!();
    };
    id
}

// A look-up is answered as the line `trace ID` of a session, which alone tests the id.
fn asked_trace(alloc: Global, id: &str) -> Result<Asked, WordsError>
    ensures ok { IfOk result (λ asked. command_of asked ≡ Alone (trace_line id.now)) }
    ensures err { IfErr result (λ error. error ≡ WordsError.Memory) }
{
    match trace_line(alloc, id) {
        Ok(line) => Ok(Asked::Alone { line }),
        Err(_) => Err(WordsError::Memory),
    }
}

// A search is answered as the line `search ..` of a session, which alone tests options and query.
fn asked_search(alloc: Global, given: &ArgMatches<'_>) -> Result<Asked, WordsError>
    requires { is_some (first_value (found_of given.now) (codes "query")) ≡ true }
    ensures ok { IfOk result (λ asked. (query : List ℕ) → first_value (found_of given.now) (codes "query") ≡ Some query
        → command_of asked ≡ Alone (search_line (given_in (found_of given.now) query))) }
    ensures err { IfErr result (λ error. error ≡ WordsError.Memory) }
{
    let Some(query) = given.get_str("query") else {
        unreachable!();
    };
    let limit = given.get_str("limit");
    let spss = given.get_str("spss");
    let start = given.get_str("start");
    let end = given.get_str("end");
    match search_line(alloc, limit, spss, start, end, query) {
        Ok(line) => Ok(Asked::Alone { line }),
        Err(_) => Err(WordsError::Memory),
    }
}

// Out of memory, or a refusal.
fn cause_of(error: &Error) -> WordsError
    ensures memory { kind_of error.now ≡ OutOfMemory → result ≡ WordsError.Memory }
    ensures refused { kind_of error.now ≢ OutOfMemory → result ≡ WordsError.Refused }
{
    match error.kind() {
        ErrorKind::OutOfMemory => WordsError::Memory,
        _ => WordsError::Refused,
    }
}
