//! The command and its subcommands, as `clap` is told them: what may stand on the command line.

ghost use Rattle.std.specs.Prelude.{◌≡◌, IfOk, false};
ghost use Rattle.clap.specs.Words.{app_of, rule_of, shape_of};
ghost use Rattle.clap.specs.declared.builder.command.Command.TheViews.{out-Command as fields_of};
ghost use Rattle.command_words.specs.Table.{bare_app, drill_shape, ingest_shape, option_rule, query_rule, search_shape, serve_shape, session_shape, trace_shape, wanted_option_rule, words_app};

use clap::{Arg, ArgAction, Command};
use std::alloc::{AllocError, Global};

// The whole command. A subcommand more is a line more here, and a function below.
pub(crate) fn whole_command<'a>(alloc: Global) -> Result<Command<'a>, AllocError>
    ensures { IfOk result (λ c. app_of c ≡ words_app) }
{
    bare_command(alloc)
        .subcommand(session_command(alloc))?
        .subcommand(ingest_command(alloc))?
        .subcommand(trace_command(alloc)?)?
        .subcommand(search_command(alloc)?)?
        .subcommand(drill_command(alloc)?)?
        .subcommand(serve_command(alloc)?)
}

// The command without subcommands. It wants one, has no help and no version, and reads its words from the first on.
fn bare_command<'a>(alloc: Global) -> Command<'a>
    ensures { app_of result ≡ bare_app }
{
    Command::new(alloc, "vurnda")
        .no_binary_name(true)
        .subcommand_required(true)
        .disable_help_flag(true)
        .disable_help_subcommand(true)
}

// `session` takes no words.
fn session_command<'a>(alloc: Global) -> Command<'a>
    ensures shape { shape_of result ≡ session_shape }
    ensures local { (fields_of result).has_globals ≡ false }
{
    Command::new(alloc, "session")
}

// `ingest` takes no words.
fn ingest_command<'a>(alloc: Global) -> Command<'a>
    ensures shape { shape_of result ≡ ingest_shape }
    ensures local { (fields_of result).has_globals ≡ false }
{
    Command::new(alloc, "ingest")
}

// `trace` takes one id.
fn trace_command<'a>(alloc: Global) -> Result<Command<'a>, AllocError>
    ensures shape { IfOk result (λ c. shape_of c ≡ trace_shape) }
    ensures local { IfOk result (λ c. (fields_of c).has_globals ≡ false) }
{
    let id = Arg::new(alloc, "id").required(true).action(ArgAction::Set);
    Command::new(alloc, "trace").arg(id)
}

// `search` takes four options and a query.
fn search_command<'a>(alloc: Global) -> Result<Command<'a>, AllocError>
    ensures shape { IfOk result (λ c. shape_of c ≡ search_shape) }
    ensures local { IfOk result (λ c. (fields_of c).has_globals ≡ false) }
{
    Command::new(alloc, "search")
        .arg(option(alloc, "limit"))?
        .arg(option(alloc, "spss"))?
        .arg(option(alloc, "start"))?
        .arg(option(alloc, "end"))?
        .arg(query(alloc))
}

// `drill` takes two options, which are both wanted.
fn drill_command<'a>(alloc: Global) -> Result<Command<'a>, AllocError>
    ensures shape { IfOk result (λ c. shape_of c ≡ drill_shape) }
    ensures local { IfOk result (λ c. (fields_of c).has_globals ≡ false) }
{
    Command::new(alloc, "drill")
        .arg(wanted_option(alloc, "seed"))?
        .arg(wanted_option(alloc, "traces"))
}

// `serve` takes two options, the first of which is wanted.
fn serve_command<'a>(alloc: Global) -> Result<Command<'a>, AllocError>
    ensures shape { IfOk result (λ c. shape_of c ≡ serve_shape) }
    ensures local { IfOk result (λ c. (fields_of c).has_globals ≡ false) }
{
    Command::new(alloc, "serve")
        .arg(wanted_option(alloc, "clients"))?
        .arg(option(alloc, "rounds"))
}

// An option with one value.
fn option<'a>(alloc: Global, name: &'a str) -> Arg<'a>
    ensures rule { rule_of result ≡ option_rule name.entry.now }
    ensures local { result.global ≡ false }
{
    Arg::new(alloc, name).long(name).action(ArgAction::Set)
}

// An option with one value, which is wanted.
fn wanted_option<'a>(alloc: Global, name: &'a str) -> Arg<'a>
    ensures rule { rule_of result ≡ wanted_option_rule name.entry.now }
    ensures local { result.global ≡ false }
{
    Arg::new(alloc, name)
        .long(name)
        .required(true)
        .action(ArgAction::Set)
}

// The query, which is wanted.
fn query<'a>(alloc: Global) -> Arg<'a>
    ensures rule { rule_of result ≡ query_rule }
    ensures local { result.global ≡ false }
{
    Arg::new(alloc, "query")
        .required(true)
        .action(ArgAction::Set)
}
