//! Writing aggregates, stages and whole queries: trees to tokens.

ghost use Rattle.std.specs.Prelude.{◌≡◌, [], ◌∷◌, OnOk, map, if◌then◌else◌};
ghost use Rattle.traceql_tokens.specs.declared.fixed.Sign.TheVariants as sign;
ghost use Rattle.traceql_tokens.specs.declared.fixed.Word.TheVariants as word;
ghost use Rattle.traceql_tokens.specs.declared.kinds.TokenKind.TheVariants as token;
ghost use Rattle.traceql_syntax.specs.Trees.{tree, aggregate_tree, threshold_tree, stage_tree, query_tree};
ghost use Rattle.traceql_print.specs.Kinds as kinds;
ghost use Rattle.traceql_print.specs.Printer.{put_all};

use crate::expr::{write_expr, write_filter, write_set};
use crate::printer::Printer;
use crate::signs::{aggregate_word, comparison_sign};
use span_types::Memory;
use traceql_syntax::{Aggregate, Field, Fields, Operand, Query, Stage, Stages, Threshold};
use traceql_tokens::{Sign, Word};

/// Writes a word and empty parentheses.
fn write_bare_call(printer: &mut Printer, word: Word) -> Result<(), Memory>
    ensures { OnOk result (printer.new ≡ put_all printer.old (kinds.call word [])) }
{
    printer.word(word)?;
    printer.sign(Sign::OpenParen)?;
    printer.sign(Sign::CloseParen)
}

/// Writes a word and an argument in parentheses.
fn write_call(printer: &mut Printer, word: Word, argument: &Operand) -> Result<(), Memory>
    ensures { OnOk result
        (printer.new ≡ put_all printer.old
        (kinds.call word (kinds.expr_kinds (tree argument.now.expr)))) }
{
    printer.word(word)?;
    printer.sign(Sign::OpenParen)?;
    write_expr(printer, &argument.expr)?;
    printer.sign(Sign::CloseParen)
}

/// Writes an aggregate and its argument.
fn write_aggregate(printer: &mut Printer, aggregate: &Aggregate) -> Result<(), Memory>
    ensures { OnOk result
        (printer.new ≡ put_all printer.old (kinds.aggregate_kinds (aggregate_tree aggregate.now))) }
{
    match aggregate {
        Aggregate::Count => write_bare_call(printer, Word::Count),
        Aggregate::Of(op, argument) => write_call(printer, aggregate_word(*op), argument),
    }
}

/// Writes a minus where a number is negative.
fn write_minus(printer: &mut Printer, negative: bool) -> Result<(), Memory>
    ensures { OnOk result
        (printer.new ≡ (if negative then put_all printer.old
        (token.Mark sign.Minus ∷ []) else printer.old)) }
{
    if negative {
        printer.sign(Sign::Minus)?;
    }
    Ok(())
}

/// Writes what an aggregate is compared with.
fn write_threshold(printer: &mut Printer, threshold: &Threshold) -> Result<(), Memory>
    ensures { OnOk result
        (printer.new ≡ put_all printer.old (kinds.threshold_kinds (threshold_tree threshold.now))) }
{
    match threshold {
        Threshold::Aggregate(aggregate) => write_aggregate(printer, aggregate),
        Threshold::Number {
            negative,
            value,
            ..
        } => {
            write_minus(printer, *negative)?;
            printer.number(*value)
        }
        Threshold::Duration {
            negative,
            nanos,
            ..
        } => {
            write_minus(printer, *negative)?;
            printer.duration(*nanos)
        }
    }
}

/// Writes fields with a comma before each.
fn write_more_fields(printer: &mut Printer, fields: &[Field]) -> Result<(), Memory>
    ensures { OnOk result (printer.new ≡ put_all printer.old (kinds.more_fields_kinds fields.now)) }
{
    for field in fields {
        printer.sign(Sign::Comma)?;
        printer.field(field)?;
    }
    Ok(())
}

/// Writes fields with a comma between them.
fn write_fields(printer: &mut Printer, fields: &Fields) -> Result<(), Memory>
    ensures { OnOk result (printer.new ≡ put_all printer.old (kinds.fields_kinds fields.now)) }
{
    if let [first, rest @ ..] = fields.as_slice() {
        printer.field(first)?;
        write_more_fields(printer, rest)?;
    }
    Ok(())
}

/// Writes `select` and its fields.
fn write_select(printer: &mut Printer, fields: &Fields) -> Result<(), Memory>
    ensures { OnOk result
        (printer.new ≡ put_all printer.old
        (kinds.call word.Select (kinds.fields_kinds fields.now))) }
{
    printer.word(Word::Select)?;
    printer.sign(Sign::OpenParen)?;
    write_fields(printer, fields)?;
    printer.sign(Sign::CloseParen)
}

/// Writes a stage.
fn write_stage(printer: &mut Printer, stage: &Stage) -> Result<(), Memory>
    ensures { OnOk result
        (printer.new ≡ put_all printer.old (kinds.stage_kinds (stage_tree stage.now))) }
{
    match stage {
        Stage::Filter { condition, .. } => write_filter(printer, condition),
        Stage::By(argument) => write_call(printer, Word::By, argument),
        Stage::Coalesce => write_bare_call(printer, Word::Coalesce),
        Stage::Select(fields) => write_select(printer, fields),
        Stage::Compare {
            left,
            op,
            right,
            ..
        } => {
            write_aggregate(printer, left)?;
            printer.sign(comparison_sign(*op))?;
            write_threshold(printer, right)
        }
    }
}

/// Writes stages with a bar before each.
fn write_stages(printer: &mut Printer, stages: &Stages) -> Result<(), Memory>
    ensures { OnOk result
        (printer.new ≡ put_all printer.old (kinds.stages_kinds (map stage_tree stages.now))) }
{
    for stage in stages.as_slice() {
        printer.sign(Sign::Bar)?;
        write_stage(printer, stage)?;
    }
    Ok(())
}

/// Writes a query.
pub(crate) fn write_query(printer: &mut Printer, query: &Query) -> Result<(), Memory>
    ensures { OnOk result
        (printer.new ≡ put_all printer.old (kinds.query_kinds (query_tree query.now))) }
{
    write_set(printer, &query.spansets)?;
    write_stages(printer, &query.stages)
}
