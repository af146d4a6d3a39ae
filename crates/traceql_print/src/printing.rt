//! The entry points: the printed form of a query and of a field.

ghost use Rattle.std.specs.Prelude.{◌≡◌, ℕ, List, [], ◌∷◌, IfOk, MatchResult};
ghost use Rattle.traceql_tokens.specs.Tokens.{AreTokens};
ghost use Rattle.traceql_syntax.specs.Refusals.{Means};
ghost use Rattle.traceql_syntax.specs.Trees.{QueryTree, bare_query, query_tree};
ghost use Rattle.traceql_print.specs.Depth.{KeepsLimits};
ghost use Rattle.traceql_print.specs.Signs.{field_kind};
ghost use Rattle.traceql_print.specs.Text.{query_text, field_text, IsNamed};

use crate::printer::{Printer, push_field};
use crate::stage::write_query;
use span_types::{Memory, Text};
use std::alloc::Global;
use traceql_parse::{one_query, parse};
use traceql_syntax::{Field, ParseError, Query};

/// A query in its printed form, in time linear in the text's length.
///
/// The grammar relates the printed text to the query again, whatever text the query came from. Places in the text are
/// its own, so they aren't compared. It fails only if memory runs out.
pub fn print_query(alloc: Global, query: &Query) -> Result<Text, Memory>
    ensures text { IfOk result (λ text. text ≡ query_text (query_tree query.now)) }
    // What some text means, the printed text means too.
    ensures means { (source : List ℕ) → Means source (query_tree query.now)
        → IfOk result (λ text. Means text (query_tree query.now)) }
{
    let mut printer = Printer::new(alloc);
    write_query(&mut printer, query)?;
    Ok(printer.into_text())
}

/// Prints a query and reads the printed text back: the query again, wherever its printed form is within the limits of
/// length and depth. Else the refusal is that of the printed text.
pub fn read_back(alloc: Global, query: &Query) -> Result<Query, ParseError>
    ensures same { (source : List ℕ) → Means source (query_tree query.now)
        → KeepsLimits (query_tree query.now) →
        MatchResult result (λ p. bare_query (query_tree p) ≡ bare_query (query_tree query.now))
        (λ e. e ≡ ParseError.Memory) }
{
    match print_query(alloc, query) {
        Ok(text) => parse(alloc, text.as_str()),
        Err(_) => Err(ParseError::Memory),
    }
}

/// A field in its printed form, which is one token: an attribute or an intrinsic as it was written, but for the quotes
/// of a name. It fails only if memory runs out.
pub fn print_field(alloc: Global, field: &Field) -> Result<Text, Memory>
    ensures text { IfOk result (λ text. text ≡ field_text field.now) }
    // The text has just this token, where the field has a name.
    ensures token { IsNamed field.now
        → IfOk result (λ text.
        AreTokens 0 text (record { at = 0; kind = field_kind field.now } ∷ [])) }
{
    let mut text = String::new(alloc);
    push_field(&mut text, field)?;
    Ok(Text::of(text))
}

/// What a printed text says again: laws of the grammar and of the printed form, in which places don't count.
///
/// So where `traceql_parse::parse` answers a query for the printed text of a query, which it does within its limits,
/// the two are equal.
pub fn printed_once()
    // A printed text means the query that was printed, and no other.
    ensures once { (source : List ℕ) (q p : QueryTree) → Means source q → Means (query_text q) p
        → bare_query p ≡ bare_query q }
    // Queries that are printed alike are equal.
    ensures distinct { (one two : List ℕ) (q p : QueryTree) → Means one q → Means two p
        → query_text p ≡ query_text q → bare_query p ≡ bare_query q }
    // Equal queries are printed alike.
    ensures same { (q p : QueryTree) → bare_query p ≡ bare_query q → query_text p ≡ query_text q }
{
    one_query();
}
