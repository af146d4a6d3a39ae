//! Theorems about ratios, the order of values, patterns and whole traces.
//!
//! Each function has an empty body: its contract is the statement, and its proof stands in `proofs/laws/`. Nothing
//! calls them; proofs of `spanset_eval` and `traceql_metrics` cite the lemmas about the order.

ghost use Rattle.std.specs.Prelude.{◌≡◌, ◌≢◌, ◌+◌, List, [], None, All, Contains, IfSome, pos, ◌*ℤ◌};
ghost use Rattle.std.specs.Cmp.{IsTotalOrder, IsStrictWeakOrder};
ghost use Rattle.std.specs.Ordering.{is_lt};
ghost use Rattle.span_types.specs.declared.spans.Row.{Row};
ghost use Rattle.span_types.specs.declared.spans.Span.{Span};
ghost use Rattle.traceql_syntax.specs.Trees.{Tree, query_tree};
ghost use Rattle.traceql_types.specs.Asked.{asked_patterns};
ghost use Rattle.traceql_types.specs.declared.checked.Checked.{Checked};
ghost use Rattle.traceql_types.specs.declared.pattern.Pattern.{Pattern};
ghost use Rattle.traceql_types.specs.Refusals.{divisions};
ghost use Rattle.traceql_value.specs.Fractions.{Fraction, IsRatio, IsWhole};
ghost use Rattle.traceql_value.specs.Meaning.{value_of};
ghost use Rattle.traceql_value.specs.Readings.{IsAnswered};
ghost use Rattle.traceql_value.specs.Spans.{latest, root_of, start_of, trace_nanos};
ghost use Rattle.traceql_value.specs.Values.{IfNumber, value_cmp};
ghost use Rattle.traceql_value.specs.WholeTrace.{IsEnd, IsRoot, IsStart};

/// Ratios that are equal as fractions are one, so `==` and an `Equal` of `compare` say the same.
pub fn one_ratio()
    ensures { (a b : Fraction) → IsRatio a → IsRatio b
        → a.numerator *ℤ pos b.denominator ≡ b.numerator *ℤ pos a.denominator → a ≡ b }
{}

/// The order of values is total, and what it calls less is a strict weak order, as a stable sort wants it.
pub fn values_in_order()
    ensures total { IsTotalOrder value_cmp }
    ensures strict { IsStrictWeakOrder (λ a b. is_lt (value_cmp a b)) }
{}

/// A number that is computed without a division is whole, as an aggregate's argument is.
pub fn whole_without_division()
    ensures { (ps : List Pattern) (rows : List Row) (s : Span) (e : Tree) → divisions e ≡ []
        → IfNumber (value_of ps rows s e) IsWhole }
{}

/// Each string that a checked query asks for is answered by a pattern of the query: `regex` reads it in the string
/// between `\A(?:` and `)\z`, and the string matches a text exactly where that reading finds a match.
pub fn strings_are_answered()
    ensures { (c : Checked)
        → All (λ asked. IsAnswered c.patterns asked.1) (asked_patterns (query_tree c.query)) }
{}

/// The root is the span without a parent that comes first in trace order; there is none only where each span names a
/// parent. Two that come first have one id, and so they are one span of a trace.
pub fn root_is_first()
    ensures root { (rows : List Row) → IfSome (root_of rows) (IsRoot rows) }
    ensures none { (rows : List Row) → root_of rows ≡ None → (r : Row) → Contains rows r
        → r.span.parent ≢ None }
    ensures one { (rows : List Row) (a b : Row) → IsRoot rows a → IsRoot rows b
        → a.span.id ≡ b.span.id }
{}

/// A trace starts at the least of its spans' starts, and ends at the greatest of their starts and ends; it lasts from
/// the one to the other.
pub fn trace_is_bounded()
    ensures start { (rows : List Row) → rows ≢ [] → IsStart rows (start_of rows) }
    ensures end { (rows : List Row) → rows ≢ [] → IsEnd rows (latest rows) }
    ensures length { (rows : List Row) → rows ≢ []
        → start_of rows + trace_nanos rows ≡ latest rows }
{}
