//! Sieves that are ready to test spans.

ghost use Rattle.std.specs.Prelude.{◌≡◌, ◌==◌, IfOk, List, [], length};
ghost use Rattle.std.specs.List.{list_all};
ghost use Rattle.span_types.specs.declared.spans.Span.{Span};
ghost use Rattle.traceql_syntax.specs.Trees.{tree};
ghost use Rattle.traceql_value.specs.EvalContexts.{context_patterns, context_rows, IsSame};
ghost use Rattle.traceql_value.specs.Meaning.{is_so};
ghost use Rattle.column_scan.specs.Sieves.{is_sifted, meets_members};
ghost use Rattle.column_scan.specs.Sifters.{IsReady};
ghost use Rattle.column_scan.specs.Sifting.{HasColumns};

use crate::columns::{Columns, fill, thin_span};
use crate::{Hint, Sieve};
use span_types::{Memory, Row, Span};
use std::alloc::Global;
use std::marker::Model;
use traceql_syntax::FieldExpr;
use traceql_types::Checked;
use traceql_value::{EvalContext, Matchers};

/// A sieve that is ready to test spans. The patterns of its query are made ready once, and not at all if it has no
/// members.
#[derive(Drop)]
pub struct Sifter<'s, 'q> {
    sieve: &'s Sieve<'q>,
    tester: Option<Tester<'s, 'q>>,
}

impl<'s, 'q> Model for Sifter<'s, 'q> {
    ghost use Rattle.column_scan.specs.Sieves.{SieveParts};
    ghost use Rattle.column_scan.specs.SieveCodes.{sieve_code};

    ghost Value = { SieveParts };

    ghost coded = { sieve_code };

    ghost use Rattle.column_scan.specs.Sifters.{IsReady};

    ghost view = { λ a. a.sieve.now };

    ghost invariant = { λ a. IsReady a.sieve.now a.tester };
}

impl<'s, 'q> Sifter<'s, 'q> {
    /// Makes a sieve ready. The one error is out of memory.
    pub fn of(alloc: Global, sieve: &'s Sieve<'q>) -> Result<Sifter<'s, 'q>, Memory>
        ensures { IfOk result (λ sifter. sifter ≡ sieve.now) }
    {
        let tester = tester_of(alloc, sieve)?;
        Ok(Sifter { sieve, tester })
    }

    /// Its hint.
    pub(crate) fn hint(&self) -> &'s Hint
        ensures { result.now ≡ self.now.hint }
    {
        self.sieve.hint()
    }

    /// Whether it has no members.
    pub(crate) fn is_hint(&self) -> bool
        ensures { result ≡ (length self.now.members == 0) }
    {
        self.sieve.members().is_empty()
    }

    /// Whether a span is sifted.
    pub(crate) fn holds(&mut self, span: &Span) -> Result<bool, Memory>
        ensures value { IfOk result (λ b. b ≡ is_sifted self.old span.now) }
        ensures same { self.new ≡ self.old }
    {
        if !self.hint().holds(span) {
            return Ok(false);
        }
        self.meets(span)
    }

    // Whether the members are so of a span.
    fn meets(&mut self, span: &Span) -> Result<bool, Memory>
        ensures value { IfOk result (λ b. b ≡ meets_members self.old span.now) }
        ensures same { self.new ≡ self.old }
    {
        let members = self.sieve.members();
        let Some(tester) = &mut self.tester else {
            return Ok(true);
        };
        tester.are_so(members, span)
    }

    /// Whether the members are so of each span that has these columns.
    pub(crate) fn meets_columns(&mut self, columns: Columns) -> Result<bool, Memory>
        ensures value { IfOk result (λ b. (s : Span) → HasColumns s columns
            → b ≡ meets_members self.old s) }
        ensures same { self.new ≡ self.old }
    {
        let members = self.sieve.members();
        let Some(tester) = &mut self.tester else {
            return Ok(true);
        };
        tester.are_so_of(members, columns)
    }
}

// What tests the members of a sieve, if it has some.
fn tester_of<'s, 'q>(alloc: Global, sieve: &'s Sieve<'q>) -> Result<Option<Tester<'s, 'q>>, Memory>
    ensures { IfOk result (IsReady sieve.now) }
{
    let Some(checked) = sieve.checked() else {
        return Ok(None);
    };
    if sieve.members().is_empty() {
        return Ok(None);
    }
    let tester = Tester::of(alloc, checked)?;
    Ok(Some(tester))
}

/// What tests the members of a sieve: of a span, or of columns, which a thin span is given.
#[derive(Drop)]
pub(crate) struct Tester<'s, 'q> {
    pub(crate) context: EvalContext<'q, 's>,
    pub(crate) thin: Span,
}

impl<'s, 'q> Tester<'s, 'q> {
    // Makes a query's patterns ready.
    fn of(alloc: Global, checked: &'q Checked) -> Result<Tester<'s, 'q>, Memory>
        ensures patterns { IfOk result (λ t. context_patterns t.context ≡ checked.now.patterns) }
        ensures rows { IfOk result (λ t. context_rows t.context ≡ []) }
    {
        let matchers = Matchers::of(alloc, checked)?;
        let thin = thin_span(alloc)?;
        let rows: &'s [Row] = &[];
        Ok(Tester {
            context: EvalContext::of(alloc, matchers, rows),
            thin,
        })
    }

    // Whether all conditions are so of a span.
    fn are_so(&mut self, members: &[&FieldExpr], span: &Span) -> Result<bool, Memory>
        ensures value { IfOk result (λ b. b ≡ list_all (λ e.
            is_so (context_patterns self.old.context) (context_rows self.old.context) span.now
            (tree e.now)) members.now) }
        ensures same { IsSame self.old.context self.new.context }
    {
        are_so(&mut self.context, members, span)
    }

    // Whether all conditions are so of the thin span with these columns.
    fn are_so_of(&mut self, members: &[&FieldExpr], columns: Columns) -> Result<bool, Memory>
        ensures value { IfOk result (λ b. (s : Span) × HasColumns s columns × (b ≡ list_all (λ e.
            is_so (context_patterns self.old.context) (context_rows self.old.context) s
            (tree e.now)) members.now)) }
        ensures same { IsSame self.old.context self.new.context }
    {
        fill(&mut self.thin, columns);
        are_so(&mut self.context, members, &self.thin)
    }
}

// Whether all conditions are so of a span.
fn are_so(
    context: &mut EvalContext<'_, '_>,
    members: &[&FieldExpr],
    span: &Span,
) -> Result<bool, Memory>
    ensures value { IfOk result (λ b. b ≡ list_all (λ e.
        is_so (context_patterns context.old) (context_rows context.old) span.now
        (tree e.now)) members.now) }
    ensures same { IsSame context.old context.new }
{
    for member in members {
        if !context.is_so(member, span)? {
            return Ok(false);
        }
    }
    Ok(true)
}
