//! The entry point: a trace and a query's patterns, ready to evaluate expressions for its spans.

ghost use Rattle.std.specs.Prelude.{◌≡◌, ◌<◌, IfOk, IfSome, length, slice_get};
ghost use Rattle.traceql_syntax.specs.Trees.{tree};
ghost use Rattle.traceql_value.specs.Meaning.{value_of, is_so};
ghost use Rattle.traceql_value.specs.EvalContexts.{matchers_patterns, context_patterns, context_rows, IsSame};
ghost use Rattle.traceql_value.specs.ValueRef.{ref_value};
ghost use Rattle.traceql_value.specs.Spans.{field_of_span, root_name, root_service, start_of, trace_nanos};

use crate::Value;
use crate::evaluate::{RECURSION, evaluate};
use crate::matchers::Matchers;
use crate::operators::is_true;
use crate::trace::{Trace, field};
use crate::value_ref::ValueRef;
use span_types::{Memory, Row, Rows, Span};
use std::alloc::Global;
use traceql_syntax::{Field, FieldExpr};
use traceql_types::Checked;

/// A trace, and a query's matchers: what is computed once and not for each span. `leave` gives the matchers back, for
/// the next trace's context.
#[derive(Drop)]
pub struct EvalContext<'q, 'a> {
    alloc: Global,
    trace: Trace<'a>,
    matchers: Matchers<'q>,
}

impl<'q, 'a> EvalContext<'q, 'a> {
    /// The context of a query's matchers and the rows of a trace. It takes no memory.
    pub fn of(alloc: Global, matchers: Matchers<'q>, rows: &'a [Row]) -> EvalContext<'q, 'a>
        ensures patterns { context_patterns result ≡ matchers_patterns matchers.entry }
        ensures rows { context_rows result ≡ rows.now }
    {
        EvalContext {
            alloc,
            trace: Trace::of(rows),
            matchers,
        }
    }

    /// The query's matchers again, for the next trace.
    pub fn leave(self) -> Matchers<'q>
        ensures { matchers_patterns result ≡ context_patterns self.entry }
    {
        self.matchers
    }

    /// Where memory comes from.
    pub fn alloc(&self) -> Global {
        self.alloc
    }

    /// The rows of the trace.
    pub fn rows(&self) -> &'a [Row]
        ensures { result.now ≡ context_rows self.now }
    {
        self.trace.rows
    }

    /// What an expression is for a span of the trace, looked at where it stands.
    pub fn evaluate(&mut self, expr: &'a FieldExpr, span: &'a Span) -> Result<ValueRef<'a>, Memory>
        ensures value { IfOk result
            (λ v. ref_value v ≡ value_of (context_patterns self.old)
            (context_rows self.old) span.now (tree expr.now)) }
        ensures same { IsSame self.old self.new }
    {
        evaluate(
            self.alloc,
            &self.trace,
            &mut self.matchers,
            expr,
            span,
            RECURSION,
        )
    }

    /// What an expression is for a span of the trace, as a value of its own.
    pub fn value(&mut self, expr: &FieldExpr, span: &Span) -> Result<Value, Memory>
        ensures value { IfOk result
            (λ v. v ≡ value_of (context_patterns self.old) (context_rows self.old) span.now
            (tree expr.now)) }
        ensures same { IsSame self.old self.new }
    {
        let found = evaluate(
            self.alloc,
            &self.trace,
            &mut self.matchers,
            expr,
            span,
            RECURSION,
        )?;
        found.into_value(self.alloc)
    }

    /// Whether a condition is true of a span of the trace.
    pub fn is_so(&mut self, expr: &FieldExpr, span: &Span) -> Result<bool, Memory>
        ensures value { IfOk result
            (λ b. b ≡ is_so (context_patterns self.old) (context_rows self.old) span.now
            (tree expr.now)) }
        ensures same { IsSame self.old self.new }
    {
        let found = evaluate(
            self.alloc,
            &self.trace,
            &mut self.matchers,
            expr,
            span,
            RECURSION,
        )?;
        Ok(is_true(&found))
    }

    /// What a field is for a span of the trace.
    pub fn field(&self, asked: &Field, span: &Span) -> Result<Value, Memory>
        ensures { IfOk result (λ v. v ≡ field_of_span asked.now (context_rows self.now) span.now) }
    {
        field(self.alloc, asked, &self.trace, span)?.into_value(self.alloc)
    }

    /// The name of the trace's root; nil where there is no root.
    pub fn root_name(&self) -> Result<Value, Memory>
        ensures { IfOk result (λ v. v ≡ root_name (context_rows self.now)) }
    {
        self.trace.root_name().into_value(self.alloc)
    }

    /// What the root's resource calls its service; nil where that is no text.
    pub fn root_service(&self) -> Result<Value, Memory>
        ensures { IfOk result (λ v. v ≡ root_service (context_rows self.now)) }
    {
        self.trace.root_service().into_value(self.alloc)
    }

    /// When the trace starts: the earliest start, in nanoseconds since 1970.
    pub fn start(&self) -> u64
        ensures { result ≡ start_of (context_rows self.now) }
    {
        self.trace.start()
    }

    /// How long the trace lasts, in nanoseconds: from its start to the greatest of all starts and ends.
    pub fn nanos(&self) -> u64
        ensures { result ≡ trace_nanos (context_rows self.now) }
    {
        self.trace.nanos()
    }
}

/// What an expression is for the span at this position of a trace. Of the whole trace only what the expression asks
/// for is computed: its root, or how long it lasts.
pub fn field_value(
    alloc: Global,
    expr: &FieldExpr,
    checked: &Checked,
    trace: &Rows,
    span: u64,
) -> Result<Value, Memory>
    requires { span < length trace.now }
    ensures { IfOk result
        (λ v. IfSome (slice_get trace.now span)
        (λ row. v ≡ value_of checked.now.patterns trace.now row.span (tree expr.now))) }
{
    let rows = trace.as_slice();
    let mut matchers = Matchers::of(alloc, checked)?;
    let found = evaluate(
        alloc,
        &Trace::unread(rows),
        &mut matchers,
        expr,
        &rows[span as usize].span,
        RECURSION,
    )?;
    found.into_value(alloc)
}
