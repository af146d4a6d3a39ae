//! Theorems about what stages make of spansets: `by`, and the aggregates `min` and `max`.
//!
//! Each function has an empty body: its contract is the statement, and its proof stands in `proofs/laws/`. Nothing
//! calls them: they say of the definitions that the code meets what a reader expects of `by`, `min` and `max`.

ghost use Rattle.std.specs.Prelude.{List, ℤ, IfSome};
ghost use Rattle.span_types.specs.declared.spans.Row.{Row};
ghost use Rattle.traceql_syntax.specs.Trees.{Tree};
ghost use Rattle.traceql_types.specs.declared.pattern.Pattern.{Pattern};
ghost use Rattle.spanset_eval.specs.declared.groups.Group.{Group as Spanset};
ghost use Rattle.spanset_eval.specs.Laws.{IsGreatest, IsLeast, IsPartition};
ghost use Rattle.spanset_eval.specs.Stages.{amount_of, split_by, value_at};

use traceql_syntax::AggregateOp;

/// `by` makes of a spanset a partition in the order of values: each span is in just one of the new spansets, none of
/// which is empty; within one all values are equal, and those of an earlier one are less than those of a later one.
pub fn split_is_a_partition()
    ensures { (ps : List Pattern) (rows : List Row) (e : Tree) (g : Spanset) →
        IsPartition (value_at ps rows e) g (split_by ps rows e g) }
{}

/// `min` and `max` are the least and the greatest of the numbers: each is one of them, and none lies beyond it.
pub fn least_and_greatest()
    ensures least { (ns : List ℤ) → IfSome (amount_of AggregateOp.Least ns) (IsLeast ns) }
    ensures greatest { (ns : List ℤ) → IfSome (amount_of AggregateOp.Greatest ns) (IsGreatest ns) }
{}
