//! Items in order of trace, and those of one trace among them.

ghost use Rattle.std.specs.Prelude.{◌≡◌, filter, OnOk};
ghost use Rattle.std.specs.List.Sorted.{IsSortedByKey};
ghost use Rattle.std.specs.Ordering.{is_eq, is_le, is_lt};
ghost use Rattle.span_types.specs.declared.ids.TraceId.{TraceId};
ghost use Rattle.span_types.specs.Orders.{trace_cmp};

use span_types::{Memory, TraceId};
use std::cmp::Ordering;

/// What is of a trace.
pub(crate) trait OfTrace {
    ghost trace_of: { Self → TraceId };

    /// Its trace.
    fn trace(&self) -> TraceId
        ensures { result ≡ trace_of self.now };
}

/// The items of a trace, which are neighbours, since the list is in order of trace. It costs the logarithm of its length.
pub(crate) fn group_of<T: OfTrace>(items: &[T], trace: TraceId) -> &[T]
    requires { IsSortedByKey T.trace_of trace_cmp items.now }
    ensures { result.now ≡ filter (λ item. is_eq (trace_cmp (T.trace_of item) trace)) items.now }
{
    let from = items.partition_point(
        |item: &T| -> bool
            ensures { result ≡ is_lt (trace_cmp (T.trace_of item.now) trace) }
        { item.trace().cmp(&trace).is_lt() },
    );
    let to = items.partition_point(
        |item: &T| -> bool
            ensures { result ≡ is_le (trace_cmp (T.trace_of item.now) trace) }
        { item.trace().cmp(&trace).is_le() },
    );
    let (upto, _) = items.split_at(to);
    let (_, group) = upto.split_at(from);
    group
}

/// Puts the items in order of trace, and leaves those of each trace in their order.
pub(crate) fn sort_by_trace<T: OfTrace>(items: &mut Vec<T>) -> Result<(), Memory>
    ensures sorted { OnOk result (IsSortedByKey T.trace_of trace_cmp items.new.items) }
    ensures groups { OnOk result ((trace : TraceId) →
        filter (λ item. is_eq (trace_cmp (T.trace_of item) trace)) items.new.items
        ≡ filter (λ item. is_eq (trace_cmp (T.trace_of item) trace)) items.old.items) }
{
    items.sort_by(
        |a: &T, b: &T| -> Ordering
            ensures { result ≡ trace_cmp (T.trace_of a.now) (T.trace_of b.now) }
        { a.trace().cmp(&b.trace()) },
    )?;
    Ok(())
}
