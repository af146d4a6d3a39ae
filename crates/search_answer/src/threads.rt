//! Rows and results among threads: that their types may be handed from one to another. Nothing here runs in the
//! program.

ghost use Rattle.search_answer.specs.Threads.{ResultIsSend, ResultIsSync, RowIsSend, RowIsSync};

use span_types::Row;
use spanset_eval::TraceResult;

// Can be called only at a type that may be handed to another thread, and be shared among threads.
fn crosses<T: Send + Sync>() {}

/// Rows and results may be handed to another thread, and be shared among threads. Of checked queries
/// `traceql_types::checked_crosses` says the same.
pub fn rows_and_results_cross()
    ensures row_send { RowIsSend }
    ensures row_sync { RowIsSync }
    ensures result_send { ResultIsSend }
    ensures result_sync { ResultIsSync }
{
    crosses::<Row>();
    crosses::<TraceResult>();
}
