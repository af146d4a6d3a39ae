//! Theorems about hints, sieves and picks: no trace that a query answers is left out.
//!
//! Each function has an empty body: its contract is the statement, and its proof stands in `proofs/laws/`. A theorem
//! of `query_fanout` calls `answered_is_picked` to have its contract; nothing calls the others.

ghost use Rattle.column_scan.specs.Hints.{AnswersHoldText};
ghost use Rattle.column_scan.specs.Sieves.{AnsweredIsPicked, ColumnsTell};

/// A trace of which a query answers something has a span that holds the query's text.
pub fn answers_hold_the_text()
    ensures { AnswersHoldText }
{}

/// Whatever a query answers of the first occurrences of rows, its trace is picked among all the rows, and the result
/// doesn't start after the pick's moment.
pub fn answered_is_picked()
    ensures { AnsweredIsPicked }
{}

/// What an expression that asks for columns alone is for a span in no trace, it is for each span with the same columns.
pub fn columns_tell()
    ensures { ColumnsTell }
{}
