//! Theorems about searches that take a few traces at a time: in the end the answer is that over all rows.
//!
//! Each contract is the statement, and its proof stands in `proofs/laws/`. `rounds` and `taking` call them to have
//! their contracts; when a program runs they do nothing.

ghost use Rattle.query_fanout.specs.Taking.{TakenAnswerTheWhole, TakesMore, TakesMoreRead};

use column_scan::answered_is_picked;

/// If the sifted rows are covered by the picks that were taken, what is kept in the end is what the search answers
/// over all rows.
pub fn taken_answer_the_whole()
    ensures { TakenAnswerTheWhole }
{
    answered_is_picked();
}

/// One more few are taken after those that were: over the same rows, or over rows in memory and what was read for each.
pub fn takes_more()
    ensures same { TakesMore }
    ensures read { TakesMoreRead }
{}
