//! Checked queries among threads: that their type may be handed from one to another. Nothing here runs in the program.

ghost use Rattle.traceql_types.specs.Shared.{CheckedIsSend, CheckedIsSync};

use crate::Checked;

// Can be called only at a type that may be handed to another thread, and be shared among threads.
fn crosses<T: Send + Sync>() {}

/// A checked query may be handed to another thread, and be shared among threads.
pub fn checked_crosses()
    ensures send { CheckedIsSend }
    ensures sync { CheckedIsSync }
{
    crosses::<Checked>();
}
