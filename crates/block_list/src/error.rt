//! Why the slots give no list: what `loading` answers an opening with.

ghost use Rattle.std.specs.Prelude.{◌≡◌};

use span_types::Failed;
use thiserror::Error;

/// Why no list could be read.
#[derive(Clone, Copy, Debug, PartialEq, Eq, Error)]
pub enum ListError {
    /// A call of the disk failed, which raised its count of faults.
    #[error("a call of the disk failed")]
    Fault,
    /// A slot breaks the format of a list, at that byte.
    #[error("slot {slot} is no list, at {at}")]
    NotList { slot: u32, at: u64 },
    /// Out of memory.
    #[error("memory")]
    Memory,
}

impl From<Failed> for ListError {
    ghost use Rattle.block_list.specs.declared.error.ListError.TheVariants.{Fault};

    ghost from_gives = { λ _ error. error ≡ Fault };

    fn from(_error: Failed) -> ListError {
        ListError::Fault
    }
}
