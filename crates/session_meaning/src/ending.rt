//! How a run may end, and the exit status of each end. It is the one thing of this crate that the program runs.

ghost use Rattle.std.specs.Prelude.{◌≡◌};
ghost use Rattle.session_meaning.specs.Statuses.{status_of};

/// How a run ends.
#[derive(Clone, Copy, Debug, PartialEq, Eq)]
pub enum Ending {
    /// The input was read to its end and all replies were written, none of them a refusal.
    Answered,
    /// The sink failed.
    WriteFault,
    /// The words of the command line are no command. Nothing was taken, and nothing written.
    BadWords,
    /// The source failed, once every line that it had ended was answered in writing.
    ReadFault,
    /// The disk failed as the store was opened. Nothing was taken, and nothing written.
    NotOpened,
    /// What the disk holds is no store: that was written, and nothing else.
    NotStore {
        /// The file that is malformed.
        file: u32,
        /// The byte at which it is.
        at: u64,
    },
    /// Memory ran out for more than one line's answer, as for opening the store; or all was read and written, and
    /// the refusals among the replies, of which there is one, are all for memory.
    Starved,
    /// The input was read to its end and all replies were written, and one of them is a refusal for another cause than
    /// memory.
    Refused,
    /// As many bytes were taken of the source as a run takes.
    Spent,
}

impl Ending {
    /// The exit status of a program that ends so.
    pub fn status(self) -> u8
        ensures { result ≡ status_of self }
    {
        match self {
            Ending::Answered => 0,
            Ending::WriteFault => 1,
            Ending::BadWords => 2,
            Ending::ReadFault => 3,
            Ending::NotOpened => 4,
            Ending::NotStore { .. } => 5,
            Ending::Starved => 6,
            Ending::Refused => 7,
            Ending::Spent => 8,
        }
    }
}
