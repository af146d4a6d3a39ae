//! The flush and the compaction of a run of events, each as far as its steps were made.

ghost use Rattle.std.specs.Prelude.{◌≡◌};
ghost use Rattle.client_run.specs.Taken.{no_steps};

use compactor::CompactTask;
use flusher::FlushTask;
use std::alloc::Global;

// The flush and the compaction for which steps are made.
#[derive(Drop)]
pub(crate) struct Tasks {
    pub(crate) flush: FlushTask,
    pub(crate) compaction: CompactTask,
}

// Neither of them has made an event.
pub(crate) fn no_steps(alloc: Global) -> Tasks
    ensures { result ≡ no_steps }
{
    Tasks {
        flush: FlushTask::new(alloc),
        compaction: CompactTask::new(alloc),
    }
}
