//! What a run of events asks of its port besides the calls: that open jobs have files of their own. Only `events`
//! needs it.

ghost use Rattle.client_run.specs.OwnFiles.{HaveOwnFiles};

use crate::laws::jobs_of_a_core_have_own_files;
use disk_model::Device;
use store_core::Core;
use store_state::Port;

/// A port whose open jobs have files of their own, as each store over a disk has.
///
/// So steps of a flush and of a compaction may be made on it in turns: neither writes to a file of the other.
pub trait OwnFiles: Port {
    /// Says for proofs that the file of an open flush is no file of an open compaction: neither its own, nor that of a
    /// block that it joins. It does nothing.
    fn jobs_have_own_files(&self)
        ensures { HaveOwnFiles Self.meaning self.now };
}

impl<D: Device> OwnFiles for Core<D> {
    fn jobs_have_own_files(&self) {
        jobs_of_a_core_have_own_files(self);
    }
}
