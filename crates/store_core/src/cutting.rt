//! Cuts: live traces move to the head.

ghost use Rattle.store_model.specs.Event.Event.{Cut, CutAll};
ghost use Rattle.store_state.specs.Replies.{count_reply};
ghost use Rattle.store_core.specs.Events.{Did};

use crate::store::Core;
use disk_model::Device;
use span_types::Memory;

impl<D: Device> Core<D> {
    /// Moves the traces that had no push for ten seconds before the moment, in nanoseconds, to the head, and answers how many
    /// rows it moved. It makes no device call, and goes on in a store that is read-only. Out of memory nothing moves.
    pub fn cut_idle(&mut self, moment: u64) -> Result<u64, Memory>
        ensures { Did D.Device.own self.old (Cut moment) (count_reply result) self.new }
    {
        self.state.live.cut_idle(moment)
    }

    /// Moves all live traces to the head, and answers how many rows it moved. It makes no device call, and goes on in a store that
    /// is read-only. Out of memory nothing moves.
    pub fn cut_all(&mut self) -> Result<u64, Memory>
        ensures { Did D.Device.own self.old CutAll (count_reply result) self.new }
    {
        self.state.live.cut_all()
    }
}
