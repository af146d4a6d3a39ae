//! Events that touch no block: pushes, looks and their ends.

ghost use Rattle.std.specs.Prelude.{◌≡◌, IfOk, IsTrue};
ghost use Rattle.disk_model.specs.Images.{bytes_of};
ghost use Rattle.store_model.specs.Event.Event.{Push, Held, Look as TakeLook, Done};
ghost use Rattle.store_model.specs.Event.Reply.{Count, Fine};
ghost use Rattle.store_model.specs.Step.{Machine, IsLookPin};
ghost use Rattle.store_state.specs.Kept.{Kept, HasKept};
ghost use Rattle.store_state.specs.Replies.{push_reply, look_reply};
ghost use Rattle.store_state.specs.Shown.{AreBlocks};
ghost use Rattle.store_core.specs.Cores.{CoreStandsFor, CoreShows, held_in};
ghost use Rattle.store_core.specs.Events.{Did};
ghost use Rattle.store_core.specs.Kept.{CoreKeeps, IsLeft};
ghost use Rattle.store_core.specs.Port.{LookShows};

use crate::store::Core;
use disk_model::Device;
use head_log::{Prepared, append};
use span_types::{Batch, Memory};
use store_files::{free_number, take_number};
use store_state::{Look, Pin, PushError};

impl<D: Device> Core<D> {
    /// Adds a batch to the history, with the moment of its coming in nanoseconds, and answers its number, counted from 0. At `Ok`
    /// every image that a crash may leave holds it.
    ///
    /// The record of a push that answers `Fault` may be found later or not. The core keeps its batch, and is read-only from then
    /// on.
    pub fn push_batch(&mut self, batch: Batch, moment: u64) -> Result<u64, PushError>
        ensures { Did D.Device.own self.old (Push batch.spans moment) (push_reply result) self.new }
    {
        let number = match self.state.admit(&batch) {
            Ok(number) => number,
            Err(error) => return Err(error),
        };
        let Ok(entry) = Prepared::of(self.alloc, number, &batch) else {
            return Err(PushError::Memory);
        };
        let Ok(ready) = self.state.live.reserve(number, batch) else {
            return Err(PushError::Memory);
        };
        match append(&mut self.disk, &mut self.state.segment, &entry) {
            Ok(()) => {
                self.state.live.add(ready, moment);
                Ok(number)
            }
            Err(_) => {
                self.stop_writing();
                self.state.unsure = Some(ready);
                Err(PushError::Fault)
            }
        }
    }

    /// How many rows are held outside of blocks, repeats among them.
    pub fn held_rows(&mut self) -> u64
        ensures { Did D.Device.own self.old Held (Count result) self.new }
    {
        self.state.live.held()
    }

    /// How many rows are held outside of blocks, repeats among them. Nothing is changed, so it is no event of the store.
    pub fn held_now(&self) -> u64
        ensures { result ≡ held_in self.now }
    {
        self.state.live.held()
    }

    /// Takes a look: all rows outside of blocks, and a pin on all blocks. It makes no device call.
    pub fn take_look(&mut self) -> Result<Look, Memory>
        ensures looked { Did D.Device.own self.old TakeLook (look_reply result) self.new }
        ensures infos { IfOk result (λ look. look.pin.blocks ≡ self.old.state.infos.items) }
        ensures kept { IfOk result (λ look. (kept : Kept) → CoreKeeps D.Device.own self.old kept →
            HasKept (λ file. bytes_of (D.held self.new.disk) file) look kept) }
        ensures whole { IsTrue (D.tells self.new.disk) → IfOk result (λ look.
            (m : Machine) → CoreShows D.Device.own self.old m
            → AreBlocks (λ file. bytes_of (D.held self.new.disk) file) look.pin.blocks) }
        ensures left { IsLeft D.Device.own self.old self.new }
        ensures shows { IfOk result (λ look. (m : Machine) → CoreStandsFor D.Device.own self.new m →
            LookShows D.Device.own self.new look m.history) }
    {
        let as_of = self.state.length();
        let rows = self.state.live.runs()?;
        let blocks = self.state.copy_infos()?;
        let files = self.state.copy_files()?;
        let number = take_number(&mut self.state.pins, files)?;
        Ok(Look {
            pin: Pin { number, blocks },
            as_of,
            rows,
        })
    }

    /// Gives a look back, and ends its pin. It makes no device call.
    pub fn end_look(&mut self, look: Look)
        requires open { (m : Machine) × CoreShows D.Device.own self.now m
            × IsLookPin look.pin.number m.state }
        ensures did { Did D.Device.own self.old (Done look.pin.number) Fine self.new }
        ensures left { IsLeft D.Device.own self.old self.new }
    {
        free_number(&mut self.state.pins, look.pin.number);
    }
}
