//! A core as a port.

ghost use Rattle.std.specs.Prelude.{◌≡◌, ◌*◌, ◌^◌, ◌<◌, ◌≤◌, [], IsTrue, OnOk};
ghost use Rattle.store_model.specs.Event.{Event, Reply};
ghost use Rattle.store_model.specs.Event.Event.{ReadPage};
ghost use Rattle.store_state.specs.Given.{IsPinOf};
ghost use Rattle.store_state.specs.Meaning.{Called, IsOpen, LeavesKept};
ghost use Rattle.store_state.specs.Replies.{page_reply};
ghost use Rattle.store_state.specs.Written.{page_of};
ghost use Rattle.disk_model.specs.Images.{bytes_of};
ghost use Rattle.store_model.specs.Step.{Machine};
ghost use Rattle.store_core.specs.Cores.{CoreStandsFor, CoreShows};
ghost use Rattle.store_core.specs.Events.{Did};
ghost use Rattle.store_core.specs.Frames.{IsReadThrough};
ghost use Rattle.store_core.specs.Kept.{kept_in};
ghost use Rattle.store_core.specs.Port.{port_of};

use crate::store::Core;
use block_info::SharedInfo;
use disk_model::Device;
use span_types::{Batch, Failed, Memory};
use store_state::{
    BeginError, CompactJob, FlushJob, FlushPort, JobFile, Look, LookPort, Pin, Port, PushError,
    ReclaimError, WriteError,
};

impl<D: Device> LookPort for Core<D> {
    ghost meaning = { port_of D.Device.own };

    fn push(&mut self, batch: Batch, moment: u64) -> Result<u64, PushError> {
        self.push_batch(batch, moment)
    }

    fn held(&mut self) -> u64 {
        self.held_rows()
    }

    fn look(&mut self) -> Result<Look, Memory> {
        self.take_look()
    }

    fn done(&mut self, look: Look) {
        self.end_look(look);
    }
}

impl<D: Device> FlushPort for Core<D> {
    fn cut(&mut self, moment: u64) -> Result<u64, Memory> {
        self.cut_idle(moment)
    }

    fn cut_all(&mut self) -> Result<u64, Memory> {
        self.cut_all()
    }

    fn begin_flush(&mut self) -> Result<Option<FlushJob>, BeginError> {
        self.begin_flush()
    }

    fn write_piece(&mut self, out: &mut JobFile, bytes: &[u8]) -> Result<(), WriteError> {
        self.write_piece(out, bytes)
    }

    fn commit_flush(&mut self, job: FlushJob, info: SharedInfo) -> Result<(), WriteError> {
        self.commit_flush(job, info)
    }

    fn drop_flush(&mut self, job: FlushJob) {
        self.drop_flush(job);
    }

    fn read_page(
        &mut self,
        pin: &Pin,
        block: u32,
        page: u64,
        buf: &mut [u8; 4096],
    ) -> Result<(), Failed>
        requires open { IsPinOf pin.now block (IsOpen (port_of D.Device.own) self.now) }
        ensures called { Called (port_of D.Device.own) self.old (ReadPage pin.now.number block page)
            (page_reply buf.new result) self.new }
        ensures bytes { IsTrue (D.tells self.old.disk) →
            OnOk result (buf.new ≡ page_of (bytes_of (D.held self.old.disk) block) page) }
        ensures left { LeavesKept (port_of D.Device.own) self.old self.new }
        // The page goes through the page cache, as that of `Core::read_page`.
        ensures through { page * 4096 < 2 ^ 64
            → IsReadThrough block page buf.new result self.old.cache self.new.cache
            (D.reads self.old.disk) (D.reads self.new.disk) (D.calls self.old.disk)
            (D.calls self.new.disk) }
        ensures far { 2 ^ 64 ≤ page * 4096
            → (self.new.cache ≡ self.old.cache) × (self.new.disk ≡ self.old.disk) }
    {
        self.read_page(pin, block, page, buf)
    }
}

impl<D: Device> Port for Core<D> {
    fn begin_compact(&mut self) -> Result<Option<CompactJob>, BeginError> {
        self.begin_compact()
    }

    fn commit_compact(&mut self, job: CompactJob, info: SharedInfo) -> Result<(), WriteError> {
        self.commit_compact(job, info)
    }

    fn drop_compact(&mut self, job: CompactJob) {
        self.drop_compact(job);
    }

    fn reclaim(&mut self) -> Result<u64, ReclaimError> {
        self.reclaim()
    }
}

/// An event of a core is a call of its port: what is known of the history and what is open go on as a port's
/// calls say, by the step of the machine that the core stands for.
pub fn an_event_is_a_call<D: Device>(old: &Core<D>, new: &Core<D>)
    ensures { (event : Event) (reply : Reply) →
        Did D.Device.own old.now event reply new.now →
        Called (port_of D.Device.own) old.now event reply new.now }
{}

/// A core whose memory shows a machine, as that of each one does which was opened, is a port in which nothing of a caller's is open:
/// what it gives out from then on is.
pub fn a_shown_core_is_a_port<D: Device>(core: &Core<D>)
    ensures { (m : Machine) → CoreShows D.Device.own core.now m
        → (port_of D.Device.own).holds core.now [] }
{}

/// Over a disk that tells its bytes a core that stands for a machine keeps that machine's blocks, with their rows, and its rows
/// outside of them.
pub fn a_core_keeps_its_blocks<D: Device>(core: &Core<D>)
    ensures { IsTrue (D.tells core.now.disk) → (m : Machine)
        → CoreStandsFor D.Device.own core.now m →
        (port_of D.Device.own).keeps core.now (kept_in core.now.state m.state) }
{}
