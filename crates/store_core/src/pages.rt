//! Pages of blocks are read, through the page cache.

ghost use Rattle.std.specs.Prelude.{◌≡◌, ◌*◌, ◌++◌, ◌^◌, ◌<◌, ◌≤◌, IsTrue, OnOk, IsOk, IsErr, drop, replicate, take, true};
ghost use Rattle.disk_model.specs.Calls.{Counts};
ghost use Rattle.disk_model.specs.Counts.{RoseBy};
ghost use Rattle.disk_model.specs.Images.{bytes_of};
ghost use Rattle.disk_model.specs.Crash.{Untouched};
ghost use Rattle.store_model.specs.Event.Event.{ReadPage};
ghost use Rattle.store_model.specs.State.{block_files, is_among, pinned_blocks};
ghost use Rattle.store_model.specs.Step.{Machine};
ghost use Rattle.store_state.specs.Replies.{page_reply};
ghost use Rattle.store_state.specs.Written.{page_of};
ghost use Rattle.store_core.specs.Cores.{CoreShows};
ghost use Rattle.store_core.specs.Events.{Did};
ghost use Rattle.store_files.specs.Files.{read_over};
ghost use Rattle.store_core.specs.Frames.{IsReadThrough};
ghost use Rattle.store_core.specs.Kept.{IsLeft};

use crate::store::Core;
use disk_model::Device;
use span_types::Failed;
use store_state::Pin;

impl<D: Device> Core<D> {
    /// Reads a page of 4,096 bytes of a pinned block. Past the file's end it has zeros. It makes one device call at most, takes no memory,
    /// and goes on in a store that is read-only.
    ///
    /// A page that stands in a frame of the page cache is answered from it. Another one is read, and takes the last frame. Either is then in
    /// the first frame. A page whose place passes 64 bits is past the end of every file: it costs no call, and isn't kept.
    pub fn read_page(
        &mut self,
        pin: &Pin,
        block: u32,
        page: u64,
        buf: &mut [u8; 4096],
    ) -> Result<(), Failed>
        requires open { (m : Machine) × CoreShows D.Device.own self.now m
            × (is_among block (block_files (pinned_blocks pin.now.number m.state.pins)) ≡ true) }
        ensures did { Did D.Device.own self.old (ReadPage pin.now.number block page)
            (page_reply buf.new result) self.new }
        ensures bytes { IsTrue (D.tells self.old.disk) →
            OnOk result (buf.new ≡ page_of (bytes_of (D.held self.old.disk) block) page) }
        ensures left { IsLeft D.Device.own self.old self.new }
        ensures through { page * 4096 < 2 ^ 64
            → IsReadThrough block page buf.new result self.old.cache self.new.cache
            (D.reads self.old.disk) (D.reads self.new.disk) (D.calls self.old.disk)
            (D.calls self.new.disk) }
        ensures far { 2 ^ 64 ≤ page * 4096
            → (self.new.cache ≡ self.old.cache) × (self.new.disk ≡ self.old.disk) }
    {
        let Some(at) = page.checked_mul(4096) else {
            read_past_end(&self.disk, block, page, buf);
            return Ok(());
        };
        if self.cache.find(block, page, buf) {
            return Ok(());
        }
        match read_from(&mut self.disk, block, at, buf) {
            Ok(()) => {
                self.cache.keep(block, page, buf);
                Ok(())
            }
            Err(error) => Err(error),
        }
    }
}

// A page past the end of its file, as no file is so long that the place of its page passes 64 bits.
fn read_past_end<D: Device>(disk: &D, file: u32, page: u64, buf: &mut [u8; 4096])
    requires { 2 ^ 64 ≤ page * 4096 }
    ensures { IsTrue (D.tells disk.now) → buf.new ≡ page_of (bytes_of (D.held disk.now) file) page }
{
    *buf = [0; 4096];
    disk.is_short(file);
}

// 4,096 bytes of a file from there on, and zeros past its end.
fn read_from<D: Device>(
    disk: &mut D,
    file: u32,
    at: u64,
    buf: &mut [u8; 4096],
) -> Result<(), Failed>
    ensures bytes { IsTrue (D.tells disk.old) → OnOk result (buf.new
        ≡ take 4096 (drop at (bytes_of (D.held disk.old) file) ++ replicate 4096 0)) }
    ensures untouched { Untouched D.tells D.held D.may_leave D.moment D.left_since disk.old disk.new }
    ensures calls { RoseBy 1 (D.calls disk.old) (D.calls disk.new) }
    ensures reads { RoseBy 1 (D.reads disk.old) (D.reads disk.new) }
    ensures counted { Counts D.Device.own 0 (IsOk result) (IsErr result) disk.old disk.new }
{
    *buf = [0; 4096];
    read_at(disk, file, at, buf)
}

// The bytes of a file from there on, as far as there are any.
fn read_at<D: Device>(disk: &mut D, file: u32, at: u64, buf: &mut [u8; 4096]) -> Result<(), Failed>
    ensures bytes { IsTrue (D.tells disk.old) → OnOk result (buf.new
        ≡ read_over (bytes_of (D.held disk.old) file) at buf.old) }
    ensures untouched { Untouched D.tells D.held D.may_leave D.moment D.left_since disk.old disk.new }
    ensures calls { RoseBy 1 (D.calls disk.old) (D.calls disk.new) }
    ensures reads { RoseBy 1 (D.reads disk.old) (D.reads disk.new) }
    ensures counted { Counts D.Device.own 0 (IsOk result) (IsErr result) disk.old disk.new }
{
    match disk.read(file, at, &mut buf[..]) {
        Ok(_) => Ok(()),
        Err(_) => Err(Failed),
    }
}
