//! A seat as a port of flushes: cuts, flushes and page reads.
ghost use Rattle.std.specs.Prelude.{◌≡◌, ◌≢◌, ◌≤◌, ◌+◌, ℕ, length, Err, IsTrue, IfOk, IfSome, OnOk, OnErr};
ghost use Rattle.store_model.specs.Event.{Event, Reply};
ghost use Rattle.store_state.specs.Meaning.{Called, IsOpen};
ghost use Rattle.store_state.specs.Given.{flush_of, IsJobOf, IsPinOf};

use crate::asked::{Asked, Told};
use crate::seat::PortSeat;
use crate::turn::{finish, take};
use block_info::SharedInfo;
use span_types::{Failed, Memory};
use std::sync::Wait;
use store_state::{BeginError, FlushJob, FlushPort, JobFile, Pin, WriteError};

impl<'a, Q: FlushPort, R: Wait> FlushPort for PortSeat<'a, Q, R> {
    fn cut(&mut self, moment: u64) -> Result<u64, Memory> {
        let mut port = take(self.rt, self.top, &mut self.place);
        let answer = port.cut(moment);
        finish(
            self.top,
            &mut self.place,
            port,
            &Asked::Cut(moment),
            &Told::Moved(&answer),
        );
        answer
    }

    fn cut_all(&mut self) -> Result<u64, Memory> {
        let mut port = take(self.rt, self.top, &mut self.place);
        let answer = port.cut_all();
        finish(
            self.top,
            &mut self.place,
            port,
            &Asked::CutAll,
            &Told::Moved(&answer),
        );
        answer
    }

    fn begin_flush(&mut self) -> Result<Option<FlushJob>, BeginError> {
        let mut port = take(self.rt, self.top, &mut self.place);
        let answer = port.begin_flush();
        finish(
            self.top,
            &mut self.place,
            port,
            &Asked::BeginFlush,
            &Told::Flushing(&answer),
        );
        answer
    }

    fn write_piece(&mut self, out: &mut JobFile, bytes: &[u8]) -> Result<(), WriteError> {
        let asked = Asked::WritePiece(out.number, out.file, bytes);
        let mut port = take(self.rt, self.top, &mut self.place);
        let answer = port.write_piece(out, bytes);
        finish(
            self.top,
            &mut self.place,
            port,
            &asked,
            &Told::Written(&answer),
        );
        answer
    }

    fn commit_flush(&mut self, job: FlushJob, info: SharedInfo) -> Result<(), WriteError> {
        let asked = Asked::CommitFlush(job.out.number, rows_in(&info));
        let mut port = take(self.rt, self.top, &mut self.place);
        let answer = port.commit_flush(job, info);
        finish(
            self.top,
            &mut self.place,
            port,
            &asked,
            &Told::Written(&answer),
        );
        answer
    }

    fn drop_flush(&mut self, job: FlushJob) {
        let asked = Asked::DropFlush(job.out.number);
        let mut port = take(self.rt, self.top, &mut self.place);
        port.drop_flush(job);
        finish(self.top, &mut self.place, port, &asked, &Told::Done);
    }

    fn read_page(
        &mut self,
        pin: &Pin,
        block: u32,
        page: u64,
        buf: &mut [u8; 4096],
    ) -> Result<(), Failed> {
        let asked = Asked::ReadPage(pin.number, block, page);
        let mut port = take(self.rt, self.top, &mut self.place);
        let answer = port.read_page(pin, block, page, buf);
        finish(
            self.top,
            &mut self.place,
            port,
            &asked,
            &Told::Page(buf, &answer),
        );
        answer
    }
}

// how many rows the block has
pub(crate) fn rows_in(info: &SharedInfo) -> u32
    ensures { result ≡ info.now.rows }
{
    info.get().rows
}
