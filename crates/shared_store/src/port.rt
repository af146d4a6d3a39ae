//! A seat as a port of all calls: compactions and the emptying of loose files besides.

use crate::asked::{Asked, Told};
use crate::flush_port::rows_in;
use crate::seat::PortSeat;
use crate::turn::{finish, take};
use block_info::SharedInfo;
use std::sync::Wait;
use store_state::{BeginError, CompactJob, Port, ReclaimError, WriteError};

impl<'a, Q: Port, R: Wait> Port for PortSeat<'a, Q, R> {
    fn begin_compact(&mut self) -> Result<Option<CompactJob>, BeginError> {
        let mut port = take(self.rt, self.top, &mut self.place);
        let answer = port.begin_compact();
        finish(
            self.top,
            &mut self.place,
            port,
            &Asked::BeginCompact,
            &Told::Compacting(&answer),
        );
        answer
    }

    fn commit_compact(&mut self, job: CompactJob, info: SharedInfo) -> Result<(), WriteError> {
        let asked = Asked::CommitCompact(job.out.number, rows_in(&info));
        let mut port = take(self.rt, self.top, &mut self.place);
        let answer = port.commit_compact(job, info);
        finish(
            self.top,
            &mut self.place,
            port,
            &asked,
            &Told::Written(&answer),
        );
        answer
    }

    fn drop_compact(&mut self, job: CompactJob) {
        let asked = Asked::DropCompact(job.out.number);
        let mut port = take(self.rt, self.top, &mut self.place);
        port.drop_compact(job);
        finish(self.top, &mut self.place, port, &asked, &Told::Done);
    }

    fn reclaim(&mut self) -> Result<u64, ReclaimError> {
        let mut port = take(self.rt, self.top, &mut self.place);
        let answer = port.reclaim();
        finish(
            self.top,
            &mut self.place,
            port,
            &Asked::Reclaim,
            &Told::Emptied(&answer),
        );
        answer
    }
}
