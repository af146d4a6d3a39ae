//! The lists that commits make, and the memory once they count. Nothing here takes memory.

ghost use Rattle.std.specs.Prelude.{◌≡◌, ℕ, ◌≤◌, ◌+◌, ◌-◌, ◌*◌, ◌++◌, ◌∷◌, [], not, length, take, None, Some, IfSome, IsSome};
ghost use Rattle.std.specs.Vec.{vec_len, vec_capacity};
ghost use Rattle.block_list.specs.Body.{MeetsRules};
ghost use Rattle.block_list.specs.Commit.{IsListText};
ghost use Rattle.block_list.specs.declared.body.ListBody.{ListBody};
ghost use Rattle.store_model.specs.State.{is_among};
ghost use Rattle.store_core.specs.Jobs.{HasCommitRoom, one_if};
ghost use Rattle.store_core.specs.NextList.{IsNextList, IsJoinedList, infos_outside, length_of};

use crate::state::CoreState;
use block_info::SharedInfo;
use block_list::{BlockRef, ListBody, PreparedList, SegmentRef};
use head_log::Segment;
use store_state::{ListEdit, NewSegment, floor_of};

impl CoreState {
    /// The list that the commit of the open flush makes, with a block of so many rows, and the list's text. They take the
    /// room of the commit; the flush stays open.
    pub(crate) fn next_list(&mut self, rows: u32) -> (ListBody, PreparedList)
        requires open { IsSome self.now.jobs.flush }
        requires room { HasCommitRoom self.now.jobs self.now.list self.now.infos }
        requires few { length_of self.now ≤ 4294967295 }
        requires rules { IfSome self.now.jobs.flush (λ known. (next : ListBody) →
            IsNextList self.now known.files rows next → MeetsRules next) }
        ensures list { IfSome self.old.jobs.flush
            (λ known. IsNextList self.old known.files rows result.0) }
        ensures text { IsListText result.1 result.0 }
        ensures flush { IfSome self.old.jobs.flush (λ known.
            self.new.jobs.flush ≡ Some (record known { room = None })) }
        ensures same { self.new
            ≡ record self.old { jobs = record self.old.jobs { flush = self.new.jobs.flush } } }
    {
        let first = self.length();
        let floor = floor_of(first, self.live.least_number());
        let (files, room) = self.jobs.take_room();
        let block = BlockRef {
            file: files.block,
            level: 0,
            rows,
        };
        let segment = SegmentRef {
            file: files.segment,
            first,
        };
        let compaction = self.jobs.compact_file();
        let edit = ListEdit {
            next_file: self.jobs.next_file,
            loose: self.jobs.loose.as_slice(),
            joined: &[],
            block: Some(block),
            segment: Some(NewSegment { segment, floor }),
            flush: None,
            compaction,
        };
        room.edited(&self.list, edit)
    }

    /// The list counts that the commit of the open flush made, with a block of which this is known: no flush is open, its
    /// rows are in the block, and pushes go to its segment.
    pub(crate) fn take_over(&mut self, list: ListBody, info: SharedInfo)
        requires open { IsSome self.now.jobs.flush }
        requires few { length_of self.now ≤ 4294967295 }
        requires infos { vec_len self.now.infos + 1 ≤ vec_capacity self.now.infos }
        requires other { one_if self.now.jobs.compaction ≤ length list.loose }
        requires loose { length list.loose ≤ vec_capacity self.now.jobs.loose }
        ensures list { self.new.list ≡ list }
        ensures infos { self.new.infos.items ≡ self.old.infos.items ++ info ∷ [] }
        ensures segment { IfSome self.old.jobs.flush
            (λ known. self.new.segment.file ≡ known.files.segment) }
        ensures empty { (self.new.segment.first ≡ length_of self.old) × (self.new.segment.count ≡ 0)
            × (self.new.segment.gate ≡ 1) }
        ensures jobs { (self.new.jobs.flush ≡ None)
            × (self.new.jobs.compaction ≡ self.old.jobs.compaction)
            × (self.new.jobs.begun ≡ self.old.jobs.begun)
            × (self.new.jobs.next_file ≡ self.old.jobs.next_file) }
        ensures loose { self.new.jobs.loose.items
            ≡ take (length list.loose - one_if self.old.jobs.compaction) list.loose }
        ensures room { (vec_capacity self.old.jobs.loose ≤ vec_capacity self.new.jobs.loose)
            × (vec_capacity self.old.infos ≤ vec_capacity self.new.infos) }
        ensures rows { (self.new.live.flushing ≡ []) × (self.new.live.head ≡ self.old.live.head)
            × (self.new.live.live ≡ self.old.live.live) }
        ensures same { (self.new.pins ≡ self.old.pins) × (self.new.read_only ≡ self.old.read_only)
            × (self.new.unsure ≡ self.old.unsure) }
    {
        let first = self.length();
        let files = self.jobs.end_flush(list.loose.as_slice());
        self.live.end_flush();
        self.segment = Segment::fresh(files.segment, first);
        self.infos.push_reserved(info);
        self.list = list;
    }

    /// The list that the commit of the open compaction makes, with a block of so many rows in the place of the blocks in these
    /// files, and the list's text. They take the room of the commit; the compaction stays open.
    pub(crate) fn joined_list(&mut self, joined: &[u32], rows: u32) -> (ListBody, PreparedList)
        requires open { IsSome self.now.jobs.compaction }
        requires room { HasCommitRoom self.now.jobs self.now.list self.now.infos }
        requires rules { IfSome self.now.jobs.compaction (λ known. (next : ListBody) →
            IsJoinedList self.now known joined.now rows next → MeetsRules next) }
        ensures list { IfSome self.old.jobs.compaction
            (λ known. IsJoinedList self.old known joined.now rows result.0) }
        ensures text { IsListText result.1 result.0 }
        ensures compaction { IfSome self.old.jobs.compaction (λ known.
            self.new.jobs.compaction ≡ Some (record known { room = None })) }
        ensures same { self.new
            ≡ record self.old { jobs = record self.old.jobs { compaction = self.new.jobs.compaction } } }
    {
        let (file, level, room) = self.jobs.take_compact_room();
        let flush = self.jobs.flush_files();
        let edit = ListEdit {
            next_file: self.jobs.next_file,
            loose: self.jobs.loose.as_slice(),
            joined,
            block: Some(BlockRef { file, level, rows }),
            segment: None,
            flush,
            compaction: None,
        };
        room.edited(&self.list, edit)
    }

    /// The list counts that the commit of the open compaction made, with a block of which this is known, in the place of those in
    /// these files, and no compaction is open.
    pub(crate) fn take_over_joined(&mut self, list: ListBody, joined: &[u32], info: SharedInfo)
        requires infos { vec_len self.now.infos + 1 ≤ vec_capacity self.now.infos }
        requires other { 2 * one_if self.now.jobs.flush ≤ length list.loose }
        requires loose { length list.loose ≤ vec_capacity self.now.jobs.loose }
        ensures list { self.new.list ≡ list }
        ensures infos { self.new.infos.items
            ≡ infos_outside joined.now self.old.infos.items ++ info ∷ [] }
        ensures jobs { (self.new.jobs.compaction ≡ None)
            × (self.new.jobs.flush ≡ self.old.jobs.flush)
            × (self.new.jobs.begun ≡ self.old.jobs.begun)
            × (self.new.jobs.next_file ≡ self.old.jobs.next_file) }
        ensures loose { self.new.jobs.loose.items
            ≡ take (length list.loose - 2 * one_if self.old.jobs.flush) list.loose }
        ensures room { (vec_capacity self.old.jobs.loose ≤ vec_capacity self.new.jobs.loose)
            × (vec_capacity self.old.infos ≤ vec_capacity self.new.infos) }
        ensures same { (self.new.live ≡ self.old.live) × (self.new.segment ≡ self.old.segment)
            × (self.new.pins ≡ self.old.pins)
            × (self.new.read_only ≡ self.old.read_only) × (self.new.unsure ≡ self.old.unsure) }
    {
        self.jobs.end_compact(list.loose.as_slice());
        keep_outside(&mut self.infos, joined);
        self.infos.push_reserved(info);
        self.list = list;
    }
}

// The information of the blocks outside of these files stays, in its order.
fn keep_outside(infos: &mut Vec<SharedInfo>, joined: &[u32])
    ensures items { infos.new.items ≡ infos_outside joined.now infos.old.items }
    ensures len { vec_len infos.new ≤ vec_len infos.old }
    ensures room { vec_capacity infos.old ≤ vec_capacity infos.new }
{
    infos.retain(|info| !is_in(info.get().file, joined));
}

// Whether the file is one of these.
fn is_in(file: u32, files: &[u32]) -> bool
    ensures { result ≡ is_among file files.now }
{
    files.iter().any(|other| *other == file)
}
