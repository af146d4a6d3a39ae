//! The calls of a store.

ghost use Rattle.std.specs.Prelude.{◌≡◌, ◌≢◌, ◌≤◌, ◌+◌, ℕ, List, length, Err, IsTrue, IfOk, IfSome, OnOk, OnErr};
ghost use Rattle.block_info.specs.InfoParts.{InfoParts};
ghost use Rattle.store_model.specs.Event.Event.{Push, Cut, CutAll, Held, BeginFlush, BeginCompact, WritePiece, CommitFlush, CommitCompact, DropFlush, DropCompact, Look as TakeLook, ReadPage, Done, Reclaim};
ghost use Rattle.store_model.specs.Event.Reply.{Count, Fine};
ghost use Rattle.store_model.specs.Holds.{Hold};
ghost use Rattle.store_state.specs.Kept.{Kept, HasKept};
ghost use Rattle.store_state.specs.Meaning.{View, Meaning, Called, LeavesKept, IsOpen};
ghost use Rattle.store_state.specs.Given.{look_of, flush_of, compact_of, IsJobOf, IsPinOf};
ghost use Rattle.store_state.specs.Replies.{push_reply, count_reply, begin_flush_reply, begin_compact_reply, write_reply, look_reply, page_reply, reclaim_reply};
ghost use Rattle.store_state.specs.Written.{NamesJob, IsBlockOf, IsJoinedBlock, HasWritten, page_of};
ghost use Rattle.store_state.specs.Shown.{ShowsHistory, AreBlocks, JoinsChoice};
ghost use Rattle.store_state.specs.declared.errors.WriteError.TheVariants.{ReadOnly, Fault};

use crate::{
    BeginError, CompactJob, FlushJob, JobFile, Look, Pin, PushError, ReclaimError, WriteError,
};
use block_info::SharedInfo;
use span_types::{Batch, Failed, Memory};

/// What a store answers without a file of its own for each job: pushes, looks and their ends. Each call is one event.
///
/// After a write, a cut or a sync of the disk failed the store is read-only: then pushes are refused, and looks and `done` go
/// on. Refusals are tested in the order in which `store_model` states them.
pub trait LookPort {
    /// What the port shows.
    ghost meaning: { Meaning Self };

    /// Adds a batch to the history, with the moment of its coming in nanoseconds, and answers its number, counted from 0.
    fn push(&mut self, batch: Batch, moment: u64) -> Result<u64, PushError>
        ensures { Called meaning self.old (Push batch.spans moment) (push_reply result) self.new };

    /// How many rows are held outside of blocks, repeats among them.
    fn held(&mut self) -> u64
        ensures { Called meaning self.old Held (Count result) self.new };

    /// Takes a look: all rows outside of blocks, and a pin on all listed blocks. Together they have the first occurrences of each
    /// history that is known after it. What the port keeps stays as it was. Where bytes are told, and the port says what is open in
    /// it, the file of each block that it pins is one, as its information describes it.
    fn look(&mut self) -> Result<Look, Memory>
        ensures called { Called meaning self.old TakeLook (look_reply result) self.new }
        ensures pins { IfOk result (λ look. (infos : List InfoParts) → meaning.lists self.old infos
            → look.pin.blocks ≡ infos) }
        ensures kept { IfOk result (λ look. (kept : Kept) → meaning.keeps self.old kept
            → HasKept (meaning.shows self.new) look kept) }
        ensures whole { IsTrue (meaning.tells self.new) → IfOk result (λ look.
            (held : List Hold) → meaning.holds self.old held
            → AreBlocks (meaning.shows self.new) look.pin.blocks) }
        ensures left { LeavesKept meaning self.old self.new }
        ensures shows { IfOk result (λ look. (v : View) → meaning.knows self.new v →
            ShowsHistory (IsTrue (meaning.tells self.new))
            (meaning.shows self.new) look v.history) };

    /// Gives a look back, and ends its pin. Only one that this port gave and that is open is taken. What the port keeps stays as it
    /// was.
    fn done(&mut self, look: Look)
        requires { IsOpen meaning self.now (look_of look) }
        ensures called { Called meaning self.old (Done look.pin.number) Fine self.new }
        ensures left { LeavesKept meaning self.old self.new };
}

/// What a flusher and the reads of blocks ask of a store besides, each call one event: cuts, flushes and page reads.
///
/// A call that takes a pin, a job or a job's file asks that this port gave it and that it is open. In a store that is read-only
/// calls that write are refused, and cuts and page reads go on.
pub trait FlushPort: LookPort {
    /// Moves the traces that are idle at the moment to the head, and answers how many rows it moved.
    fn cut(&mut self, moment: u64) -> Result<u64, Memory>
        ensures { Called Self.meaning self.old (Cut moment) (count_reply result) self.new };

    /// Moves all live traces to the head, and answers how many rows it moved.
    fn cut_all(&mut self) -> Result<u64, Memory>
        ensures { Called Self.meaning self.old CutAll (count_reply result) self.new };

    /// Begins a flush of the head's first 1,048,576 rows at most; none where the head is empty.
    fn begin_flush(&mut self) -> Result<Option<FlushJob>, BeginError>
        ensures called { Called Self.meaning self.old BeginFlush
            (begin_flush_reply result) self.new }
        ensures fresh { IfOk result (λ begun. IfSome begun (λ job.
            (job.out.written ≡ 0) × (1 ≤ length job.rows) × (length job.rows ≤ 1048576))) };

    /// Writes bytes at the end of those that were written to a job's file, and counts them; a refusal counts none. As long as no
    /// write failed the file is handed in as the port left it: what was written to it is what it holds. Once a write failed the
    /// answer is `ReadOnly`.
    fn write_piece(&mut self, out: &mut JobFile, bytes: &[u8]) -> Result<(), WriteError>
        requires open { IsJobOf out.now (IsOpen Self.meaning self.now) }
        requires whole { IsTrue (Self.meaning.tells self.now) → Self.meaning.writes self.now →
            HasWritten (Self.meaning.shows self.now) out.now }
        ensures called { Called Self.meaning self.old
            (WritePiece out.old.number out.old.file bytes.now)
            (write_reply result) self.new }
        ensures raised { OnOk result (out.new.written ≡ out.old.written + length bytes.now) }
        ensures kept { OnErr result (out.new.written ≡ out.old.written) }
        ensures whole { IsTrue (Self.meaning.tells self.old)
            → HasWritten (Self.meaning.shows self.old) out.old →
            result ≢ Err Fault → HasWritten (Self.meaning.shows self.new) out.new }
        ensures broken { result ≡ Err Fault → Self.meaning.writes self.new → ⊥ }
        ensures refused { (Self.meaning.writes self.old → ⊥)
            → (faults : ℕ) × (result ≡ Err (ReadOnly faults)) }
        ensures same { (out.new.number ≡ out.old.number) × (out.new.file ≡ out.old.file) };

    /// Lists a flush's block, which its file holds and the information describes, where bytes are told. The job is spent, refused
    /// or not.
    fn commit_flush(&mut self, job: FlushJob, info: SharedInfo) -> Result<(), WriteError>
        requires open { IsOpen Self.meaning self.now (flush_of job) }
        requires size { (1 ≤ info.rows) × (info.rows ≤ 1048576) }
        requires names { NamesJob job.out.file 0 info }
        requires block { IsTrue (Self.meaning.tells self.now) →
            IsBlockOf (Self.meaning.shows self.now job.out.file) info job.rows }
        ensures { Called Self.meaning self.old (CommitFlush job.out.number info.rows)
            (write_reply result) self.new };

    /// Gives a flush up: its rows go back to the head's front, and its files become loose.
    fn drop_flush(&mut self, job: FlushJob)
        requires { IsOpen Self.meaning self.now (flush_of job) }
        ensures { Called Self.meaning self.old (DropFlush job.out.number) Fine self.new };

    /// Reads a page of a pinned block as it was when the pin was taken. Past the file's end it has zeros.
    fn read_page(
        &mut self,
        pin: &Pin,
        block: u32,
        page: u64,
        buf: &mut [u8; 4096],
    ) -> Result<(), Failed>
        requires open { IsPinOf pin.now block (IsOpen Self.meaning self.now) }
        ensures called { Called Self.meaning self.old (ReadPage pin.now.number block page)
            (page_reply buf.new result)
            self.new }
        ensures bytes { IsTrue (Self.meaning.tells self.old) →
            OnOk result (buf.new ≡ page_of (Self.meaning.shows self.old block) page) }
        ensures left { LeavesKept Self.meaning self.old self.new };
}

/// All calls of a store, each of which is one event: those of a `FlushPort`, and with these compactions and the emptying of loose
/// files.
pub trait Port: FlushPort {
    /// Begins a compaction of the blocks that are to be joined next; none where no two of a level below 63 fit together. Their
    /// files hold blocks as their information describes them where bytes are told, and a history is known after it or the port says
    /// what is open in it.
    fn begin_compact(&mut self) -> Result<Option<CompactJob>, BeginError>
        ensures called { Called Self.meaning self.old BeginCompact
            (begin_compact_reply result) self.new }
        ensures fresh { IfOk result (λ begun. IfSome begun (λ job. job.out.written ≡ 0)) }
        ensures joins { (held : List Hold) → Self.meaning.holds self.old held
            → IfOk result (λ begun. IfSome begun (λ job.
            JoinsChoice (Self.meaning.lists self.old) job.level job.pin.blocks)) }
        ensures blocks { IsTrue (Self.meaning.tells self.new)
            → IfOk result (λ begun. IfSome begun (λ job.
            (v : View) → Self.meaning.knows self.new v
            → AreBlocks (Self.meaning.shows self.new) job.pin.blocks)) }
        ensures whole { IsTrue (Self.meaning.tells self.new)
            → IfOk result (λ begun. IfSome begun (λ job.
            (held : List Hold) → Self.meaning.holds self.old held
            → AreBlocks (Self.meaning.shows self.new) job.pin.blocks)) };

    /// Lists a compaction's block, which its file holds and the information describes, where bytes are told, in the place of those
    /// that it joins. The job is spent, refused or not.
    fn commit_compact(&mut self, job: CompactJob, info: SharedInfo) -> Result<(), WriteError>
        requires open { IsOpen Self.meaning self.now (compact_of job) }
        requires size { (1 ≤ info.rows) × (info.rows ≤ 1048576) }
        requires names { NamesJob job.out.file job.level info }
        requires block { IsTrue (Self.meaning.tells self.now)
            → IsJoinedBlock (Self.meaning.shows self.now)
            (Self.meaning.shows self.now job.out.file) info job.pin.blocks }
        ensures { Called Self.meaning self.old (CommitCompact job.out.number info.rows)
            (write_reply result) self.new };

    /// Gives a compaction up: its file becomes loose.
    fn drop_compact(&mut self, job: CompactJob)
        requires { IsOpen Self.meaning self.now (compact_of job) }
        ensures { Called Self.meaning self.old (DropCompact job.out.number) Fine self.new };

    /// Empties the loose files that no pin names, and answers how many: at 0 it made no device call, and else two for each file
    /// and six more at most. What is open stays open, and the bytes of its files stay. After `Fault` any of the loose files may
    /// be empty.
    fn reclaim(&mut self) -> Result<u64, ReclaimError>
        ensures { Called Self.meaning self.old Reclaim (reclaim_reply result) self.new };
}
