//! A store as lists of rows and files, for tests that play events: what each event means, worked out from scratch
//! each time.
//!
//! Its blocks have few rows: all of them have four pages and are written in one piece, and any four of them may be
//! joined.

use span_types::Memory;
use std::alloc::Global;
use std::mem;
use store_state::{Round, Step};

// How long a trace is quiet before a cut moves it, in nanoseconds.
const IDLE: u64 = 10_000_000_000;

/// A row: the last bytes of its ids, its start, its place, and the moment at which it came.
#[derive(Clone, Copy)]
pub(crate) struct Row {
    pub(crate) trace: u8,
    pub(crate) span: u8,
    pub(crate) start: u64,
    pub(crate) number: u64,
    pub(crate) position: u32,
    pub(crate) moment: u64,
}

/// What the header of a block says of its rows.
#[derive(Clone, Copy)]
pub(crate) struct Header {
    pub(crate) file: u32,
    pub(crate) rows: u64,
    pub(crate) earliest: u64,
    pub(crate) latest: u64,
}

#[derive(Drop)]
struct Block {
    file: u32,
    level: u8,
    rows: Vec<Row>,
}

// A flush, and how many steps it goes on.
#[derive(Drop)]
struct Flush {
    file: u32,
    segment: u32,
    rows: Vec<Row>,
    steps: usize,
}

// A compaction, the files that it joins, and how many steps it goes on.
#[derive(Drop)]
struct Compaction {
    file: u32,
    level: u8,
    joins: Vec<u32>,
    steps: usize,
}

#[derive(Drop)]
struct Look {
    is_open: bool,
    files: Vec<u32>,
}

fn is_among(file: u32, files: &[u32]) -> bool {
    files.iter().any(|other| *other == file)
}

fn are_one_span(a: &Row, b: &Row) -> bool {
    a.trace == b.trace && a.span == b.span
}

fn comes_before(a: &Row, b: &Row) -> bool {
    a.number < b.number || (a.number == b.number && a.position < b.position)
}

// Whether no row of the same span came before this one.
fn is_first(row: &Row, rows: &[Row]) -> bool {
    let mut first = true;
    for other in rows {
        first &= !are_one_span(row, other) || !comes_before(other, row);
    }
    first
}

/// Of each span the row that came first.
pub(crate) fn firsts(alloc: Global, rows: &[Row]) -> Result<Vec<Row>, Memory> {
    let mut found = Vec::new(alloc);
    for row in rows {
        if is_first(row, rows) {
            found.push(*row)?;
        }
    }
    Ok(found)
}

// The moment of the last live row of a trace.
fn last_moment(trace: u8, live: &[Row]) -> u64 {
    let mut last = 0;
    for row in live {
        if row.trace == trace {
            last = row.moment;
        }
    }
    last
}

// Whether the row's trace is idle at a moment; at none each trace is.
fn is_idle(row: &Row, live: &[Row], moment: Option<u64>) -> bool {
    match moment {
        Some(moment) => last_moment(row.trace, live).saturating_add(IDLE) <= moment,
        None => true,
    }
}

// The least number of these rows and the one that is given.
fn least(number: u64, rows: &[Row]) -> u64 {
    let mut least = number;
    for row in rows {
        least = least.min(row.number);
    }
    least
}

fn header_of(file: u32, rows: &[Row]) -> Header {
    let mut earliest = u64::MAX;
    let mut latest = 0;
    for row in rows {
        earliest = earliest.min(row.start);
        latest = latest.max(row.start);
    }
    Header {
        file,
        rows: rows.len() as u64,
        earliest,
        latest,
    }
}

// The files of the first four blocks of a level.
fn files_at(alloc: Global, blocks: &[Block], level: u8) -> Result<Vec<u32>, Memory> {
    let mut files = Vec::new(alloc);
    for block in blocks {
        if block.level == level && files.len() < 4 {
            files.push(block.file)?;
        }
    }
    Ok(files)
}

// The blocks that are joined next, and their level: those of the lowest level that has two.
fn choice(alloc: Global, blocks: &[Block]) -> Result<Option<(u8, Vec<u32>)>, Memory> {
    for level in 0..63 {
        let files = files_at(alloc, blocks, level)?;
        if files.len() > 1 {
            return Ok(Some((level, files)));
        }
    }
    Ok(None)
}

/// A store.
#[derive(Drop)]
pub(crate) struct Model {
    alloc: Global,
    /// All rows that were pushed.
    pub(crate) pushed: Vec<Row>,
    /// How many pushes there were.
    pub(crate) count: u64,
    live: Vec<Row>,
    head: Vec<Row>,
    flush: Option<Flush>,
    compaction: Option<Compaction>,
    blocks: Vec<Block>,
    segments: Vec<(u32, u64)>,
    loose: Vec<u32>,
    next_file: u32,
    looks: Vec<Look>,
    /// The headers of all blocks that were ever listed.
    pub(crate) headers: Vec<Header>,
    /// The files that were emptied.
    pub(crate) emptied: Vec<u32>,
}

impl Model {
    /// A new store: the log begins in file 2.
    pub(crate) fn new(alloc: Global) -> Result<Model, Memory> {
        Ok(Model {
            alloc,
            pushed: Vec::new(alloc),
            count: 0,
            live: Vec::new(alloc),
            head: Vec::new(alloc),
            flush: None,
            compaction: None,
            blocks: Vec::new(alloc),
            segments: Vec::from_array(alloc, [(2, 0)])?,
            loose: Vec::new(alloc),
            next_file: 3,
            looks: Vec::new(alloc),
            headers: Vec::new(alloc),
            emptied: Vec::new(alloc),
        })
    }

    /// How many looks were taken.
    pub(crate) fn looks_taken(&self) -> u64 {
        self.looks.len() as u64
    }

    /// A block that a look has pinned.
    pub(crate) fn pinned_by(&self, look: u64, at: u8) -> Option<u32> {
        let look = self.looks.get(look as usize)?;
        look.files.get(usize::from(at)).copied()
    }

    /// Rows of one push wait as live ones.
    pub(crate) fn push(&mut self, rows: &[Row]) -> Result<u64, Memory> {
        let number = self.count;
        self.pushed.extend_from_slice(rows)?;
        self.live.extend_from_slice(rows)?;
        self.count = number.saturating_add(1);
        Ok(number)
    }

    /// The traces that are idle at a moment, or all, go to the head.
    pub(crate) fn cut(&mut self, moment: Option<u64>) -> Result<u64, Memory> {
        let mut live = Vec::new(self.alloc);
        let mut moved = 0u64;
        for row in self.live.as_slice() {
            if is_idle(row, self.live.as_slice(), moment) {
                self.head.push(*row)?;
                moved = moved.saturating_add(1);
            } else {
                live.push(*row)?;
            }
        }
        self.live = live;
        Ok(moved)
    }

    /// A flush begins, is written, or is listed.
    pub(crate) fn flush_step(&mut self) -> Result<Step, Memory> {
        match self.flush.take() {
            Some(job) => self.go_on_flushing(job),
            None => Ok(self.begin_flush()),
        }
    }

    fn begin_flush(&mut self) -> Step {
        if self.head.is_empty() {
            return Step::Ended(Round::Nothing);
        }
        let file = self.next_file;
        self.next_file = file.saturating_add(2);
        self.flush = Some(Flush {
            file,
            segment: file.saturating_add(1),
            rows: mem::replace(&mut self.head, Vec::new(self.alloc)),
            steps: 1,
        });
        Step::More
    }

    fn go_on_flushing(&mut self, job: Flush) -> Result<Step, Memory> {
        if job.steps == 0 {
            return self.commit_flush(job);
        }
        let mut job = job;
        job.steps = job.steps.saturating_sub(1);
        self.flush = Some(job);
        Ok(Step::More)
    }

    // The new segment begins after all pushes. The segments go whose rows are all in blocks.
    fn commit_flush(&mut self, job: Flush) -> Result<Step, Memory> {
        let floor = least(
            least(self.count, self.head.as_slice()),
            self.live.as_slice(),
        );
        self.segments.push((job.segment, self.count))?;
        self.release(floor)?;
        self.list_block(job.file, 0, job.rows.as_slice(), 1)
    }

    // The segments become loose whose followers begin at the floor or below it.
    fn release(&mut self, floor: u64) -> Result<(), Memory> {
        let mut stay = Vec::new(self.alloc);
        let mut behind = None;
        for segment in self.segments.as_slice() {
            let (file, first) = *segment;
            if let Some((before, number)) = behind {
                if first <= floor {
                    self.loose.push(before)?;
                } else {
                    stay.push((before, number))?;
                }
            }
            behind = Some((file, first));
        }
        if let Some(last) = behind {
            stay.push(last)?;
        }
        self.segments = stay;
        Ok(())
    }

    // The first occurrences of these rows are listed as a block.
    fn list_block(
        &mut self,
        file: u32,
        level: u8,
        rows: &[Row],
        blocks: u32,
    ) -> Result<Step, Memory> {
        let rows = firsts(self.alloc, rows)?;
        let count = u32::try_from(rows.len()).unwrap_or(0);
        self.headers.push(header_of(file, rows.as_slice()))?;
        self.blocks.push(Block { file, level, rows })?;
        Ok(Step::Ended(Round::Did {
            blocks,
            rows: count,
        }))
    }

    /// A compaction begins, a page of a block is read, the new block is written, or it is listed.
    pub(crate) fn compact_step(&mut self) -> Result<Step, Memory> {
        match self.compaction.take() {
            Some(job) => self.go_on_joining(job),
            None => self.begin_compaction(),
        }
    }

    fn begin_compaction(&mut self) -> Result<Step, Memory> {
        let Some((level, joins)) = choice(self.alloc, self.blocks.as_slice())? else {
            return Ok(Step::Ended(Round::Nothing));
        };
        let file = self.next_file;
        self.next_file = file.saturating_add(1);
        let steps = joins.len().saturating_mul(4).saturating_add(1);
        self.compaction = Some(Compaction {
            file,
            level: level.saturating_add(1),
            joins,
            steps,
        });
        Ok(Step::More)
    }

    fn go_on_joining(&mut self, job: Compaction) -> Result<Step, Memory> {
        if job.steps == 0 {
            return self.commit_compaction(job);
        }
        let mut job = job;
        job.steps = job.steps.saturating_sub(1);
        self.compaction = Some(job);
        Ok(Step::More)
    }

    // The new block takes the place of those that it joins.
    fn commit_compaction(&mut self, job: Compaction) -> Result<Step, Memory> {
        let mut stay = Vec::new(self.alloc);
        let mut rows = Vec::new(self.alloc);
        for block in mem::replace(&mut self.blocks, Vec::new(self.alloc)) {
            if is_among(block.file, job.joins.as_slice()) {
                rows.extend_from_slice(block.rows.as_slice())?;
                self.loose.push(block.file)?;
            } else {
                stay.push(block)?;
            }
        }
        self.blocks = stay;
        let blocks = u32::try_from(job.joins.len()).unwrap_or(0);
        self.list_block(job.file, job.level, rows.as_slice(), blocks)
    }

    /// A look is taken: it has all rows that are in no block, and pins all blocks.
    pub(crate) fn look(&mut self) -> Result<Vec<Row>, Memory> {
        let mut files = Vec::new(self.alloc);
        for block in self.blocks.as_slice() {
            files.push(block.file)?;
        }
        self.looks.push(Look {
            is_open: true,
            files,
        })?;
        let mut rows = Vec::new(self.alloc);
        if let Some(job) = &self.flush {
            rows.extend_from_slice(job.rows.as_slice())?;
        }
        rows.extend_from_slice(self.head.as_slice())?;
        rows.extend_from_slice(self.live.as_slice())?;
        Ok(rows)
    }

    /// Whether a look is open and names the block.
    pub(crate) fn names(&self, look: u64, block: u32) -> bool {
        match self.looks.get(look as usize) {
            Some(look) => look.is_open && is_among(block, look.files.as_slice()),
            None => false,
        }
    }

    /// A look is given back. Whether it was open.
    pub(crate) fn done(&mut self, look: u64) -> bool {
        match self.looks.get_mut(look as usize) {
            Some(look) => mem::replace(&mut look.is_open, false),
            None => false,
        }
    }

    fn is_pinned(&self, file: u32) -> bool {
        let mut pinned = false;
        for look in self.looks.as_slice() {
            pinned |= look.is_open && is_among(file, look.files.as_slice());
        }
        match &self.compaction {
            Some(job) => pinned || is_among(file, job.joins.as_slice()),
            None => pinned,
        }
    }

    /// The loose files that no pin names are emptied.
    pub(crate) fn reclaim(&mut self) -> Result<u64, Memory> {
        let mut stay = Vec::new(self.alloc);
        let mut gone = Vec::new(self.alloc);
        for file in self.loose.as_slice() {
            if self.is_pinned(*file) {
                stay.push(*file)?;
            } else {
                gone.push(*file)?;
            }
        }
        self.loose = stay;
        self.emptied.extend_from_slice(gone.as_slice())?;
        Ok(gone.len() as u64)
    }

    /// The files of the blocks that are listed.
    pub(crate) fn listed(&self) -> Result<Vec<u32>, Memory> {
        let mut files = Vec::new(self.alloc);
        for block in self.blocks.as_slice() {
            files.push(block.file)?;
        }
        Ok(files)
    }
}
