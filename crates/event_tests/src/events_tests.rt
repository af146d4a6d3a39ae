//! Lists of events on a store over a disk in memory: one whose every reply was worked out by hand, and long random
//! ones against what the events mean.

ghost use Rattle.std.specs.Prelude.{◌≤◌};

use crate::event_model::{Header, Model, Row, firsts};
use client_run::{Event, EventReply, Events, Replies, Seen, run_events};
use disk_model::{Device, MemDisk};
use otlp_spans::{Reading, read_line};
use query_fanout::{TraceAnswer, find_trace};
use span_types::{Batch, Memory, Rows, TraceId};
use std::alloc::Global;
use std::process::Abort;
use store_core::{Core, a_shown_core_is_a_port};
use store_state::{Round, Step};

// A request whose spans are these rows'. A span is named by its start.
fn line_of(alloc: Global, rows: &[Row]) -> Result<String, Memory> {
    let mut line = String::from_str(alloc, "{\"resourceSpans\":[{\"scopeSpans\":[{\"spans\":[")?;
    let mut comma = "";
    for row in rows {
        let (trace, span, start) = (row.trace, row.span, row.start);
        let text = format!(in alloc;
            "{comma}{{\"traceId\":\"{trace:032x}\",\"spanId\":\"{span:016x}\",\"name\":\"{start}\",\
             \"startTimeUnixNano\":\"{start}\",\"endTimeUnixNano\":\"{start}\"}}"
        )?;
        line.push_str(text.as_str())?;
        comma = ",";
    }
    line.push_str("]}]}]}")?;
    Ok(line)
}

pub(crate) fn batch_of(alloc: Global, line: &str) -> Result<Batch, Memory> {
    match read_line(alloc, line.as_bytes()) {
        Ok(reading) => {
            let Reading { batch, .. } = reading;
            Ok(batch)
        }
        Err(_) => Err(Memory),
    }
}

// What the events are answered in the store that a disk holds, none where it isn't opened or memory runs out, and the
// disk.
pub(crate) fn ran<D: Device>(alloc: Global, disk: D, events: &Events) -> (Option<Replies>, D) {
    match Core::open_store(alloc, disk, 7) {
        Ok(core) => {
            let mut core = core;
            a_shown_core_is_a_port(&core);
            let replies = run_events(alloc, &mut core, events);
            (replies.ok(), core.close())
        }
        Err((_, disk)) => (None, disk),
    }
}

// ---- replies

// What an event is to be answered.
#[derive(Drop)]
enum Wanted {
    Idle,
    Pushed(u64),
    Cut(u64),
    CutAll(u64),
    Stepped(Step),
    // At so many pushes, these rows in any order.
    Looked(u64, Vec<Row>),
    // A page of a block.
    Page(u32, u64),
    Ended,
    Reclaimed(u64),
}

// A page of a block that is known: its bytes, but for zeros after them.
#[derive(Drop)]
struct Known {
    block: u32,
    page: u64,
    bytes: Vec<u8>,
}

// Whether a page has these bytes, and zeros after them.
fn begins_with(page: &[u8], bytes: &[u8]) -> bool {
    page.len() == 4096
        && page.starts_with(bytes)
        && page.iter().skip(bytes.len()).all(|byte| *byte == 0)
}

// Whether a page is the one that is known. One that isn't known is from then on.
fn is_known(
    alloc: Global,
    known: &mut Vec<Known>,
    block: u32,
    page: u64,
    bytes: &[u8],
) -> Result<bool, Memory> {
    if page > 3 {
        return Ok(begins_with(bytes, &[]));
    }
    for other in known.as_slice() {
        if other.block == block && other.page == page {
            return Ok(begins_with(bytes, other.bytes.as_slice()));
        }
    }
    known.push(Known {
        block,
        page,
        bytes: bytes.to_vec(alloc)?,
    })?;
    Ok(bytes.len() == 4096)
}

// What tells rows apart: the place, the last bytes of the ids, and the start.
type Told = ((u64, u32), (u8, u8), u64);

fn told(alloc: Global, rows: &[Row]) -> Result<Vec<Told>, Memory> {
    let mut all = Vec::new(alloc);
    for row in rows {
        all.push(((row.number, row.position), (row.trace, row.span), row.start))?;
    }
    Ok(all)
}

fn told_of(alloc: Global, rows: &Rows) -> Result<Vec<Told>, Memory> {
    let mut all = Vec::new(alloc);
    for row in rows.as_slice() {
        let place = (row.place.number, row.place.position);
        let ids = (row.span.trace.0[15], row.span.id.0[7]);
        all.push((place, ids, row.span.start))?;
    }
    Ok(all)
}

// Whether a look is at so many pushes, with these rows.
fn sees(alloc: Global, seen: &Seen, as_of: u64, rows: &[Row]) -> Result<bool, Memory> {
    let mut found = told_of(alloc, &seen.rows)?;
    let mut wanted = told(alloc, rows)?;
    found.sort_unstable();
    wanted.sort_unstable();
    Ok(seen.as_of == as_of && found.as_slice() == wanted.as_slice())
}

fn is_answered(
    alloc: Global,
    known: &mut Vec<Known>,
    reply: &EventReply,
    wanted: &Wanted,
) -> Result<bool, Memory> {
    match (reply, wanted) {
        (EventReply::Idle, Wanted::Idle) => Ok(true),
        (EventReply::Pushed(Ok(number)), Wanted::Pushed(other)) => Ok(*number == *other),
        (EventReply::Cut(Ok(rows)), Wanted::Cut(other)) => Ok(*rows == *other),
        (EventReply::CutAll(Ok(rows)), Wanted::CutAll(other)) => Ok(*rows == *other),
        (EventReply::Stepped(step), Wanted::Stepped(other)) => Ok(*step == *other),
        (EventReply::Looked(Ok(seen)), Wanted::Looked(as_of, rows)) => sees(
            alloc,
            seen,
            *as_of,
            rows.as_slice(),
        ),
        (EventReply::Paged(Ok(bytes)), Wanted::Page(block, page)) => is_known(
            alloc,
            known,
            *block,
            *page,
            bytes.as_slice(),
        ),
        (EventReply::Ended, Wanted::Ended) => Ok(true),
        (EventReply::Reclaimed(Ok(files)), Wanted::Reclaimed(other)) => Ok(*files == *other),
        _ => Ok(false),
    }
}

// Events, and what they are to be answered.
#[derive(Drop)]
struct Play {
    events: Vec<Event>,
    wanted: Vec<Wanted>,
}

impl Play {
    fn new(alloc: Global) -> Play {
        Play {
            events: Vec::new(alloc),
            wanted: Vec::new(alloc),
        }
    }

    fn add(&mut self, event: Event, wanted: Wanted) -> Result<(), Memory> {
        self.events.push(event)?;
        self.wanted.push(wanted)?;
        Ok(())
    }
}

// Plays the events on an empty disk, and asserts that each reply is as it was to be. No reply is missing, and none is
// too much.
fn check_play(
    rt: &(impl Abort + AllocGlobal),
    play: Play,
    known: &mut Vec<Known>,
    seed: u64,
) -> MemDisk {
    let Play { events, wanted } = play;
    let (replies, disk) = ran(rt.alloc(), MemDisk::empty(rt.alloc()), &Events::of(events));
    let replies = replies.expect(rt, "a store");
    let wrong = first_wrong(rt.alloc(), &replies, wanted.as_slice(), known).expect(rt, "memory");
    assert!(rt; wrong.is_none() && disk.starved() == 0, "{seed}: {wrong:?}");
    disk
}

// The number of the first reply that is another one than it was to be.
fn first_wrong(
    alloc: Global,
    replies: &Replies,
    wanted: &[Wanted],
    known: &mut Vec<Known>,
) -> Result<Option<usize>, Memory> {
    for (at, (reply, wanted)) in replies.as_slice().iter().zip(wanted).enumerate() {
        if !is_answered(alloc, known, reply, wanted)? {
            return Ok(Some(at));
        }
    }
    if replies.len() == wanted.len() {
        Ok(None)
    } else {
        Ok(Some(wanted.len()))
    }
}

// ---- one list of events

const FIRST: &str =
    r#"{"resourceSpans":[{"scopeSpans":[{"spans":[{"traceId":"000000000000000000000000000000a1","spanId":"00000000000000b1","parentSpanId":"","name":"first","startTimeUnixNano":"1","endTimeUnixNano":"2"}]}]}]}"#;

const SECOND: &str =
    r#"{"resourceSpans":[{"scopeSpans":[{"spans":[{"traceId":"000000000000000000000000000000a1","spanId":"00000000000000b1","parentSpanId":"","name":"second","startTimeUnixNano":"1","endTimeUnixNano":"2"}]}]}]}"#;

// The header of a block of one row that starts at 1, whose other parts have a page each.
static HEADER: [u8; 52] = [
    0x54, 0x53, 0x42, 0x31, 1, 0, 0, 0, 1, 0, 0, 0, 1, 0, 0, 0, 1, 0, 0, 0, 1, 0, 0, 0, 0, 0, 0, 0,
    1, 0, 0, 0, 0, 0, 0, 0, 1, 0, 0, 0, 0, 0, 0, 0, 1, 0, 0, 0, 0, 0, 0, 0,
];

// The stripe of the first push's span: the texts are the empty one and `first`.
static FIRST_STRIPE: [u8; 73] = [
    0x41, 0, 0, 0, 0, 0, 0, 0, 2, 0, 5, 0x66, 0x69, 0x72, 0x73, 0x74, 1, 0, 1, 0, 0, 0, 1, 0, 0, 0,
    0, 0, 0, 0, 0, 0, 0, 0, 0, 0, 0, 0, 0xa1, 0, 0, 0, 0, 0, 0, 0, 0xb1, 0, 0, 0, 1, 0, 1, 0, 0, 0,
    0, 0, 0, 0, 2, 0, 0, 0, 0, 0, 0, 0, 0, 0, 0, 0, 0,
];

// That of the second one's: the name has a byte more, and the push is 1.
static SECOND_STRIPE: [u8; 74] = [
    0x42, 0, 0, 0, 0, 0, 0, 0, 2, 0, 6, 0x73, 0x65, 0x63, 0x6f, 0x6e, 0x64, 1, 0, 1, 0, 0, 0, 1, 0,
    0, 0, 0, 0, 0, 0, 0, 0, 0, 0, 0, 0, 0, 0, 0xa1, 0, 0, 0, 0, 0, 0, 0, 0xb1, 0, 1, 0, 1, 0, 1, 0,
    0, 0, 0, 0, 0, 0, 2, 0, 0, 0, 0, 0, 0, 0, 0, 0, 0, 0, 0,
];

// The index: the trace a1 has the row 0, one of them.
static INDEX: [u8; 24] = [
    0, 0, 0, 0, 0, 0, 0, 0, 0, 0, 0, 0, 0, 0, 0, 0xa1, 0, 0, 0, 0, 1, 0, 0, 0,
];

// A byte of the Bloom filter of the trace a1.
fn filter_byte(at: usize) -> u8 {
    match at {
        217 => 2,
        1279 => 0x80,
        2454 => 1,
        2587 => 0x80,
        _ => 0,
    }
}

// The pages of a block of one row of that trace: its stripe is this one.
fn add_block(
    alloc: Global,
    known: &mut Vec<Known>,
    block: u32,
    stripe: &[u8],
) -> Result<(), Memory> {
    let mut filter = Vec::new(alloc);
    for at in 0..2588 {
        filter.push(filter_byte(at))?;
    }
    let parts = [
        HEADER.as_slice(),
        stripe,
        INDEX.as_slice(),
        filter.as_slice(),
    ];
    for (page, part) in parts.into_iter().enumerate() {
        known.push(Known {
            block,
            page: page as u64,
            bytes: part.to_vec(alloc)?,
        })?;
    }
    Ok(())
}

// A push of one span, a cut of all, and a whole flush.
fn add_flush(alloc: Global, play: &mut Play, line: &str, number: u64) -> Result<(), Memory> {
    let batch = batch_of(alloc, line)?;
    play.add(Event::Push { batch, moment: 5 }, Wanted::Pushed(number))?;
    play.add(Event::CutAll, Wanted::CutAll(1))?;
    play.add(Event::FlushStep, Wanted::Stepped(Step::More))?;
    play.add(Event::FlushStep, Wanted::Stepped(Step::More))?;
    let end = Step::Ended(Round::Did { blocks: 1, rows: 1 });
    play.add(Event::FlushStep, Wanted::Stepped(end))
}

// A whole compaction of two blocks of four pages.
fn add_compaction(play: &mut Play) -> Result<(), Memory> {
    for _ in 0..10 {
        play.add(Event::CompactStep, Wanted::Stepped(Step::More))?;
    }
    let end = Step::Ended(Round::Did { blocks: 2, rows: 1 });
    play.add(Event::CompactStep, Wanted::Stepped(end))
}

// All pages of a block and one more are read by the first look.
fn add_pages(play: &mut Play, block: u32) -> Result<(), Memory> {
    for page in 0..5 {
        play.add(
            Event::Page {
                look: 0,
                block,
                page,
            },
            Wanted::Page(block, page),
        )?;
    }
    Ok(())
}

fn add_page(play: &mut Play, look: u64, block: u32, wanted: Wanted) -> Result<(), Memory> {
    play.add(
        Event::Page {
            look,
            block,
            page: 0,
        },
        wanted,
    )
}

// The events after the compaction.
fn add_ends(play: &mut Play) -> Result<(), Memory> {
    play.add(Event::Reclaim, Wanted::Reclaimed(2))?;
    add_pages(play, 3)?;
    add_pages(play, 5)?;
    // The block that took their place is none of the look's, and there is no other look.
    add_page(play, 0, 7, Wanted::Idle)?;
    add_page(play, 1, 3, Wanted::Idle)?;
    play.add(Event::Done { look: 0 }, Wanted::Ended)?;
    play.add(Event::Reclaim, Wanted::Reclaimed(2))?;
    add_page(play, 0, 3, Wanted::Idle)?;
    play.add(Event::Done { look: 0 }, Wanted::Idle)
}

// Two flushes, a look, a compaction, and what follows it.
fn look_play(rt: &(impl Abort + AllocGlobal)) -> Play {
    let mut play = Play::new(rt.alloc());
    add_flush(rt.alloc(), &mut play, FIRST, 0).expect(rt, "memory");
    add_flush(rt.alloc(), &mut play, SECOND, 1).expect(rt, "memory");
    play.add(Event::Look, Wanted::Looked(2, Vec::new(rt.alloc())))
        .expect(rt, "memory");
    add_compaction(&mut play).expect(rt, "memory");
    add_ends(&mut play).expect(rt, "memory");
    play
}

#[test]
fn a_look_keeps_the_blocks_that_are_joined(rt: HostRuntime) {
    let mut known = Vec::new(rt.alloc());
    add_block(rt.alloc(), &mut known, 3, &FIRST_STRIPE).expect(&rt, "memory");
    add_block(rt.alloc(), &mut known, 5, &SECOND_STRIPE).expect(&rt, "memory");
    let _disk = check_play(&rt, look_play(&rt), &mut known, 0);
    assert!(&rt; known.len() == 8);
}

// ---- random lists of events

// Numbers by splitmix64.
#[derive(Drop)]
struct Chance {
    state: u64,
}

impl Chance {
    fn next(&mut self) -> u64 {
        self.state = self.state.wrapping_add(0x9e37_79b9_7f4a_7c15);
        let mixed = (self.state ^ (self.state >> 30)).wrapping_mul(0xbf58_476d_1ce4_e5b9);
        let mixed = (mixed ^ (mixed >> 27)).wrapping_mul(0x94d0_49bb_1331_11eb);
        mixed ^ (mixed >> 31)
    }

    // A number below another one.
    fn below(&mut self, end: u8) -> u8
        requires { 1 ≤ end }
    {
        (self.next() % u64::from(end)) as u8
    }
}

// A list of events as it grows, and the store that they lead to.
#[derive(Drop)]
struct Random {
    alloc: Global,
    chance: Chance,
    model: Model,
    moment: u64,
    play: Play,
}

// So many seconds, in nanoseconds.
fn seconds(count: u8) -> u64 {
    u64::from(count).saturating_mul(1_000_000_000)
}

impl Random {
    fn new(alloc: Global, seed: u64) -> Result<Random, Memory> {
        Ok(Random {
            alloc,
            chance: Chance { state: seed },
            model: Model::new(alloc)?,
            moment: 0,
            play: Play::new(alloc),
        })
    }

    // A row of one of 36 spans, of six traces.
    fn row(&mut self, position: u8) -> Row {
        Row {
            trace: self.chance.below(6).saturating_add(1),
            span: self.chance.below(6).saturating_add(1),
            start: u64::from(self.chance.below(50)).saturating_add(100),
            number: self.model.count,
            position: u32::from(position),
            moment: self.moment,
        }
    }

    // Moments of pushes mostly rise.
    fn push(&mut self) -> Result<(), Memory> {
        let later = seconds(self.chance.below(4));
        let base = self.moment;
        self.moment = base.saturating_add(later);
        let mut rows = Vec::new(self.alloc);
        for position in 0..self.chance.below(5) {
            rows.push(self.row(position))?;
        }
        let moment = self.moment;
        self.moment = base.saturating_add(seconds(1));
        let line = line_of(self.alloc, rows.as_slice())?;
        let batch = batch_of(self.alloc, line.as_str())?;
        let number = self.model.push(rows.as_slice())?;
        self.play
            .add(Event::Push { batch, moment }, Wanted::Pushed(number))
    }

    fn cut(&mut self) -> Result<(), Memory> {
        let moment = self.moment.saturating_add(seconds(self.chance.below(14)));
        let rows = self.model.cut(Some(moment))?;
        self.play.add(Event::Cut { moment }, Wanted::Cut(rows))
    }

    fn cut_all(&mut self) -> Result<(), Memory> {
        let rows = self.model.cut(None)?;
        self.play.add(Event::CutAll, Wanted::CutAll(rows))
    }

    fn flush_step(&mut self) -> Result<(), Memory> {
        let step = self.model.flush_step()?;
        self.play.add(Event::FlushStep, Wanted::Stepped(step))
    }

    fn compact_step(&mut self) -> Result<(), Memory> {
        let step = self.model.compact_step()?;
        self.play.add(Event::CompactStep, Wanted::Stepped(step))
    }

    fn look(&mut self) -> Result<(), Memory> {
        let rows = self.model.look()?;
        self.play
            .add(Event::Look, Wanted::Looked(self.model.count, rows))
    }

    // A look, or the number that the next one will have.
    fn some_look(&mut self) -> u64 {
        let looks = self.model.looks_taken().saturating_add(1);
        self.chance.next() % looks
    }

    // Mostly a block that the look pins.
    fn page(&mut self) -> Result<(), Memory> {
        let look = self.some_look();
        let at = self.chance.below(4);
        let block = match self.model.pinned_by(look, at) {
            Some(file) => file,
            None => u32::from(self.chance.below(200)),
        };
        let page = u64::from(self.chance.below(6));
        let wanted = if self.model.names(look, block) {
            Wanted::Page(block, page)
        } else {
            Wanted::Idle
        };
        self.play.add(Event::Page { look, block, page }, wanted)
    }

    fn done(&mut self) -> Result<(), Memory> {
        let look = self.some_look();
        let wanted = if self.model.done(look) {
            Wanted::Ended
        } else {
            Wanted::Idle
        };
        self.play.add(Event::Done { look }, wanted)
    }

    fn reclaim(&mut self) -> Result<(), Memory> {
        let files = self.model.reclaim()?;
        self.play.add(Event::Reclaim, Wanted::Reclaimed(files))
    }

    fn event(&mut self) -> Result<(), Memory> {
        match self.chance.below(100) {
            0..=17 => self.push(),
            18..=24 => self.cut(),
            25..=29 => self.cut_all(),
            30..=45 => self.flush_step(),
            46..=74 => self.compact_step(),
            75..=79 => self.look(),
            80..=92 => self.page(),
            93..=96 => self.done(),
            _ => self.reclaim(),
        }
    }
}

// The pages of headers.
fn headers(alloc: Global, headers: &[Header]) -> Result<Vec<Known>, Memory> {
    let mut known = Vec::new(alloc);
    for header in headers {
        known.push(Known {
            block: header.file,
            page: 0,
            bytes: header_bytes(alloc, header)?,
        })?;
    }
    Ok(known)
}

// Form 1, one page each of the header, the index and the filters, and one stripe of one page.
fn header_bytes(alloc: Global, header: &Header) -> Result<Vec<u8>, Memory> {
    let mut bytes = Vec::from_slice(alloc, b"TSB1")?;
    for number in [1u32, 1, 1, 1] {
        bytes.extend_from_slice(&number.to_le_bytes())?;
    }
    for number in [1u64, header.rows, header.earliest, header.latest] {
        bytes.extend_from_slice(&number.to_le_bytes())?;
    }
    Ok(bytes)
}

// Whether each file that is listed has four pages, which are those that were read of it.
fn has_blocks(
    alloc: Global,
    disk: &mut MemDisk,
    files: &[u32],
    known: &mut Vec<Known>,
) -> Result<bool, Memory> {
    let mut same = true;
    for file in files {
        same &= disk.len(*file) == Ok(16_384);
        for page in 0..4 {
            same &= has_page(alloc, disk, *file, page, known)?;
        }
    }
    Ok(same)
}

fn has_page(
    alloc: Global,
    disk: &mut MemDisk,
    file: u32,
    page: u64,
    known: &mut Vec<Known>,
) -> Result<bool, Memory> {
    let mut bytes = [0; 4096];
    let read = disk.read(file, page.saturating_mul(4096), &mut bytes);
    Ok(read == Ok(4096) && is_known(alloc, known, file, page, &bytes)?)
}

fn are_empty(disk: &mut MemDisk, files: &[u32]) -> bool {
    let mut empty = true;
    for file in files {
        empty &= disk.len(*file) == Ok(0);
    }
    empty
}

// A trace in the store that a disk holds, none where it isn't found, and the disk.
fn found<D: Device>(alloc: Global, disk: D, id: TraceId) -> (Option<TraceAnswer>, D) {
    match Core::open_store(alloc, disk, 7) {
        Ok(core) => {
            let mut core = core;
            a_shown_core_is_a_port(&core);
            let answer = find_trace(alloc, &mut core, id);
            (answer.ok(), core.close())
        }
        Err((_, disk)) => (None, disk),
    }
}

// The rows of a trace, by start and then by span.
fn rows_of(alloc: Global, rows: &[Row], trace: u8) -> Result<Vec<Row>, Memory> {
    let mut all = Vec::new(alloc);
    for row in rows {
        if row.trace == trace {
            all.push(*row)?;
        }
    }
    all.sort_by_key(|row| (row.start, row.span))?;
    Ok(all)
}

fn is_trace(
    alloc: Global,
    answer: &TraceAnswer,
    model: &Model,
    rows: &[Row],
) -> Result<bool, Memory> {
    let wanted = told(alloc, rows)?;
    let found = told_of(alloc, &answer.rows)?;
    Ok(answer.as_of == model.count && found.as_slice() == wanted.as_slice())
}

fn trace_id(last: u8) -> TraceId {
    let mut bytes = [0; 16];
    bytes[15] = last;
    TraceId(bytes)
}

// Whether a disk has just these rows of a trace, and the disk.
fn finds(
    alloc: Global,
    disk: MemDisk,
    model: &Model,
    rows: &[Row],
    trace: u8,
) -> Result<(bool, MemDisk), Memory> {
    let wanted = rows_of(alloc, rows, trace)?;
    let (answer, disk) = found(alloc, disk, trace_id(trace));
    let same = match answer {
        Some(answer) => is_trace(alloc, &answer, model, wanted.as_slice())?,
        None => false,
    };
    Ok((same, disk))
}

// Whether a disk holds the first occurrences of all that was pushed.
fn holds(alloc: Global, disk: MemDisk, model: &Model) -> Result<bool, Memory> {
    let rows = firsts(alloc, model.pushed.as_slice())?;
    let mut disk = disk;
    let mut same = true;
    for trace in 1..=6 {
        let (is_found, left) = finds(alloc, disk, model, rows.as_slice(), trace)?;
        disk = left;
        same &= is_found;
    }
    Ok(same)
}

fn is_left(
    alloc: Global,
    disk: MemDisk,
    model: &Model,
    known: &mut Vec<Known>,
) -> Result<bool, Memory> {
    let listed = model.listed()?;
    let mut disk = disk;
    let blocks = has_blocks(alloc, &mut disk, listed.as_slice(), known)?;
    let empty = are_empty(&mut disk, model.emptied.as_slice());
    Ok(blocks && empty && holds(alloc, disk, model)?)
}

// 400 random events.
fn random_of(alloc: Global, seed: u64) -> Result<Random, Memory> {
    let mut random = Random::new(alloc, seed)?;
    for _ in 0..400 {
        random.event()?;
    }
    Ok(random)
}

fn check_random(rt: &(impl Abort + AllocGlobal), seed: u64) {
    let random = random_of(rt.alloc(), seed).expect(rt, "memory");
    let Random { model, play, .. } = random;
    let mut known = headers(rt.alloc(), model.headers.as_slice()).expect(rt, "memory");
    let disk = check_play(rt, play, &mut known, seed);
    let is_left = is_left(rt.alloc(), disk, &model, &mut known).expect(rt, "memory");
    assert!(rt; is_left, "{seed}");
}

#[test]
fn events_are_answered_as_they_are_meant(rt: HostRuntime) {
    for seed in 0..4 {
        check_random(&rt, seed);
    }
}
