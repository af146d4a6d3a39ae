//! Blocks of one trace over several stripes, built and read again.

ghost use Rattle.std.specs.Prelude.{◌≡◌, false};
ghost use Rattle.span_types.specs.Promises.{all_zero};

use block_build::{BuiltBlock, build};
use block_info::BlockInfo;
use block_read::{MemPages, ReadError, all_rows, check_block, trace_rows};
use span_types::{
    Attrs, Calls, Events, Links, Memory, Place, Resource, Row, Rows, Scope, Shared, Span, SpanId,
    SpanKind, StatusCode, Text, TraceId,
};
use std::alloc::Global;
use std::process::Abort;

const TRACE: TraceId = TraceId([0, 0, 0, 0, 0, 0, 0, 0, 0, 0, 0, 0, 0, 0, 0, 0xa1]);

const OTHER: TraceId = TraceId([0, 0, 0, 0, 0, 0, 0, 0, 0, 0, 0, 0, 0, 0, 0, 0xa2]);

/// The number of the block's file.
const FILE: u32 = 7;

fn no_text(alloc: Global) -> Text {
    Text::of(String::new(alloc))
}

/// A row of the trace, of which nothing is said but its number.
fn row(alloc: Global, number: u32) -> Result<Row, Memory> {
    row_of(alloc, TRACE, number)
}

/// The same of any trace.
pub(crate) fn row_of(alloc: Global, trace: TraceId, number: u32) -> Result<Row, Memory>
    requires { all_zero trace.0 ≡ false }
{
    let [a, b, c, d] = number.to_be_bytes();
    let resource = Shared::of(
        alloc,
        Resource {
            attrs: Attrs::none(alloc),
        },
    )?;
    let scope = Shared::of(
        alloc,
        Scope {
            name: no_text(alloc),
            version: no_text(alloc),
            attrs: Attrs::none(alloc),
        },
    )?;
    let span = Span {
        trace,
        id: SpanId([1, 0, 0, 0, a, b, c, d]),
        parent: None,
        name: no_text(alloc),
        kind: SpanKind::Unspecified,
        start: u64::from(number),
        end: 0,
        status: StatusCode::Unset,
        message: no_text(alloc),
        attrs: Attrs::none(alloc),
        resource,
        scope,
        events: Events::none(alloc),
        links: Links::none(alloc),
    };
    let place = Place {
        number: 0,
        position: number,
    };
    Ok(Row { place, span })
}

/// The block of these rows.
fn built(rt: &(impl Abort + AllocGlobal), rows: Vec<Row>) -> BuiltBlock {
    assert!(rt; 0 < rows.len() && rows.len() <= 1_048_576);
    build(rt.alloc(), Rows::of(rows)).expect(rt, "memory")
}

/// The block of so many rows of the trace.
fn block(rt: &(impl Abort + AllocGlobal), count: u32) -> BuiltBlock {
    let mut rows = Vec::new(rt.alloc());
    for number in 0..count {
        rows.push(row(rt.alloc(), number).expect(rt, "memory"))
            .expect(rt, "memory");
    }
    built(rt, rows)
}

/// How many rows are read of a block: all of them, those of the trace, and those of another trace.
fn counts(alloc: Global, pages: &mut MemPages, info: &BlockInfo) -> [Option<usize>; 3] {
    [
        count(all_rows(alloc, pages, FILE, info)),
        count(trace_rows(alloc, pages, FILE, info, TRACE)),
        count(trace_rows(alloc, pages, FILE, info, OTHER)),
    ]
}

fn count(read: Result<Rows, ReadError>) -> Option<usize> {
    match read {
        Ok(rows) => Some(rows.len()),
        Err(_) => None,
    }
}

/// How many rows the stripes of a block have, where it has two.
fn stripe_rows(info: &BlockInfo) -> Option<(u32, u32)> {
    match info.stripes.as_slice() {
        [first, second] => Some((first.rows, second.rows)),
        _ => None,
    }
}

/// The one entry of the index of a block of one trace: the trace's first row, and how many it has.
fn index_entry(built: &BuiltBlock) -> Option<&[u8]> {
    let page = built.info.index_page.checked_mul(4096)? as usize;
    built.bytes.as_slice().get(page..)?.get(16..24)
}

/// What is known of the bytes of a block of so many rows, which are read back.
fn read_back(
    rt: &(impl Abort + AllocGlobal),
    built: BuiltBlock,
    rows: u32,
) -> (MemPages, BlockInfo) {
    let length = built.bytes.len() as u64;
    let mut pages = MemPages::new(FILE, built.bytes, Calls::none(rt.alloc()));
    let info = check_block(rt.alloc(), &mut pages, FILE, 3, rows, length);
    (pages, info.expect(rt, "a block"))
}

#[test]
fn one_trace_over_two_stripes(rt: HostRuntime) {
    let built = block(&rt, 257);
    assert!(&rt; index_entry(&built) == Some(&[0, 0, 0, 0, 1, 1, 0, 0][..]));
    assert!(&rt; stripe_rows(&built.info) == Some((256, 1)));
    let (mut pages, info) = read_back(&rt, built, 257);
    assert!(&rt; counts(rt.alloc(), &mut pages, &info) == [Some(257), Some(257), Some(0)]);
}
