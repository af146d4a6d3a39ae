//! What a look shows: the first occurrences among its rows and those of its blocks, of which each page is read.

ghost use Rattle.std.specs.Prelude.{List, ◌≡◌, ◌==◌};
ghost use Rattle.std.specs.List.{list_any};
ghost use Rattle.store_model.specs.Holds.{Hold};
ghost use Rattle.store_state.specs.Given.{look_of};
ghost use Rattle.store_state.specs.Meaning.{IsOpen};

use block_read::block_of;
use span_types::{Memory, Row, Rows, TryCopy, first_rows};
use std::alloc::Global;
use store_state::{FlushPort, Look, Pin};

// What a look shows.
#[derive(Drop)]
pub(crate) struct Found {
    // The length of the history.
    pub(crate) as_of: u64,
    // How many blocks are listed.
    pub(crate) blocks: usize,
    // The first occurrences.
    pub(crate) rows: Rows,
}

// Whether the pin names the file.
fn names(pin: &Pin, file: u32) -> bool
    ensures { result ≡ list_any (λ info. info.file == file) pin.now.blocks }
{
    let infos = pin.blocks.as_slice();
    infos.iter().any(|info| info.get().file == file)
}

// Adds the bytes of a page of one of the look's blocks. False where it isn't read.
fn add_page<P: FlushPort>(port: &mut P, look: &Look, page: (u32, u64), bytes: &mut Vec<u8>) -> bool
    requires { IsOpen P.meaning port.old (look_of look.now) }
    ensures { IsOpen P.meaning port.new (look_of look.now) }
{
    if !names(&look.pin, page.0) {
        return false;
    }
    let mut buf = [0; 4096];
    match port.read_page(&look.pin, page.0, page.1, &mut buf) {
        Ok(()) => bytes.extend_from_slice(&buf).is_ok(),
        Err(_) => false,
    }
}

// Adds the bytes of so many pages of one of the look's blocks.
fn add_pages<P: FlushPort>(
    port: &mut P,
    look: &Look,
    block: (u32, u64),
    bytes: &mut Vec<u8>,
) -> bool
    requires { IsOpen P.meaning port.old (look_of look.now) }
    ensures { IsOpen P.meaning port.new (look_of look.now) }
{
    let mut read = true;
    for page in 0..block.1 {
        read &= add_page(port, look, (block.0, page), bytes);
    }
    read
}

// Adds the rows of the block that these bytes are.
fn add_rows(alloc: Global, bytes: &[u8], rows: &mut Vec<Row>) -> bool {
    match block_of(alloc, bytes) {
        Ok(block) => rows.append(&mut block.rows.into_vec()).is_ok(),
        Err(_) => false,
    }
}

// Adds the rows of one of the look's blocks, in a file with so many pages.
fn add_block<P: FlushPort>(
    alloc: Global,
    port: &mut P,
    look: &Look,
    block: (u32, u64),
    rows: &mut Vec<Row>,
) -> bool
    requires { IsOpen P.meaning port.old (look_of look.now) }
    ensures { IsOpen P.meaning port.new (look_of look.now) }
{
    let mut bytes = Vec::new(alloc);
    let read = add_pages(port, look, block, &mut bytes);
    read && add_rows(alloc, bytes.as_slice(), rows)
}

// Adds the rows of all of the look's blocks.
fn add_blocks<P: FlushPort>(alloc: Global, port: &mut P, look: &Look, rows: &mut Vec<Row>) -> bool
    requires { IsOpen P.meaning port.old (look_of look.now) }
    ensures { IsOpen P.meaning port.new (look_of look.now) }
{
    let mut read = true;
    for info in look.pin.blocks.as_slice() {
        let block = info.get();
        read &= add_block(alloc, port, look, (block.file, block.pages), rows);
    }
    read
}

// Copies of the rows of the look that wait.
fn waiting(alloc: Global, look: &Look) -> Result<Vec<Row>, Memory> {
    let mut rows = Vec::new(alloc);
    let refs = look.rows.refs(alloc)?;
    for row in &refs {
        let place = row.place();
        let span = row.span().copy()?;
        rows.push(Row { place, span })?;
    }
    Ok(rows)
}

fn firsts(alloc: Global, rows: Vec<Row>) -> Option<Rows> {
    first_rows(alloc, Rows::of(rows)).ok()
}

// The first occurrences that a look shows. None where something isn't read.
pub(crate) fn shown<P: FlushPort>(alloc: Global, port: &mut P, look: &Look) -> Option<Rows>
    requires { IsOpen P.meaning port.old (look_of look.now) }
    ensures { IsOpen P.meaning port.new (look_of look.now) }
{
    let Ok(mut rows) = waiting(alloc, look) else {
        return None;
    };
    if add_blocks(alloc, port, look, &mut rows) {
        firsts(alloc, rows)
    } else {
        None
    }
}

// What a look shows, which is given back.
pub(crate) fn read_all<P: FlushPort>(alloc: Global, port: &mut P) -> Option<Found>
    requires { (held : List Hold) × P.meaning.holds port.old held }
{
    match port.look() {
        Ok(look) => {
            let as_of = look.as_of;
            let blocks = look.pin.blocks.len();
            let rows = shown(alloc, port, &look);
            port.done(look);
            let rows = rows?;
            Some(Found {
                as_of,
                blocks,
                rows,
            })
        }
        Err(_) => None,
    }
}
