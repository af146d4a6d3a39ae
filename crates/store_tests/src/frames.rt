//! Pages that looks read through the page cache, by the reads that the disk counts.

ghost use Rattle.std.specs.Prelude.{List, ◌≡◌, ◌==◌};
ghost use Rattle.std.specs.List.{list_any};
ghost use Rattle.store_core.specs.Port.{port_of};
ghost use Rattle.store_model.specs.Holds.{Hold};
ghost use Rattle.store_state.specs.Given.{look_of};
ghost use Rattle.store_state.specs.Meaning.{IsOpen};

use crate::flushing::flushed_one;
use crate::store::CountsReads;
use std::alloc::Global;
use std::test::Fail;
use store_core::{Core, a_shown_core_is_a_port};
use store_state::{FlushPort, Look, LookPort, Pin};

// Whether the pin names the file.
fn names(pin: &Pin, file: u32) -> bool
    ensures { result ≡ list_any (λ info. info.file == file) pin.now.blocks }
{
    let infos = pin.blocks.as_slice();
    infos.iter().any(|info| info.get().file == file)
}

// Adds the bytes of a page of one of the look's blocks. False where the look has no such block, or the page isn't read.
pub(crate) fn add_page<P: FlushPort>(
    port: &mut P,
    look: &Look,
    page: (u32, u64),
    bytes: &mut Vec<u8>,
) -> bool
    requires { IsOpen P.meaning port.old (look_of look.now) }
    ensures { IsOpen P.meaning port.new (look_of look.now) }
{
    if !names(&look.pin, page.0) {
        return false;
    }
    let mut buf = [0; 4096];
    match port.read_page(&look.pin, page.0, page.1, &mut buf) {
        Ok(()) => bytes.extend_from_slice(&buf).is_ok(),
        Err(_) => false,
    }
}

// Reads so many pages of the first block, from page 0 on.
fn reads_pages<P: FlushPort>(alloc: Global, port: &mut P, look: &Look, pages: u64) -> bool
    requires { IsOpen P.meaning port.old (look_of look.now) }
    ensures { IsOpen P.meaning port.new (look_of look.now) }
{
    let mut read = true;
    for page in 0..pages {
        let mut bytes = Vec::new(alloc);
        read &= add_page(port, look, (3, page), &mut bytes);
    }
    read
}

// The same under a look of its own, which is given back.
fn looks_and_reads<P: FlushPort>(alloc: Global, port: &mut P, pages: u64) -> bool
    requires { (held : List Hold) × P.meaning.holds port.old held }
    ensures { (held : List Hold) × P.meaning.holds port.new held }
{
    match port.look() {
        Ok(look) => {
            let read = reads_pages(alloc, port, &look, pages);
            port.done(look);
            read
        }
        Err(_) => false,
    }
}

// How many pages are read in turn, and how many reads of the disk that makes.
type Turn = (u64, u64);

// Whether each turn of reads makes as many reads of the disk as it says.
fn reads<D: CountsReads>(alloc: Global, store: &mut Core<D>, turns: &[Turn]) -> bool
    requires { (held : List Hold) × (port_of D.Device.own).holds store.old held }
{
    let mut same = true;
    for (pages, made) in turns {
        let before = store.disk.reads_made();
        same &= looks_and_reads(alloc, store, *pages);
        same &= store.disk.reads_made().saturating_sub(before) == *made;
    }
    same
}

// The same in the store that a disk holds.
fn opens_and_reads<D: CountsReads>(alloc: Global, disk: D, turns: &[Turn]) -> bool {
    match Core::open_store(alloc, disk, 7) {
        Ok(core) => {
            let mut core = core;
            a_shown_core_is_a_port(&core);
            reads(alloc, &mut core, turns)
        }
        Err(_) => false,
    }
}

// Pages past the block's end are pages of zeros, and stand in frames as others do.
const TURNS: [Turn; 6] = [
    (1, 1),
    // The look was given back, and the page still stands in its frame.
    (1, 0),
    // Page 0 is found, and of 300 pages round and round none is.
    (300, 299),
    (300, 300),
    // 256 pages have a frame each.
    (256, 256),
    (256, 0),
];

#[test]
fn pages_that_stand_in_frames_are_not_read_again(rt: HostRuntime) -> Result<(), Fail> {
    let alloc = rt.alloc();
    let Some(disk) = flushed_one(alloc) else {
        return Err(Fail::from("no flush"));
    };
    assert!(rt; opens_and_reads(alloc, disk, &TURNS));
    Ok(())
}
