//! The blocks of a look, each gone through a few stripes at a time.

ghost use Rattle.std.specs.Prelude.{◌≡◌, ◌<◌, ◌∷◌, [], All, IfOk, IfSome, None, false, length, true};
ghost use Rattle.store_model.specs.State.{is_among};
ghost use Rattle.store_state.specs.Given.{info_files, look_of};
ghost use Rattle.store_state.specs.Meaning.{IsOpen};
ghost use Rattle.query_fanout.specs.Reading.{BlocksRead};
ghost use Rattle.query_fanout.specs.Rounds.{GoesOn, IsFresh, IsLeast, ReadsOn, infos_of, is_all, reach_at, steps_left};

use crate::QueryError;
use crate::blocks::{file_of, query_result};
use crate::pinned::Pinned;
use crate::reach::{Reach, goes_to, reach_of};
use block_info::BlockInfo;
use column_scan::{Pick, Progress, Sifter, scan_stripes};
use span_types::Memory;
use std::alloc::Global;
use store_state::{FlushPort, Look};

// How many picks are looked for at a time: the stripes that have them mostly lie in the 256 frames of a store's page
// cache when their rows are read, so that each is read from the disk once.
const MOST: usize = 512;

/// How far a block is gone through: its next stripe, and up to which trace.
#[derive(Clone, Copy, Drop)]
pub(crate) struct Scan<'l> {
    pub(crate) info: &'l BlockInfo,
    pub(crate) next: usize,
    pub(crate) upto: Reach,
}

/// What is found when a scan goes on.
#[derive(Drop)]
pub(crate) struct Found<'l> {
    pub(crate) scan: Scan<'l>,
    pub(crate) picks: Vec<Pick>,
}

/// A scan for each block of a look.
pub(crate) fn scans_of<'l>(alloc: Global, look: &'l Look) -> Result<Vec<Scan<'l>>, Memory>
    ensures infos { IfOk result (λ scans. infos_of scans.items ≡ look.now.pin.blocks) }
    ensures fresh { IfOk result (λ scans. All IsFresh scans.items) }
{
    let mut scans = Vec::new(alloc);
    for info in look.pin.blocks.as_slice() {
        scans.push(Scan {
            info: info.get(),
            next: 0,
            upto: Reach::Nothing,
        })?;
    }
    Ok(scans)
}

/// The scan that has come least far, if not all are at their ends.
pub(crate) fn least(scans: &[Scan<'_>]) -> Option<usize>
    ensures some { IfSome result (λ at. IsLeast scans.now at) }
    ensures none { result ≡ None → All (λ scan. is_all scan.upto ≡ true) scans.now }
{
    let mut at = None;
    let mut upto = Reach::Whole;
    for i in 0..scans.len() {
        let scan = scans[i];
        if !goes_to(upto, scan.upto) {
            at = Some(i);
            upto = scan.upto;
        }
    }
    at
}

/// Goes on with a scan until there are enough picks, or it is at its end.
pub(crate) fn go_on<'l, P: FlushPort>(
    alloc: Global,
    port: &mut P,
    look: &Look,
    sifter: &mut Sifter<'_, '_>,
    scan: Scan<'l>,
) -> Result<Found<'l>, QueryError>
    requires open { IsOpen P.meaning port.old (look_of look.now) }
    requires pinned { is_among scan.info.now.file (info_files look.now.pin.blocks) ≡ true }
    ensures read { BlocksRead P.meaning look.now (scan.entry.info.now ∷ [])
        (λ rows found. rows ≡ [])
        (λ rows found. GoesOn sifter.old rows scan.entry found.scan found.picks.items)
        (ReadsOn sifter.old.hint scan.entry result) port.old result port.new }
    ensures same { IfOk result (λ found. found.scan.info ≡ scan.entry.info) }
    ensures further { IfOk result (λ found. is_all scan.entry.upto ≡ false
        → steps_left found.scan < steps_left scan.entry) }
    ensures sifter { sifter.new ≡ sifter.old }
{
    let file = file_of(scan.info);
    let mut picks = Vec::new(alloc);
    let mut pages = Pinned { port, look };
    let read = scan_stripes(
        alloc,
        &mut pages,
        file,
        scan.info,
        scan.next,
        sifter,
        Some(MOST),
        &mut picks,
    );
    match query_result(read) {
        Ok(progress) => Ok(Found {
            scan: further(scan, progress),
            picks,
        }),
        Err(error) => Err(error),
    }
}

// The scan before the next stripe.
fn further<'l>(scan: Scan<'l>, progress: Progress) -> Scan<'l>
    ensures info { result.info ≡ scan.entry.info }
    ensures next { result.next ≡ progress.next }
    ensures upto { result.upto
        ≡ reach_at progress.next (length scan.entry.info.now.stripes) progress.last }
{
    let info = scan.info;
    let upto = if progress.next < info.stripes.len() {
        reach_of(progress.last)
    } else {
        Reach::Whole
    };
    Scan {
        info,
        next: progress.next,
        upto,
    }
}
