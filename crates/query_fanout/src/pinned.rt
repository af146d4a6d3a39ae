//! The blocks that an open look pins, as a source of pages.

ghost use Rattle.std.specs.Prelude.{◌≡◌};

use block_read::Pages;
use span_types::Failed;
use store_state::{FlushPort, Look};

/// The blocks that an open look pins, whose pages are read through its port.
#[derive(Drop)]
pub(crate) struct Pinned<'a, P> {
    pub(crate) port: &'a mut P,
    pub(crate) look: &'a Look,
}

impl<'a, P: FlushPort> Pages for Pinned<'a, P> {
    ghost use Rattle.query_fanout.specs.Reading.{AsksPage, IsReady, shown};

    ghost tells = { λ s. P.meaning.tells s.port.now };

    ghost held = { λ s. shown P.meaning s.look.now s.port.now };

    ghost faults = { λ s. P.meaning.faults s.port.now };

    ghost reads = { λ s. P.meaning.reads s.port.now };

    ghost ready = { λ s block. IsReady P.meaning s.look.now s.port.now block };

    ghost went = { λ old read new. AsksPage P.meaning old.look.now old.port.now read new.port.now × (new.look.now ≡ old.look.now) };

    ghost name = { λ s. s.port.ghost_name };

    fn page(&mut self, block: u32, page: u64, buf: &mut [u8; 4096]) -> Result<(), Failed> {
        self.port.read_page(&self.look.pin, block, page, buf)
    }
}
