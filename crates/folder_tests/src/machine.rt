//! A system whose device has other bytes than its memory once a sync has failed, as Linux has on its most used file systems.

ghost use Rattle.std.specs.Io.{ReadsAtMost};

use folder_disk::{Found, System, SystemFile};
use std::cell::Cell;
use std::io;
use std::io::ErrorKind;

/// Linux's numbers for a device that fails, and for a program that has no descriptor left.
const EIO: i32 = 5;

const EMFILE: i32 = 24;

/// So many files may be there, the one that is locked first.
const FILES: usize = 12;

/// So many bytes a file may have.
const ROOM: usize = 256;

#[derive(Clone, Copy)]
struct Bytes {
    all: [u8; ROOM],
    len: usize,
}

const NO_BYTES: Bytes = Bytes {
    all: [0; ROOM],
    len: 0,
};

/// A file: what the system has of it in memory, what the device has, and whether the system knows of a difference.
#[derive(Clone, Copy)]
struct Kept {
    is_there: bool,
    cached: Bytes,
    device: Bytes,
    is_dirty: bool,
}

const MISSING: Kept = Kept {
    is_there: false,
    cached: NO_BYTES,
    device: NO_BYTES,
    is_dirty: false,
};

/// The system, with one folder `store`.
#[derive(Drop)]
pub struct Machine {
    files: Cell<[Kept; FILES]>,
    open: Cell<usize>,
    /// So many files may be open.
    pub most_open: Cell<usize>,
    /// So many of the next syncs and writes fail.
    pub failing_syncs: Cell<usize>,
    pub failing_writes: Cell<usize>,
    /// So many writes were made to files but the one that is locked.
    pub writes: Cell<usize>,
}

/// An open file of a machine.
pub struct Opened<'a> {
    machine: &'a Machine,
    place: usize,
}

impl Machine {
    pub fn new() -> Machine {
        Machine {
            files: Cell::new([MISSING; FILES]),
            open: Cell::new(0),
            most_open: Cell::new(FILES),
            failing_syncs: Cell::new(0),
            failing_writes: Cell::new(0),
            writes: Cell::new(0),
        }
    }

    /// The machine is started anew: of each file there is what its device has.
    pub fn restart(&self) {
        for place in 0..FILES {
            let mut kept = self.get(place);
            kept.cached = kept.device;
            kept.is_dirty = false;
            self.set(place, kept);
        }
    }

    fn get(&self, place: usize) -> Kept {
        match self.files.get().get(place) {
            Some(kept) => *kept,
            None => MISSING,
        }
    }

    fn set(&self, place: usize, kept: Kept) {
        let mut files = self.files.get();
        if let Some(old) = files.get_mut(place) {
            *old = kept;
        }
        self.files.set(files);
    }

    fn found(&self, place: usize) -> io::Result<Found> {
        let kept = self.get(place);
        if kept.is_there {
            Ok(Found {
                is_regular: true,
                len: kept.cached.len as u64,
                place: (0, place as u64),
            })
        } else {
            Err(io::Error::from(ErrorKind::NotFound))
        }
    }

    fn opened(&self, place: usize) -> io::Result<Opened<'_>> {
        if self.open.get() >= self.most_open.get() {
            return Err(io::Error::from_raw_os_error(EMFILE));
        }
        self.open.set(self.open.get().saturating_add(1));
        Ok(Opened {
            machine: self,
            place,
        })
    }
}

/// The place of a file by its path.
fn place_of(path: &str) -> io::Result<usize> {
    let name = path.strip_prefix("store/").unwrap_or(path);
    if name == "lock" {
        return Ok(0);
    }
    for place in 1..FILES {
        if name.strip_suffix(".dat") == Some(digits(place - 1)) {
            return Ok(place);
        }
    }
    Err(io::Error::from(ErrorKind::NotFound))
}

fn digits(number: usize) -> &'static str {
    const DIGITS: [&str; FILES] = ["0", "1", "2", "3", "4", "5", "6", "7", "8", "9", "10", "11"];
    DIGITS.get(number).copied().unwrap_or("")
}

/// Whether one more is to fail of so many that are left.
fn fails(left: &Cell<usize>) -> bool {
    let before = left.get();
    left.set(before.saturating_sub(1));
    before > 0
}

impl<'a> System for &'a Machine {
    type File = Opened<'a>;

    fn make_folder(&self, _path: &str) -> io::Result<()> {
        Ok(())
    }

    fn sync_folder(&self, _path: &str) -> io::Result<()> {
        Ok(())
    }

    fn last_number(&self, _path: &str) -> io::Result<Option<u32>> {
        Ok(None)
    }

    fn look(&self, path: &str) -> io::Result<Found> {
        self.found(place_of(path)?)
    }

    fn open(&self, path: &str) -> io::Result<Opened<'a>> {
        let place = place_of(path)?;
        self.found(place)?;
        self.opened(place)
    }

    fn make(&self, path: &str) -> io::Result<Opened<'a>> {
        let place = place_of(path)?;
        let file = self.opened(place)?;
        if self.get(place).is_there {
            return Err(io::Error::from(ErrorKind::AlreadyExists));
        }
        let mut kept = MISSING;
        kept.is_there = true;
        self.set(place, kept);
        Ok(file)
    }

    fn remove(&self, path: &str) -> io::Result<()> {
        self.set(place_of(path)?, MISSING);
        Ok(())
    }
}

impl<'a> SystemFile for Opened<'a> {
    fn found(&self) -> io::Result<Found> {
        self.machine.found(self.place)
    }

    fn lock(&self) -> io::Result<()> {
        Ok(())
    }

    fn read_at(&self, buf: &mut [u8], at: u64) -> io::Result<usize> {
        let cached = self.machine.get(self.place).cached;
        let have = match cached.all.get(at as usize..cached.len) {
            Some(have) => have,
            None => &[],
        };
        let count = have.len().min(buf.len());
        buf[..count].copy_from_slice(&have[..count]);
        Ok(count)
    }

    fn write_all_at(&self, bytes: &[u8], at: u64) -> io::Result<()> {
        let mut kept = self.machine.get(self.place);
        for (place, byte) in kept
            .cached
            .all
            .iter_mut()
            .skip(at as usize)
            .zip(bytes.iter())
        {
            *place = *byte;
        }
        let end = (at as usize).saturating_add(bytes.len());
        kept.cached.len = kept.cached.len.max(end.min(ROOM));
        kept.is_dirty = true;
        self.machine.set(self.place, kept);
        if self.place > 0 {
            let before = self.machine.writes.get();
            self.machine.writes.set(before.saturating_add(1));
        }
        if fails(&self.machine.failing_writes) {
            return Err(io::Error::from_raw_os_error(EIO));
        }
        Ok(())
    }

    fn set_len(&self, len: u64) -> io::Result<()> {
        let mut kept = self.machine.get(self.place);
        kept.cached.len = kept.cached.len.min(len as usize);
        kept.is_dirty = true;
        self.machine.set(self.place, kept);
        Ok(())
    }

    /// Where it fails the bytes stay in memory as if the device had them, and no later sync writes them.
    fn sync(&self) -> io::Result<()> {
        let mut kept = self.machine.get(self.place);
        let failed = kept.is_dirty && fails(&self.machine.failing_syncs);
        if !failed && kept.is_dirty {
            kept.device = kept.cached;
        }
        kept.is_dirty = false;
        self.machine.set(self.place, kept);
        if failed {
            return Err(io::Error::from_raw_os_error(EIO));
        }
        Ok(())
    }
}

impl<'a> Drop for Opened<'a> {
    fn drop(self) {
        let Opened { machine, place: _ } = self;
        machine.open.set(machine.open.get().saturating_sub(1));
    }
}
