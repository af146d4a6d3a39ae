//! Files of which a write, a cut or a sync failed.
//!
//! Of such a file the system may hold bytes in memory that the device doesn't have and that no later sync writes. The file that is
//! locked keeps which files these are, for later programs too. It is enough that it has this in memory as well: once the machine
//! is started anew, a read gives what the device has. The room for it is made before anything else is done in a folder.

use crate::files::read_on;
use crate::system::SystemFile;
use std::alloc::Global;
use std::io;

/// So many files are told apart. Once there are as many each file is in doubt.
const PLACES: usize = 64;

const ROOM: usize = 4 * PLACES;

/// The files that are in doubt.
#[derive(Drop)]
pub struct Doubts {
    numbers: Vec<u32>,
}

impl Doubts {
    /// Those that a file keeps, each as its number and 1 in four bytes, the least one first; zeros stand for none. A file that
    /// is too short gets its room.
    pub fn read(alloc: Global, file: &impl SystemFile) -> io::Result<Doubts> {
        let mut bytes = [0; ROOM];
        let count = read_on(file, 0, &mut bytes)?;
        if count < ROOM {
            file.write_all_at(&bytes, 0)?;
            file.sync()?;
        }
        let mut numbers = Vec::new(alloc);
        for place in bytes.chunks(4) {
            if let [a, b, c, d] = *place
                && let Some(number) = u32::from_le_bytes([a, b, c, d]).checked_sub(1)
            {
                numbers.push(number)?;
            }
        }
        Ok(Doubts { numbers })
    }

    /// Whether a file is in doubt.
    pub fn has(&self, number: u32) -> bool {
        self.numbers.len() >= PLACES || self.numbers.contains(&number)
    }

    /// Keeps that a file is in doubt.
    pub fn add(&mut self, number: u32, file: &impl SystemFile) -> io::Result<()> {
        if self.has(number) {
            return Ok(());
        }
        self.numbers.push(number)?;
        self.write(file)
    }

    /// Keeps that a file is in doubt no more, unless each file is.
    pub fn remove(&mut self, number: u32, file: &impl SystemFile) -> io::Result<()> {
        if self.numbers.len() >= PLACES || !self.numbers.contains(&number) {
            return Ok(());
        }
        self.numbers.retain(|other| *other != number);
        self.write(file)
    }

    fn write(&self, file: &impl SystemFile) -> io::Result<()> {
        let mut bytes = [0; ROOM];
        for (place, number) in bytes.chunks_mut(4).zip(self.numbers.as_slice()) {
            place.copy_from_slice(&number.saturating_add(1).to_le_bytes());
        }
        file.write_all_at(&bytes, 0)
    }
}
