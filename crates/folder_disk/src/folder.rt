//! A folder of numbered files, as the system keeps it.

ghost use Rattle.std.specs.Prelude.{◌≡◌, ◌<◌, ◌≤◌, ◌+◌, ◌^◌, length, IfOk, OnOk};

use crate::doubts::Doubts;
use crate::files::{
    ends_in_file, expect_named, lock, look_for, make_last, open_if_there, read_on, sync_name,
    wants_descriptor,
};
use crate::system::{System, SystemFile};
use std::alloc::{AllocError, Global};
use std::collections::{BTreeMap, BTreeSet};
use std::io;
use std::io::ErrorKind;

/// So many files more are opened before those without changes are closed: a quarter of the 1,024 descriptors that a
/// process on Linux may have where nothing else is set, so that the program has the rest.
const MOST_OPEN: usize = 256;

/// The files of which one has a store's list, from its first one on. A slot is open if it has this byte first and as many
/// bytes as a list has at least, and else vacant.
const SLOTS: [u32; 2] = [0, 1];

const OPEN: u8 = 1;

const LEAST_LIST: usize = 30;

/// The one other file that is made before the first list, and the most bytes that it has till then.
const FIRST: u32 = 2;

const BEFORE_SLOTS: u64 = 2;

/// An open file, and whether it was changed since its last sync.
#[derive(Drop)]
struct Handle<F> {
    file: F,
    is_changed: bool,
}

/// The file that is locked for this program, its name, and the files that it says are in doubt.
#[derive(Drop)]
struct Lock<F> {
    file: F,
    path: String,
    doubts: Doubts,
}

/// Which names a power cut may take or bring back.
#[derive(Clone, Copy, PartialEq, Eq)]
enum Unsynced {
    Nothing,
    /// Those of files that were made or removed.
    Files,
    /// These, and that of the folder itself: what an earlier program made, and was killed before it synced, too.
    Folder,
}

/// A folder whose file n is `n.dat`, with those of its files that are open.
#[derive(Drop)]
pub struct Folder<R: System> {
    system: R,
    alloc: Global,
    path: String,
    lock: Option<Lock<R::File>>,
    unsynced: Unsynced,
    handles: BTreeMap<u32, Handle<R::File>>,
    /// The files of which the device has what a read gives, but for what was written to them since by calls that passed.
    settled: BTreeSet<u32>,
    /// Whether a write, a cut or a sync of this program has failed.
    has_failed: bool,
    /// So many files were opened since those without changes were closed.
    opened: usize,
}

impl<R: System + Drop> Folder<R> {
    /// The folder of this path. The system isn't asked yet.
    ///
    /// An earlier program may have been killed between making a name and syncing it, the folder's own among them. So the
    /// first sync makes them all last.
    pub fn new(system: R, alloc: Global, path: String) -> Folder<R> {
        Folder {
            system,
            alloc,
            path,
            lock: None,
            unsynced: Unsynced::Folder,
            handles: BTreeMap::new(alloc),
            settled: BTreeSet::new(alloc),
            has_failed: false,
            opened: 0,
        }
    }

    /// The length of a file.
    pub fn len(&mut self, number: u32) -> io::Result<u64> {
        match self.find(number)? {
            Some(handle) => Ok(handle.file.found()?.len),
            None => Ok(0),
        }
    }

    /// Reads from the byte `at` on to the end of the buffer or of the file, and answers how many bytes.
    pub fn read(&mut self, number: u32, at: u64, buf: &mut [u8]) -> io::Result<usize>
        ensures { IfOk result (λ count. count ≤ length buf.new) }
    {
        match self.find(number)? {
            Some(handle) => read_on(&handle.file, at, buf),
            None => Ok(0),
        }
    }

    /// Writes from the byte `at` on. Where the write's end is 2^63 or more the system isn't asked.
    pub fn write(&mut self, number: u32, at: u64, bytes: &[u8]) -> io::Result<()>
        ensures near { OnOk result (at + length bytes.now < 2 ^ 63) }
        ensures far { 2 ^ 63 ≤ at + length bytes.now → self.new ≡ self.old }
    {
        if !ends_in_file(at, bytes.len()) {
            return Err(io::Error::from(ErrorKind::FileTooLarge));
        }
        self.write_near(number, at, bytes)
    }

    /// Writes from the byte `at` on. A file that is missing is made, unless there are no bytes.
    fn write_near(&mut self, number: u32, at: u64, bytes: &[u8]) -> io::Result<()> {
        if bytes.is_empty() {
            return self.claim();
        }
        if self.find(number)?.is_none() {
            self.make(number)?;
        }
        let Some(handle) = self.find(number)? else {
            return Err(io::Error::from(ErrorKind::NotFound));
        };
        handle.is_changed = true;
        let answer = handle.file.write_all_at(bytes, at);
        self.doubt_failed(number, answer)
    }

    /// Cuts a file that is longer than this to this length.
    pub fn cut(&mut self, number: u32, len: u64) -> io::Result<()> {
        let Some(handle) = self.find(number)? else {
            return Ok(());
        };
        if handle.file.found()?.len <= len {
            return Ok(());
        }
        handle.is_changed = true;
        let answer = handle.file.set_len(len);
        self.doubt_failed(number, answer)
    }

    /// Makes last what a file has, and its name. A file without bytes is removed.
    pub fn sync(&mut self, number: u32) -> io::Result<()> {
        if let Some(handle) = self.find(number)? {
            if handle.file.found()?.len == 0 {
                self.remove(number)?;
            } else if handle.is_changed {
                self.sync_bytes(number)?;
            }
        }
        self.sync_names()
    }

    /// Makes last what an open file has, as long as this program has the lock.
    fn sync_bytes(&mut self, number: u32) -> io::Result<()> {
        self.expect_lock()?;
        let Some(handle) = self.handles.get_mut(&number) else {
            return Ok(());
        };
        let answer = handle.file.sync();
        handle.is_changed = answer.is_err();
        self.doubt_failed(number, answer)
    }

    /// Hands on the answer of a write, a cut or a sync. If it failed, a read may give what the device doesn't have and never
    /// will, so the next call settles the file, be it of this program or of a later one.
    fn doubt_failed(&mut self, number: u32, answer: io::Result<()>) -> io::Result<()> {
        if answer.is_err() {
            self.has_failed = true;
            self.settled.remove(&number);
            if let Some(lock) = &mut self.lock {
                // If this fails too, this program alone knows.
                let _kept = lock.doubts.add(number, &lock.file);
            }
        }
        answer
    }

    /// Whether a read of a file may give what the device never got.
    fn is_doubted(&self, number: u32) -> bool {
        match &self.lock {
            Some(lock) => self.has_failed || lock.doubts.has(number),
            None => self.has_failed,
        }
    }

    /// A file is in doubt no more. A later program that isn't told so settles it once more.
    fn trust(&mut self, number: u32) {
        if let Some(lock) = &mut self.lock {
            let _kept = lock.doubts.remove(number, &lock.file);
        }
    }

    /// Makes the folder where it isn't there, and locks it for this program. Every call but one that fails at once
    /// begins so.
    fn claim(&mut self) -> io::Result<()> {
        if self.lock.is_some() {
            return Ok(());
        }
        self.system.make_folder(self.path.as_str())?;
        self.expect_slots()?;
        let path = format!(in self.alloc; "{}/lock", self.path)?;
        let file = lock(&self.system, path.as_str())?;
        self.expect_list()?;
        let doubts = Doubts::read(self.alloc, &file)?;
        self.lock = Some(Lock { file, path, doubts });
        Ok(())
    }

    /// Fails where the folder has files of a store, but nothing in either of its slots. Nothing was made in it so far.
    fn expect_slots(&self) -> io::Result<()> {
        for slot in SLOTS {
            match look_for(&self.system, self.path_of(slot)?.as_str())? {
                Some(found) if !found.is_regular || found.len > 0 => return Ok(()),
                _ => {}
            }
        }
        expect_store(self.has_no_list_yet()?)
    }

    /// Fails where the folder has files of a store, but no open slot: the store above would make a new one over them. Another
    /// program may be about to write a slot, so it has to be locked.
    fn expect_list(&self) -> io::Result<()> {
        let mut is_store = self.has_no_list_yet()?;
        for slot in SLOTS {
            is_store = is_store || self.is_open(slot)?;
        }
        expect_store(is_store)
    }

    /// Whether there are no files but those that are made before a store's first list.
    fn has_no_list_yet(&self) -> io::Result<bool> {
        match self.system.last_number(self.path.as_str())? {
            Some(FIRST) => {
                let found = self.system.look(self.path_of(FIRST)?.as_str())?;
                Ok(found.len <= BEFORE_SLOTS)
            }
            last => Ok(last < Some(FIRST)),
        }
    }

    /// Whether a slot is open. Of what has its name and is no file nothing is known, and the call that opens it fails.
    fn is_open(&self, slot: u32) -> io::Result<bool> {
        let path = self.path_of(slot)?;
        if let Some(found) = look_for(&self.system, path.as_str())? {
            if !found.is_regular {
                return Ok(true);
            }
        }
        let Some(file) = open_if_there(&self.system, path.as_str())? else {
            return Ok(false);
        };
        let mut front = [0; LEAST_LIST];
        let count = read_on(&file, 0, &mut front)?;
        Ok(count == LEAST_LIST && front[0] == OPEN)
    }

    /// Fails unless the file that this program locked still has its name, so that no other program can have locked another.
    fn expect_lock(&self) -> io::Result<()> {
        match &self.lock {
            Some(lock) => expect_named(&self.system, lock.path.as_str(), &lock.file),
            None => Err(io::Error::from(ErrorKind::NotFound)),
        }
    }

    /// The handle of a file, which is settled. `None` is that the file isn't there.
    fn find(&mut self, number: u32) -> io::Result<Option<&mut Handle<R::File>>> {
        self.claim()?;
        if !self.handles.contains_key(&number) {
            self.expect_lock()?;
            match self.open(number)? {
                Some(file) => self.keep_open(number, file)?,
                None => return Ok(None),
            }
        }
        if !self.settled.contains(&number) {
            self.settle(number)?;
        }
        Ok(self.handles.get_mut(&number))
    }

    /// Makes sure that the device has what a read of an open file gives. The system may hold bytes of it that it couldn't write, and
    /// tells so once: then they are written again, over themselves, since a second sync alone would write nothing.
    fn settle(&mut self, number: u32) -> io::Result<()> {
        self.expect_lock()?;
        let is_doubted = self.is_doubted(number);
        let Some(handle) = self.handles.get_mut(&number) else {
            return Ok(());
        };
        let answer = make_last(self.alloc, &handle.file, is_doubted);
        handle.is_changed = answer.is_err();
        self.doubt_failed(number, answer)?;
        self.settled.insert(number)?;
        self.trust(number);
        Ok(())
    }

    /// Opens a file that isn't open. Where no descriptor is left, files without changes are closed, and it is tried again.
    fn open(&mut self, number: u32) -> io::Result<Option<R::File>> {
        let path = self.path_of(number)?;
        let answer = open_if_there(&self.system, path.as_str());
        if wants_descriptor(&answer) {
            self.close_unchanged();
            return open_if_there(&self.system, path.as_str());
        }
        answer
    }

    /// Makes a file that isn't there. Where no descriptor is left, files without changes are closed, and it is tried again.
    fn make(&mut self, number: u32) -> io::Result<()> {
        let path = self.path_of(number)?;
        self.names_change();
        let mut answer = self.system.make(path.as_str());
        if wants_descriptor(&answer) {
            self.close_unchanged();
            answer = self.system.make(path.as_str());
        }
        self.keep_open(number, answer?)?;
        self.settled.insert(number)?;
        Ok(())
    }

    /// Keeps a file open. Where many are, those without changes are closed first.
    fn keep_open(&mut self, number: u32, file: R::File) -> io::Result<()> {
        if self.opened >= MOST_OPEN {
            self.close_unchanged();
        }
        self.opened = self.opened.saturating_add(1);
        let handle = Handle {
            file,
            is_changed: false,
        };
        self.handles.insert(number, handle)?;
        Ok(())
    }

    /// Closes the files without changes. Of one with changes the system might forget that it couldn't write them.
    fn close_unchanged(&mut self) {
        self.handles.retain(|_, handle| handle.is_changed);
        self.opened = 0;
    }

    /// Removes a file that is open, if it still has its name and this program the lock.
    fn remove(&mut self, number: u32) -> io::Result<()> {
        self.expect_lock()?;
        let path = self.path_of(number)?;
        if let Some(handle) = self.handles.get(&number) {
            expect_named(&self.system, path.as_str(), &handle.file)?;
            self.names_change();
            self.system.remove(path.as_str())?;
        }
        self.handles.remove(&number);
        self.settled.remove(&number);
        self.trust(number);
        Ok(())
    }

    fn names_change(&mut self) {
        if self.unsynced == Unsynced::Nothing {
            self.unsynced = Unsynced::Files;
        }
    }

    /// Makes last which files there are.
    fn sync_names(&mut self) -> io::Result<()> {
        if self.unsynced == Unsynced::Nothing {
            return Ok(());
        }
        self.expect_lock()?;
        let answer = self.try_sync_names();
        if wants_descriptor(&answer) {
            self.close_unchanged();
            return self.try_sync_names();
        }
        answer
    }

    fn try_sync_names(&mut self) -> io::Result<()> {
        if self.unsynced == Unsynced::Folder {
            sync_name(&self.system, self.path.as_str())?;
        }
        self.system.sync_folder(self.path.as_str())?;
        self.unsynced = Unsynced::Nothing;
        Ok(())
    }

    fn path_of(&self, number: u32) -> Result<String, AllocError> {
        format!(in self.alloc; "{}/{number}.dat", self.path)
    }
}

fn expect_store(is_store: bool) -> io::Result<()> {
    if is_store {
        Ok(())
    } else {
        Err(io::Error::from(ErrorKind::InvalidData))
    }
}
