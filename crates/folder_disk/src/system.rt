//! What a disk in a folder asks of the system, and the system that a program hands on.

ghost use Rattle.std.specs.Io.{ReadsAtMost};

use std::fs::{DirBuilder, File, Metadata, OpenOptions};
use std::io::ErrorKind;
use std::os::fd::AsRawFd;
use std::os::unix::fs::{DirBuilderExt, FileExt, MetadataExt, OpenOptionsExt};
use std::{fs, io};

/// What the system tells of a file.
#[derive(Clone, Copy, Debug, PartialEq, Eq)]
pub struct Found {
    /// Whether it is a regular file: no folder, link, pipe, socket or device.
    pub is_regular: bool,
    /// How many bytes it has.
    pub len: u64,
    /// Its device and its inode, which no other file has meanwhile.
    pub place: (u64, u64),
}

/// The system's files, as a disk in a folder asks for them. No call promises anything of what the system does.
pub trait System {
    /// A file that is open to be read and written, until it is dropped.
    type File: SystemFile + Drop;

    /// Makes a folder that its owner alone may use, unless one is there. The folder above it has to be there.
    fn make_folder(&self, path: &str) -> io::Result<()>;

    /// Makes last which names a folder has.
    fn sync_folder(&self, path: &str) -> io::Result<()>;

    /// The greatest n for which a folder has a name `n.dat`.
    fn last_number(&self, path: &str) -> io::Result<Option<u32>>;

    /// What has this name. A link is not followed.
    fn look(&self, path: &str) -> io::Result<Found>;

    /// Opens what has this name.
    fn open(&self, path: &str) -> io::Result<Self::File>;

    /// Makes a regular file that its owner alone may use. It fails where anything has the name.
    fn make(&self, path: &str) -> io::Result<Self::File>;

    /// Removes a name.
    fn remove(&self, path: &str) -> io::Result<()>;
}

/// An open file of a [`System`].
pub trait SystemFile {
    /// What is open.
    fn found(&self) -> io::Result<Found>;

    /// Locks the file as long as it is open. It fails at once where it is locked by another opening.
    fn lock(&self) -> io::Result<()>;

    /// Reads bytes from the byte `at` on, and answers how many: no more than it is asked for, and none at the end.
    fn read_at(&self, buf: &mut [u8], at: u64) -> io::Result<usize>
        ensures bound { ReadsAtMost result buf.new };

    /// Writes all these bytes from the byte `at` on.
    fn write_all_at(&self, bytes: &[u8], at: u64) -> io::Result<()>;

    /// Gives the file this length.
    fn set_len(&self, len: u64) -> io::Result<()>;

    /// Waits until the device has the file's bytes and its length.
    fn sync(&self) -> io::Result<()>;
}

impl System for HostRuntime {
    type File = File;

    fn make_folder(&self, path: &str) -> io::Result<()> {
        match DirBuilder::new().mode(0o700).create(self, path) {
            Ok(()) => Ok(()),
            Err(e) => match fs::metadata(self, path) {
                Ok(found) if found.is_dir() => Ok(()),
                _ => Err(e),
            },
        }
    }

    fn sync_folder(&self, path: &str) -> io::Result<()> {
        File::open(self, path)?.sync_all()
    }

    fn last_number(&self, path: &str) -> io::Result<Option<u32>> {
        let mut last = None;
        for entry in fs::read_dir(self, path)? {
            match entry {
                Ok(entry) => last = last.max(number_of(entry.file_name())),
                // A name that isn't UTF-8.
                Err(e) if e.kind() == ErrorKind::InvalidFilename => {}
                Err(e) => return Err(e),
            }
        }
        Ok(last)
    }

    fn look(&self, path: &str) -> io::Result<Found> {
        Ok(found_in(&fs::symlink_metadata(self, path)?))
    }

    fn open(&self, path: &str) -> io::Result<File> {
        above_streams(OpenOptions::new().read(true).write(true).open(self, path)?)
    }

    fn make(&self, path: &str) -> io::Result<File> {
        let made = OpenOptions::new()
            .read(true)
            .write(true)
            .create_new(true)
            .mode(0o600)
            .open(self, path)?;
        above_streams(made)
    }

    fn remove(&self, path: &str) -> io::Result<()> {
        fs::remove_file(self, path)
    }
}

impl SystemFile for File {
    fn found(&self) -> io::Result<Found> {
        Ok(found_in(&self.metadata()?))
    }

    fn lock(&self) -> io::Result<()> {
        Ok(self.try_lock()?)
    }

    fn read_at(&self, buf: &mut [u8], at: u64) -> io::Result<usize> {
        FileExt::read_at(self, buf, at)
    }

    fn write_all_at(&self, bytes: &[u8], at: u64) -> io::Result<()> {
        FileExt::write_all_at(self, bytes, at)
    }

    fn set_len(&self, len: u64) -> io::Result<()> {
        File::set_len(self, len)
    }

    fn sync(&self) -> io::Result<()> {
        self.sync_data()
    }
}

fn found_in(told: &Metadata) -> Found {
    Found {
        is_regular: told.is_file(),
        len: told.len(),
        place: (told.dev(), told.ino()),
    }
}

/// The number n of a name `n.dat`.
fn number_of(name: &str) -> Option<u32> {
    name.strip_suffix(".dat")?.parse().ok()
}

/// The same file under a descriptor that is none of the three standard streams'. Where a program was started with one
/// of these closed, the system gives its number to the next file, and what the program prints would go there.
fn above_streams(file: File) -> io::Result<File> {
    if file.as_raw_fd() > 2 {
        Ok(file)
    } else {
        file.try_clone()
    }
}
