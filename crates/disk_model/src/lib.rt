//! Disks of numbered files, and what a crash may leave of them.
//!
//! - The traits: `disk` has the calls of a device and what each promises; `through` makes one change and syncs it.
//! - A disk in memory, `MemDisk`: `memory`, over `history` (all files and their changes), `file`, `change` and `picks`
//!   (what a crash may leave of a file). `script` says which of its calls fail.
//! - `odd`: a disk that gives what a test chose, whatever was written.
//! - `laws` holds a theorem.
//!
//! What a crash may leave is defined in `specs/Images.antt` and `specs/Crash.antt`; `docs/DISK-MODEL.md` says it in
//! words, and what is assumed of a real disk.
#![tactic(auto)]

mod change;
mod disk;
mod file;
mod history;
mod laws;
mod memory;
mod odd;
mod picks;
mod script;
mod through;

pub use disk::{Device, Disk};
pub use laws::other_files_stay;
pub use memory::MemDisk;
pub use odd::{ByteLists, OddDisk};
pub use through::{cut_through, write_through};
