//! The outside of a program that keeps its store on a real machine: a disk in a folder, and the system's clock. They
//! meet the traits of `disk_model` and `io_edges`, and tell nothing of what a folder holds or a clock shows.
#![tactic(auto)]

mod disk;
mod doubts;
mod files;
mod folder;
mod system;
mod system_clock;

pub use disk::{FolderDisk, is_disk};
pub use system::{Found, System, SystemFile};
pub use system_clock::SystemClock;
