//! Tests of stores whose files are cut or changed, whose blocks change while they are open, and whose device stops at each call.
//!
//! `script` plays pushes, flushes, a compaction and an emptying of loose files over any disk, and looks their trace up again;
//! `spans` has the spans. The tests: `files` (files that are cut, changed or longer), `stripes` (a block that changes),
//! `stops` (a device that stops).
#![tactic(auto)]

#[cfg(test)]
mod files;
#[cfg(test)]
mod script;
#[cfg(test)]
mod spans;
#[cfg(test)]
mod stops;
#[cfg(test)]
mod stripes;
