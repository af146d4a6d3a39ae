//! Tests of the crates that keep the store's rows and its state, by their public calls alone.
//!
//! - Opening: `opening`, `blocks` (a listed block that is malformed). Running: `pushes`, `flushing`, `compacting`,
//!   `frames` (the page cache).
//! - Without a disk: `live` (rows in memory).
//! - `store` plays calls on a store over a disk in memory, for the others.
#![tactic(auto)]

#[cfg(test)]
mod blocks;
#[cfg(test)]
mod compacting;
#[cfg(test)]
mod flushing;
#[cfg(test)]
mod frames;
#[cfg(test)]
mod live;
#[cfg(test)]
mod opening;
#[cfg(test)]
mod pushes;
#[cfg(test)]
mod store;
