//! Tests of the crates that keep rows in blocks, by their public calls alone.
//!
//! - Bytes worked out by hand: `headers`, `stripes`, `indexed`, `whole`, and `malformed` for stripes that are wrong in
//!   a place or two.
//! - Blocks that are built: `built` (read again), `lookups` (what is found, by how many page reads).
//! - `given` is bytes and offsets that stand in texts, for the others.
#![tactic(auto)]

#[cfg(test)]
mod built;
#[cfg(test)]
mod given;
#[cfg(test)]
mod headers;
#[cfg(test)]
mod indexed;
#[cfg(test)]
mod lookups;
#[cfg(test)]
mod malformed;
#[cfg(test)]
mod stripes;
#[cfg(test)]
mod whole;
