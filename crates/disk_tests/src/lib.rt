//! Tests of the crates that keep the store's bytes, by their public calls alone.
#![tactic(auto)]

#[cfg(test)]
mod batches;
#[cfg(test)]
mod disk;
#[cfg(test)]
mod fields;
#[cfg(test)]
mod list;
#[cfg(test)]
mod log;
