//! Tests of lists of events on a store, and of ingests in whole runs. They show what no clause says.
#![tactic(auto)]

#[cfg(test)]
mod event_model;
#[cfg(test)]
mod events_tests;
#[cfg(test)]
mod full_tests;
#[cfg(test)]
mod ingest_tests;
#[cfg(test)]
mod window_tests;
