//! Tests of searches by pages: what is picked, what repeats of a span do, and long random runs.
//!
//! - What is picked: `hints`, `sieves`, over `blocks` of spans that stand in a text.
//! - Spans that were pushed twice: `repeats`.
//! - Long random runs: `plays`, whose searches are compared with `model`, an answer over all rows.
#![tactic(auto)]

#[cfg(test)]
mod blocks;
#[cfg(test)]
mod hints;
#[cfg(test)]
mod model;
#[cfg(test)]
mod plays;
#[cfg(test)]
mod repeats;
#[cfg(test)]
mod sieves;
