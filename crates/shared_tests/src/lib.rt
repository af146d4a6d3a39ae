//! Tests of a store that seats share, on threads over a disk in memory. They run what the clauses of `shared_store` say nothing of: that the
//! calls of threads come to an end, and what they were answered.
#![tactic(auto)]

#[cfg(test)]
mod calls;
#[cfg(test)]
mod found;
#[cfg(test)]
mod history;
#[cfg(test)]
mod rounds;
#[cfg(test)]
mod seats;
#[cfg(test)]
mod spans;
#[cfg(test)]
mod steps;
#[cfg(test)]
mod wakes;
