//! Tests of the disk in a folder and of the system's clock, by their public calls alone.
#![tactic(auto)]

#[cfg(test)]
mod calls;
#[cfg(test)]
mod clock;
#[cfg(test)]
mod folder;
#[cfg(test)]
mod machine;
#[cfg(test)]
mod settling;
