//! Tests of versions, seats, watches and gatherings: they use public calls alone, so they stand in a crate of their own, and the crates
//! are proved once.
#![tactic(auto)]

#[cfg(test)]
mod cores;
#[cfg(test)]
mod versions;
