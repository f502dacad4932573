//! Tests of texts of steps, the history, the bus and the machine: they use public calls alone, so they stand in a crate of their own, and
//! the crates are proved once.
#![tactic(auto)]

#[cfg(test)]
mod bus;
#[cfg(test)]
mod history;
#[cfg(test)]
mod machine;
#[cfg(test)]
mod trace;
