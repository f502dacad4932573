//! Tests of the engines and of the command line: they use public calls alone, so they stand in a crate of their own, and the crates are proved once.
#![tactic(auto)]

#[cfg(test)]
mod engine;
#[cfg(test)]
mod failures;
#[cfg(test)]
mod memory;
#[cfg(test)]
mod messages;
#[cfg(test)]
mod streams;
#[cfg(test)]
mod view;
#[cfg(test)]
mod words;
