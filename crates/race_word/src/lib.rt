//! The least number that threads have offered.
//!
//! Threads look for the least number of some kind. A `Least` is one shared word. It begins as a limit, and a
//! thread that finds such a number offers it; the word is then the least of those offered. A thread whose own
//! numbers are all greater than the word can stop. What may be offered, the trait `Names` says, so whoever is
//! told a number below the limit knows that it is one of these.
//!
//! A thread looks and offers through its `Runner`. What a runner is told never rises. Each call but `new` is one
//! atomic step on the word, waits for nobody and takes no memory. `docs/GUARANTEES.md`, "Why the order of
//! finishing doesn't matter", has the use that opening makes of it.
#![tactic(auto)]

mod least;
mod names;
mod plays;
mod runner;
#[cfg(test)]
mod tests;
mod view;

pub use least::Least;
pub use names::Names;
pub use runner::Runner;
pub use view::{Key, Law, View};
