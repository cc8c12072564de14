//! Opening by several threads.
//!
//! To open a container takes one key derivation for each slot and PRF that is tried, up to four, and each takes
//! a second or so. Here they run side by side, each on one of the workers, and the answer is still that of
//! `open_plain`: the first valid candidate of the kind.
//!
//! ```text
//!   headers read --> derivation 0 ---- ends: candidate 5 is valid --offers 5--> outcome: 5
//!                --> derivation 1 ---- ends: none is valid -------------------> outcome: none
//!                --> derivation 2 ---- looks, is told 5 < 16: stops ----------> outcome: stopped
//! ```
//!
//! Candidates have numbers, in the order in which opening tries them: derivation d has those from 8 d to
//! 8 d + 7. A derivation that ends offers its least valid candidate to a word that all share (`race_word`), and
//! one that is told a number below all its own stops: it can't be the first any more. So the outcomes, in
//! order, tell the first valid candidate, whoever was faster. `docs/GUARANTEES.md`, "Why the order of finishing
//! doesn't matter", has the argument.
#![tactic(auto)]

pub use header_seal::Opened;
pub use header_try::OpenError;
pub use open::open_race;
pub use vc_layout::Kind;

mod derivation;
mod entrant;
mod open;
mod race;
mod task;
#[cfg(test)]
mod tests;
