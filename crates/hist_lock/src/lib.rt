//! One value that threads use in turns, and the one history of what they did to it.
//!
//! A `HistLock` keeps a value. A thread that has a `Pass` takes a `turn`: it waits until it is served,
//! its `Act` changes the value once, and the turn is passed on. In proofs alone the lock has a history,
//! the list of all entries that the acts added. A pass has seen a prefix of it, in which the entries under
//! its own number are exactly those of its own turns.
//!
//! `split` makes a pass for another thread, `join` takes one in, and `close` gives the value back once all
//! passes are joined into one, which has then seen the whole history. What a value and an entry are, the
//! trait `Standing` says. No clause says that a turn comes, or how long one waits; waiting threads sleep.
//! No call but `new` takes memory. `docs/GUARANTEES.md`, "How one history comes about", has the picture.
#![tactic(auto)]

mod act;
mod close;
mod lock;
mod pass;
mod plays;
mod split;
mod start;
#[cfg(test)]
mod tests;
mod turn;
mod view;
mod wait;

pub use act::Act;
pub use hist_standing::Standing;
pub use lock::HistLock;
pub use pass::Pass;
pub use view::{Law, Met, View};
