//! Jobs for helping threads: fragments of writes that wait to be enciphered.
//!
//! A write is cut into fragments, and each becomes a `Job`. Every client has a `Bench`, onto which it
//! pushes its jobs and from which it takes them again, and every helping thread a `Helper`, which
//! steals jobs from any bench. Who gets a job enciphers it by `Job::encipher`, which makes it a `Piece`.
//!
//! ```text
//!   client 0   push -> [ job job job ] -> take        helper 0   steal
//!   client 1   push -> [ job ]         -> take        helper 1   steal
//!                      a deque for each bench; steal looks at each in turn
//! ```
//!
//! In proofs alone each deque keeps a rule over all its passes, one of its bench and one of each
//! helper: every job that was pushed is in the deque or was got by one pass, once, and nothing else
//! was got. `docs/GUARANTEES.md`, "How each job is got once", has the idea.
//!
//! Whoever has nothing to do isn't put to sleep here: `steal` returns None if it found every deque
//! empty, and the server's helpers then wait until a push or the end of a client wakes them.
#![tactic(auto)]

pub use bench::Bench;
pub use helper::{Helper, Thief};
pub use job::{Job, Piece};
pub use pool::Pool;
pub use view::{Law, View, Won};

pub mod bench;
pub mod helper;
pub mod job;
mod moves;
pub mod pool;
#[cfg(test)]
mod tests;
pub mod view;
