//! All clients of a volume at once.
//!
//! `serve` gives each client a pass of its own, runs their sessions side by side, each in a thread, and joins
//! the passes again once all sessions have ended. `serve_hand` does so with a handshake before each session.
//! Helpers are further threads, each with a pass: they take fragments of the clients' writes until all clients
//! have ended.
//!
//! ```text
//!   take memory | line up: the clients, then the helpers | split: a pass for each, in order
//!               | run: the work of each | join: the passes, in order
//! ```
//!
//! All memory that the call itself needs is taken before the first pass is split, so a call that is out of memory
//! has changed nothing. If no thread can be started, the sessions run one after another, and then the helpers find
//! that all clients have ended.
//! In proofs the sessions leave their entries in the one history of the volume, each under the number of its
//! client's pass. Helpers leave none. `specs/Served.antt` has the promise.
#![tactic(auto)]

mod client;
mod ended;
mod help;
mod join;
mod room;
mod run;
mod served;
mod server;
mod split;
mod task;
#[cfg(test)]
mod tests;
mod works;

pub use io_core::NoMemory;
pub use served::Served;
pub use server::{serve, serve_hand};
