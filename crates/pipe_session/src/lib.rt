//! A session with one client whose requests are carried out side by side.
//!
//! A client's requests are taken in waves. The requests of one wave have no sector in common, so the order in
//! which they take effect doesn't matter to the client, unless one is a write that is denied: that one refuses those
//! of its wave that take effect later, wherever they stand in it. A flush, and a malformed request, is a wave by
//! itself.
//! The session has 1 to 8 lanes, each with a pass of its own: request j of a wave runs on lane j, all of a wave
//! at the same time.
//!
//! ```text
//!   pipe   meet | take a wave | run it | write its replies | meet | take the next wave ..
//!
//!   take_wave      requests are read until one doesn't join the wave, which is kept for the next one
//!   run_wave       each lane carries out its request, in a thread
//!   send_replies   in the order of the requests, until the sink refuses one
//!   meet           all passes see what any of them has seen, so the next wave follows this one
//! ```
//!
//! In proofs the history that a session adds is cut into one part for each wave. `specs/Waves.antt` has the
//! definition of waves, `specs/ToldPipe.antt` the promise of a whole session. Nothing calls it yet.
#![tactic(auto)]

pub mod meet;
mod run;
mod send;
mod session;
mod take;
#[cfg(test)]
mod tests;
pub mod wave;

pub use meet::tell;
pub use session::pipe;
pub use wave::{joins, waves_are_the_requests};
