//! The clients of a drill: their bytes, and whether the replies say that each request was done.
//!
//! The drill of a number has three clients with twelve requests each, all made from the words of a random
//! stream. This crate makes the clients' bytes and the counts of the summary, and reads the bytes of the
//! replies. It knows no volume: a law says what requests that were all done have left in a history, whatever
//! volume served them.
//!
//! ```text
//! word of a request  ->  head, payload  ->  bytes of a client  ->  server  ->  replies  ->  are_done
//! ```
//!
//! Sectors have 512 bytes. First sectors and counts are in sectors, lengths in bytes. `docs/FORMAT.md`, "The
//! drill", has the table of requests.
#![tactic(auto)]

pub use done::are_done;
pub use laws::{streams_are_requests, writes_stay_with_their_client};
pub use streams::{NoMemory, Streams, streams_of};

mod bytes;
pub mod done;
pub mod laws;
mod requests;
pub mod streams;
#[cfg(test)]
mod tests;
