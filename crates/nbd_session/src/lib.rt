//! A session with one client of a volume.
//!
//! `session` takes the requests of a source one by one, has the volume carry each out, and gives the reply
//! to a sink before it takes the next one. It holds the memory of one request at most, whatever the client
//! sends. Sources give bytes in pieces of any length and sinks take them so.
//!
//! ```text
//!   next_request    28 bytes, or how the session ends
//!   take_rest       the payload of a write, straight into the buffer that the volume gets; without memory for
//!                   it, and of a malformed write, the bytes are skipped
//!   answer          the volume's call, then the reply, with the data of a read in one piece
//! ```
//!
//! In proofs each call says which bytes it took and gave, and which entries it added to the volume's history
//! under the number of its pass. `specs/Session.antt` has the promise of a whole session. A source or sink
//! whose bytes are unknown gets the same promises, of some bytes. `docs/PROTOCOL.md` has the protocol.
#![tactic(auto)]

mod answer;
mod client;
pub mod head;
pub mod input;
mod output;
pub mod payload;
pub mod reply;
pub mod sectors;
#[cfg(test)]
mod tests;

pub use client::session;
pub use head::next_request;
pub use payload::take_rest;
pub use reply::{reply_alone, reply_data};
pub use sectors::{flush_volume, read_sectors, write_request};
