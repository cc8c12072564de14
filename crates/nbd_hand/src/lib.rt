//! The fixed newstyle handshake of the NBD protocol, with one client.
//!
//! The server greets, the client sends its flags, and then options follow: each is answered before the
//! next one is read, until one of them starts the session or ends the connection. There is one export,
//! whose name is empty. Structured replies, block sizes and TLS are not offered.
//!
//! ```text
//! greeting      | NBDMAGIC 8 | IHAVEOPT 8 | flags 2 |
//! flags         | flags 4 |
//! option        | IHAVEOPT 8 | number 4 | length 4 | data |
//! option reply  | magic 8 | number 4 | type 4 | length 4 | data |
//! ```
//!
//! An option's data is skipped in pieces, whatever length it has, so a handshake takes no memory.
//! `specs/Options.antt` has the table of options and replies, `specs/Hand.antt` the promise. The protocol
//! is that of nbd/doc/proto.md, "Fixed newstyle negotiation". Sizes are in bytes.
#![tactic(auto)]

pub use end::{HandEnd, Refusal};
pub use greeting::handshake;

mod asked;
pub mod end;
mod greeting;
mod head;
mod input;
mod option;
mod output;
mod reply;
#[cfg(test)]
mod tests;
