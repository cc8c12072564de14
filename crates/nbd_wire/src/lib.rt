//! Requests and replies of the NBD protocol, in its transmission phase.
//!
//! A client sends requests one after the other: a head of 28 bytes, and after the head of a write its
//! payload. Each is answered, in the same order, by a simple reply of 16 bytes, and after that of a
//! successful read its data.
//!
//! ```text
//! request  | magic 4 | flags 2 | type 2 | cookie 8 | offset 8 | length 4 | payload of a write
//! reply    | magic 4 | error 4 | cookie 8 |                                data of a read
//! ```
//!
//! This crate reads heads, says what they ask and writes the heads of replies. It also defines the
//! requests of a client's bytes, what they leave in a history of a volume, and their replies: what a
//! session over a volume is proved to do. It reads no source and takes no memory. Offsets and lengths of
//! a request are in bytes, the ranges of `Ask` in sectors. `docs/PROTOCOL.md` has the rules and tables.
#![tactic(auto)]

pub use ask::{Ask, ask_of};
pub use end::End;
pub use reply::{Outcome, REPLY, write_reply};
pub use request::{BadMagic, HEAD, Request, read_request};

pub mod ask;
pub mod end;
pub mod reply;
pub mod request;
#[cfg(test)]
mod tests;
