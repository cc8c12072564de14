//! One request of a client, from the source to its reply, in steps that a session may take apart.
//!
//! ```text
//!   find_next     the next request of a source, or how the session ends, kept until it is wanted
//!   carry_out     the request that waits in a lane is carried out; its reply waits there then
//!   send_reply    the reply is written
//! ```
#![tactic(auto)]

pub mod carry;
pub mod lane;
pub mod queued;
pub mod send;

pub use carry::carry_out;
pub use lane::{Lane, Reply, Stage};
pub use queued::{Next, Queued, find_next};
pub use send::send_reply;
