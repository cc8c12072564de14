//! The guard that protects a hidden volume while its outer volume is written.
//!
//! A guard knows the range of the container's data units that the hidden volume has. It judges each
//! write of the outer volume before the write begins. The first write that would change a protected
//! unit is denied, and the guard is frozen from then on: whoever wrote there doesn't know where the
//! hidden volume is, so no later write is safe either.
//!
//! ```text
//!             touches                  any write
//!   open ---------------> frozen <---------------+
//!   |  ^    Denied             |       Frozen     |
//!   +--+ Pass                  +------------------+
//! ```
//!
//! Ranges are in data units of 512 bytes, numbered from the container's start. The guard stores
//! nothing of a write, and takes no memory.
#![tactic(auto)]

pub use guard::{Guard, Verdict};

pub mod guard;
