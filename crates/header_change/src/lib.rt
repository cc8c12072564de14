//! Headers written anew, safe at each moment.
//!
//! `change` gives a volume another password, PIM and PRF: it writes the primary header of the opened one's
//! pair, then its backup. `restore` writes the primary header from the opened one, which is mostly its backup.
//! Master keys, sizes and sectors stay, so no sector is enciphered anew.
//!
//! ```text
//!            write primary     sync      write backup     sync
//! primary    old ... torn ........| new ......................
//! backup     old .................| old ... torn .......| new
//!            old password opens   | new password opens
//! ```
//!
//! A header is made lasting before the other one is touched. So at each moment, in the middle of a write too,
//! a crash leaves a backup that the old password opens, or a primary header that the new one opens.
//! Neither call takes memory.
#![tactic(auto)]

pub use anew::{change, restore};

pub mod anew;
mod header;
#[cfg(test)]
mod tests;
