//! A volume as a plain array of sectors, and which histories of requests are those of such an array.
//!
//! Several clients write and read one volume at the same time, a write in several fragments. What they
//! may see of it is defined here: a history is one list of entries, oldest first, and a legal history is
//! one in which each read gives what the array then holds and each refusal has its cause.
//!
//! ```text
//!           Put          a write takes effect, and is open from now on
//!          /   \         meanwhile no read and no other write overlaps it
//!      Done     Lost     it ends: all of it was stored, or some fragments failed and the array holds
//!                        what the failed writes left there
//! ```
//!
//! `specs/` has the definitions, which are the meaning of a volume that threads share. The code is
//! `PlainVolume`, an array in memory that does what the definitions say for one caller: tests compare a
//! real volume with it. A sector has 512 to 4096 bytes, a data unit 512. Ranges are in sectors, numbered
//! from 0, but the protected range is in data units. No call takes memory.
#![tactic(auto)]

pub use entry::{Entry, Event, FaultMark};
pub use examples::{illegal_histories, legal_histories};
pub use plain::{Answer, PlainVolume};

pub mod entry;
pub mod examples;
pub mod plain;
