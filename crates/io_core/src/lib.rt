//! The core of a volume that several clients write and read at once.
//!
//! A `Core` has the container, the cipher, and the writes that are pending. Each call that changes it is one
//! event, and the core is a plain value: whoever shares it between threads lets one event follow the other.
//!
//! ```text
//!             admit_write
//!   Prepared -------------> pending: its range is free of reads and other writes
//!      ^           |           each fragment:  waiting --deposit--> stored, or spoilt
//!      +-----------+ handed back: denied, frozen, or to be asked again later
//!
//!            close_write
//!   pending -------------> done, if all fragments were stored; lost, if one was spoilt and none is waiting
//! ```
//!
//! The other events are `fetch`, a read, which no pending write may overlap, and a flush. Fragments are
//! deposited in any order. Whoever deposits one has enciphered it, and whoever fetches sectors deciphers
//! them, outside the event.
//!
//! A write takes effect when it is admitted. `specs/Sound.antt` says what a state stands for: an opening
//! state and a history. Each event keeps that, also if the store fails.
//! Requests are in sectors of the volume, fragments in data units. Only `Core::new` and `Prepared::new`
//! take memory.
#![tactic(auto)]

pub use answers::{Admit, Close, Deposit, Fetch};
pub use part::PartState;
pub use prepared::{NoMemory, Prepared};
pub use state::Core;

pub mod admit;
pub mod answers;
pub mod close;
pub mod deposit;
pub mod fetch;
pub mod flush;
pub mod part;
pub mod pending;
pub mod prepared;
pub mod seal;
pub mod standing;
pub mod state;
#[cfg(test)]
mod tests;
