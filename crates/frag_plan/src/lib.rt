//! How a request is cut into fragments.
//!
//! A write is enciphered and stored in fragments of up to 512 data units, so that several threads can
//! work on it and a failed call of the store spoils no more than one fragment. A `Plan` says which
//! fragments a request has. They are cut from the request's own first unit on, and not at multiples
//! of 512:
//!
//! ```text
//!   first       + 512        + 1024       + 1536    first + count
//!     |-- frag 0 --|-- frag 1 --|-- frag 2 --|- frag 3 -|
//! ```
//!
//! All numbers are in data units of 512 bytes. The crate holds no data and takes no memory.
#![tactic(auto)]

pub use plan::{Frag, Plan, fragments_tile, plan_of};

pub mod plan;
