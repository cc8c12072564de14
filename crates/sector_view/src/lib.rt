//! Views of buffers of data units, and parts of them that are lent.
//!
//! Nothing here copies a buffer. A `View` lends units of bytes that are only read. `Parts` cuts a
//! buffer into pieces and lends each, for as long as the buffer itself is lent:
//!
//! ```text
//!   |-- part 0 --|-- part 1 --|-- part 2 --|- part 3 -|
//!    piece bytes  piece bytes  piece bytes  the rest
//! ```
//!
//! `decipher_all` deciphers a buffer in place by several threads, each on a part of its own.
//!
//! Lengths and pieces are in bytes, units are data units of 512 bytes. No call takes memory.
#![tactic(auto)]

pub use decipher::decipher_all;
pub use parts::{Part, Parts};
pub use view::View;

pub mod decipher;
pub mod parts;
pub mod view;
