//! The header of a volume: its checksum, its fields, and when it is valid.
//!
//! A header has 512 bytes, of which the last 448, the body, are enciphered. This crate reads and
//! writes a deciphered body. It knows no cipher, no password and no file, and takes no memory.
//! Numbers in a body are big-endian. `docs/FORMAT.md`, "Header", has the table of the fields and the
//! rules of a valid header.
//!
//! Source: VeraCrypt's documentation, "VeraCrypt Volume Format Specification".
#![tactic(auto)]

pub use checksum::crc32;
pub use fields::{Fields, MATERIAL, read_plain, validity_is_decided, write_plain};
pub use view::{BODY, HEADER, HeaderView, SALT, header_of};
pub use volume::{geometry_of, protect_of};

pub mod checksum;
pub mod fields;
pub mod view;
pub mod volume;
