//! Where the headers and volumes of a container are.
//!
//! A container has a header group at each end and the volumes between them. This crate turns a
//! container's length into their places. A volume consists of sectors of 512 to 4096 bytes, which are
//! whole data units. It reads nothing and takes no memory. Lengths and offsets are in bytes.
//! `docs/FORMAT.md`, "Layout", has the picture.
//!
//! Source: VeraCrypt's documentation, "VeraCrypt Volume Format Specification".
#![tactic(auto)]

pub use geometry::{Geometry, LONGEST_FORMATTED, hidden_of, outer_of};
pub use kind::Kind;
pub use sector::{DATA_UNIT, SECTOR_SIZES, is_sector_size};
pub use slots::{GROUP, LONGEST, SHORTEST, Slot, is_container_length, slot_at};

pub mod geometry;
pub mod kind;
pub mod sector;
pub mod slots;
