//! Formatting: a new volume is a stated function of what is asked and of a random stream.
//!
//! `format_outer` fills a container with the random stream, in one pass, and writes the standard
//! header and its backup. `format_hidden` writes the hidden header and its backup into a container,
//! and changes no other byte. Sizes and places are in bytes. Neither takes memory itself.
//! `docs/FORMAT.md`, "Formatting", has the order in which the stream is used.
//!
//! Source: VeraCrypt's documentation, "VeraCrypt Volume Format Specification"; the fill, and the
//! order in which salts and keys are drawn, are this project's own.
#![tactic(auto)]

pub use draw::{bytes_at, next_bytes, next_salt};
pub use format_error::FormatError;
pub use hidden::{HiddenSpec, format_hidden};
pub use outer::{FormatSpec, format_outer};

pub mod draw;
mod fill;
pub mod format_error;
mod header;
pub mod hidden;
pub mod outer;
#[cfg(test)]
mod tests;
