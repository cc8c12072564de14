//! Secrets of a command line that are in files.
//!
//! An option such as `--password-file PATH` stands for `--password=CONTENT`, so that no secret is an argument.
//! This crate finds these options, says what a file's content is as a secret, and puts the secrets in. Between
//! the two calls the caller reads the files, in the order in which they are named:
//!
//! ```text
//! arguments --parts_of--> parts with paths    caller reads each path    parts, secrets --filled--> arguments
//! ```
//!
//! Nothing is known here of commands: an option that the command doesn't have, or that is there twice, is found
//! by whoever reads the arguments that come out. Lengths are in bytes.
#![tactic(auto)]

pub use arguments::{ArgumentsError, filled, parts_of, without_path};
pub use content::{READ_AT_MOST, digits_of, password_in};
pub use part::Part;
pub use secret::Secret;

pub mod arguments;
pub mod content;
pub mod part;
pub mod secret;
#[cfg(test)]
mod tests;
