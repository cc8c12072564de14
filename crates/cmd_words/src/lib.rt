//! The arguments of a command line.
//!
//! `read_words` reads the arguments after the program's name and returns their command, with the
//! defaults filled in. What a command line is, is defined once for all commands in
//! `specs/Line.antt`: a table says what each command may have. `clap` reads the arguments, and the
//! proof shows that it accepts exactly these lines. `docs/vcserve.1.md` is the page for users.
//!
//! The first argument names the command, and `form` says what that may have. `parse` builds the
//! `clap` command and reads the other arguments, `given` and `values` read single values of what it
//! found, and `make` makes the command. `reason` says of arguments that are refused why, to a person.
#![tactic(auto)]

pub use command::Command;
pub use error::WordsError;
pub use reason::{Fault, Reason, reason_of};
pub use words::read_words;

pub mod choice;
pub mod command;
pub mod error;
mod form;
mod given;
mod make;
mod parse;
mod plain;
pub mod reason;
#[cfg(test)]
mod tests;
mod values;
pub mod words;
