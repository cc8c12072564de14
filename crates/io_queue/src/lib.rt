//! A volume that several threads read and write at once.
//!
//! A `Volume` is a core behind a history lock. `open` gives it with the first pass, `split` makes a pass for
//! another thread, and each thread reads, writes and flushes by its own pass. `close` gives the store back once
//! all passes are joined into one.
//!
//! ```text
//!   read    range | fetch: one turn, asked again while a write overlaps it | decipher in the buffer
//!   write   range | take all memory | admit: one turn, asked again while a write overlaps it or too many
//!           are pending | each fragment: encipher, then deposit in one turn | end: one turn, asked
//!           again while helpers have fragments
//!   flush   one turn
//! ```
//!
//! The range is checked before anything else. Ciphers run outside the turns. A thread that has to ask again
//! sleeps until a write has ended. The fragments of a write are jobs on its client's bench (`frag_pool`), if there
//! are several and its pool has helpers: `help_one` takes one from any bench, and `news`, `wait_for_news` and
//! `tell_news` let helpers sleep. In proofs each call adds its entries, and nothing else, to the one history
//! of the volume, under the number of its pass; `specs/Calls.antt` lists them by the call's result.
//! Requests are in sectors of the volume. Only `open` and `write` take memory, `write` all of it before the
//! write is admitted: an admitted write returns Ok or Fault.
#![tactic(auto)]

mod acts;
mod admit;
mod beyond;
mod close;
mod deposit;
mod end;
mod error;
mod fetch;
mod flush;
mod help;
mod news;
mod open;
mod points;
mod read;
mod signal;
mod split;
#[cfg(test)]
mod tests;
mod turn;
mod volume;
mod work;
mod write;
mod write_acts;

pub use error::IoError;
pub use volume::Volume;
