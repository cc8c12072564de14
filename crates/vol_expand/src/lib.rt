//! A container that grows in place, and keeps its data at each moment.
//!
//! `expand` gives a container a new length and its standard volume all the bytes up to the new backup headers. The new
//! end is filled with the random stream, as formatting fills a container. No sector of the old volume is written.
//! A hidden volume's header stays, but its backup is lost, and nothing looks for one.
//!
//! ```text
//!                  length, fill, backup     sync      standard header     sync
//! standard header  old .....................| old ........ torn ..........| new
//! backup           old, torn, none .........| new ..............................
//!                  the old header opens     | the new backup opens
//! ```
//!
//! The new backup is made lasting before the standard header is touched. So at each moment, in the middle of a write
//! too, a crash leaves a header that opens, to a volume that begins with the old volume's bytes. Its array of deciphered
//! sectors begins with the old array.
//! Sizes and places are in bytes. The call takes no memory itself; a store over memory may, for its length.
//! `docs/FORMAT.md`, "Expanding", has the picture.
#![tactic(auto)]

pub use expand_error::ExpandError;
pub use growth::expand;

mod end;
pub mod expand_error;
mod fill;
pub mod growth;
#[cfg(test)]
mod tests;
