//! Opening: which header a password makes valid.
//!
//! A candidate is a slot with a PRF and an algorithm. Opening tries the candidates of a kind in their
//! order and gives the first valid one. A slot is read only if no slot before it has a valid candidate. It is
//! read once, and each PRF is derived once for it, never once for each algorithm. Opening takes no memory,
//! changes no byte of the container, and lets a crash leave nothing more than before.
//!
//! `docs/FORMAT.md`, "Opening", has the order of the candidates.
#![tactic(auto)]

pub use header_seal::Opened;
pub use open::{open_plain, slots};
pub use open_error::OpenError;
pub use slot::try_slot;
pub use vc_layout::Kind;

pub mod open;
pub mod open_error;
pub mod slot;
#[cfg(test)]
mod tests;
