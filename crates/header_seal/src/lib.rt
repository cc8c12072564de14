//! A header under a password: the one place where a header's body is enciphered and deciphered.
//!
//! A PRF derives 192 bytes from password, PIM and the header's salt. They are the keys of the algorithm
//! that enciphers the body, as one stretch under data unit 0:
//!
//! ```text
//! password, PIM, salt --derive--> 192 bytes --+--seal----> 448 bytes, enciphered
//! fields ------------ write_plain ------------+
//!
//! 448 bytes, enciphered --unseal--> body --read_plain--> fields, if the body is valid
//! ```
//!
//! All this is the same for each slot, PRF and algorithm. `seal` promises that what it sealed opens again,
//! and `headers_open_again` says the same of a whole header. The definitions of candidates, and of the first
//! valid one, are in specs/ for the crates that open, format and change headers. Nothing here takes memory.
//! `docs/FORMAT.md`, "Opening", has the order of the candidates.
//!
//! Source: VeraCrypt's documentation, "Header Key Derivation, Salt, and Iteration Count".
#![tactic(auto)]

pub use body::{derive, headers_open_again, seal, unseal};
pub use opened::Opened;

pub mod body;
pub mod opened;
