//! Keys from passwords: HMAC and PBKDF2, over SHA-512 and SHA-256.
//!
//! `hmac` is RFC 2104, `pbkdf2` is RFC 8018, section 5.2, with it, and the hashes are those of `sha2`
//! (FIPS 180-4). `Prf` names the hash. A `Password` has the length that a user's password may have, and
//! `iterations` is the count that the PIM sets. `Derive` gives the same keys as `pbkdf2`, step by step: its
//! caller can stop, look and go on. Nothing here allocates.
//!
//! PBKDF2 computes many thousand MACs under one key. So a key is absorbed once, into two hashers that have
//! absorbed its inner and its outer pad (`keyed.rt`), and a step continues copies of them. Both calls take
//! their steps in `block.rt`.
//!
//! Lengths are in bytes.
#![tactic(auto)]

pub use derive_steps::Derive;
pub use keyed::hmac;
pub use password::Password;
pub use pbkdf2_keys::{GREATEST_PIM, iterations, pbkdf2};
pub use prf::Prf;

mod block;
mod derive_steps;
mod keyed;
mod password;
mod pbkdf2_keys;
mod prf;
#[cfg(test)]
mod tests;
