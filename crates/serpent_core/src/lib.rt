//! Serpent with 256-bit keys, as a `BlockCipher`.
//!
//! `Serpent256::new` makes the 33 round keys of a key of 32 bytes. Under them blocks of 16 bytes are
//! enciphered or deciphered in place, eight side by side as far as they go: the rounds are those of
//! `lane_kernels`. No table is looked up. No call here refuses or takes memory.
//!
//! Source: Anderson, Biham and Knudsen, "Serpent: A Proposal for the Advanced Encryption Standard".
#![tactic(auto)]

pub use cipher::Serpent256;

mod cipher;
mod schedule;
