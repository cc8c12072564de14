//! The names of the algorithms that encipher a volume.
//!
//! An algorithm is a cascade of one to three ciphers. It has a number, which is its place in the order
//! in which opening tries the algorithms, and a name, which lists its ciphers with the last one of
//! enciphering first. This crate knows no cipher: `cascade_set` enciphers. So a command line can name
//! an algorithm without standing on the ciphers.
//!
//! Source: VeraCrypt's documentation, "Encryption Algorithms" and "Cascades of Ciphers".
#![tactic(auto)]

pub use algorithm::{Algorithm, Cipher};

pub mod algorithm;
