//! AES-256 (FIPS 197), as a `BlockCipher`.
//!
//! `Aes256::new` makes the 15 round keys of a key of 32 bytes. Under them blocks of 16 bytes are
//! enciphered or deciphered in place, eight at a time: their bits are put into eight planes, and a round
//! is a circuit of gates on whole planes and moves of their lanes. A few blocks take as long as eight.
//! The key schedule takes the S-box from the same circuit, so no index and no branch depends on a key or
//! on data. No call here refuses or takes memory.
//!
//! A state is 16 bytes: byte r + 4c stands in row r and column c.
#![tactic(auto)]

pub use cipher::Aes256;

mod cipher;
mod columns;
mod inverse_sbox;
mod keys;
mod planes;
mod rounds;
mod rows;
mod sbox;
mod schedule;
