//! Twofish (B. Schneier and others, 1998) with keys of 256 bits, as a `BlockCipher`.
//!
//! `Twofish256::new` makes from a key of 32 bytes the 40 words of the rounds and, for the function g,
//! a table of 256 words for each byte of a word. Under them a block of 16 bytes is enciphered or
//! deciphered in place, and a list of blocks in pairs: two blocks side by side take little longer than
//! one. A cipher under one key has 4,272 bytes.
//!
//! The tables are looked up by bytes that depend on the key and on the data, so the time that a block
//! takes can depend on both, if a table isn't in the processor's cache. No call here refuses or takes
//! memory. A word has 32 bits, and its lowest byte is its first.
#![tactic(auto)]

pub use cipher::Twofish256;

mod blocks;
mod cipher;
mod columns;
mod g;
mod h;
mod permutations;
mod rounds;
mod schedule;
mod words;
