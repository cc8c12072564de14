//! Kernels that treat many blocks at once.
//!
//! `serpent_blocks` and `serpent_unblocks` encipher and decipher whole blocks under the round keys of
//! Serpent. A state is four words of 32 bits: the bits of one place in the four words are a nibble,
//! and a formula of bitwise operations passes all 32 nibbles through a box at once. Groups of eight
//! blocks go side by side, in vectors with one lane for each block; the blocks that are left go one
//! by one. `tweak_run` and `xor_into` are what XTS does around a cipher's call.
//!
//! The key schedule is left to `serpent_core`. No call here refuses or takes memory, and no table is
//! looked up.
//!
//! Sources: Anderson, Biham and Knudsen, "Serpent: A Proposal for the Advanced Encryption Standard";
//! IEEE 1619 for the tweaks.
#![tactic(auto)]

pub use serpent::{SerpentKeys, serpent_blocks, serpent_box, serpent_unblocks};
pub use tweaks::{tweak_run, xor_into};

mod formulas;
mod gather;
mod lane_rounds;
mod lane_steps;
mod rounds;
pub mod serpent;
mod steps;
pub mod tweaks;
mod words;
