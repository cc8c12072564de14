//! Block ciphers and data units: the two fields, the two traits, and XTS.
//!
//! A block cipher enciphers blocks of 16 bytes under its own key. XTS turns a block cipher under two keys
//! into a cipher of data units of 512 bytes, each under its number. `BlockCipher` and `UnitCipher`
//! are what the layers above know of them: what a block or a unit becomes, in both directions, and that
//! each direction undoes the other. The ciphers themselves are in other crates. No call here
//! returns an error or allocates.
//!
//! Sources: FIPS 197 for GF(2^8), IEEE 1619 for GF(2^128) and XTS.
#![tactic(auto)]

pub use block::BlockCipher;
pub use field::{double, gf8_mul};
pub use unit::UnitCipher;
pub use xts::Xts;

pub mod block;
pub mod field;
pub mod unit;
pub mod xts;
