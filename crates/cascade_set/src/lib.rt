//! The algorithms at work: how key material is cut, and data units under them. `algorithm_names` has
//! their names.
//!
//! An algorithm is a cascade of one to three ciphers, each a whole XTS pass with keys of its own. No call
//! refuses or takes memory. `docs/FORMAT.md`, "Keys", has the picture of the key material.
//!
//! Source: VeraCrypt's documentation, "Encryption Algorithms" and "Cascades of Ciphers".
#![tactic(auto)]

pub use algorithm_names::{Algorithm, Cipher};
pub use keyed::Keyed;
pub use keys::{Keys, later_material_is_unused};

pub mod keyed;
pub mod keys;
mod layer;
mod stretch;
#[cfg(test)]
mod tests;
