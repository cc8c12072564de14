//! What an argument is.
use crate::secret::Secret;

/// An argument, or a secret with the path of the file that holds it.
#[derive(Drop)]
pub enum Part {
    Plain(String),
    Held(Secret, String),
}
