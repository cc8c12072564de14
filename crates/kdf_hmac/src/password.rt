//! A user's password.
ghost use Rattle.std.specs.Prelude.{◌≡◌, ◌<◌, ◌≤◌, ◌⊎◌, ◌↔◌, List, ℕ, length, take, IsNone, IfSome};

use std::marker::Model;

/// The longest password, in bytes.
const MAX_LENGTH: usize = 128;

/// A password of 1 to 128 bytes, of any values. Contracts see the list of its bytes.
#[derive(Drop)]
pub struct Password {
    buffer: [u8; 128],
    len: usize,
}

impl Model for Password {
    ghost Value = { List ℕ };

    ghost view = { λ p. take p.len p.buffer };

    ghost invariant = { λ p. (1 ≤ p.len) × (p.len ≤ 128) };
}

impl Password {
    /// A password with these bytes, of which there have to be 1 to 128.
    pub fn new(bytes: &[u8]) -> Option<Password>
        ensures refused { IsNone result ↔ ((length bytes.now ≡ 0) ⊎ (128 < length bytes.now)) }
        ensures bytes { IfSome result (λ p. p ≡ bytes.now) }
    {
        if bytes.is_empty() || bytes.len() > MAX_LENGTH {
            return None;
        }
        let mut buffer = [0; 128];
        buffer[..bytes.len()].copy_from_slice(bytes);
        Some(Password {
            buffer,
            len: bytes.len(),
        })
    }

    /// Its bytes.
    pub fn bytes(&self) -> &[u8]
        ensures bytes { result.now ≡ self.now }
        ensures not_empty { 1 ≤ length self.now }
        ensures short { length self.now ≤ 128 }
    {
        &self.buffer[..self.len]
    }

    // A second password with these bytes.
    pub(crate) fn copied(&self) -> Password
        ensures { result ≡ self.now }
    {
        Password {
            buffer: self.buffer,
            len: self.len,
        }
    }
}
