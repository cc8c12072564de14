//! The parts of a header, lent out of its bytes, and a header of its parts.
//!
//! ```text
//! 0      64                    256              512
//! | salt | body: fields        | master keys    |
//! ```
//!
//! A lent part lives as long as the header's bytes, not as long as the view.
ghost use Rattle.std.specs.Prelude.{◌≡◌, ℕ, List, ◌++◌, length};
ghost use Rattle.vc_header.specs.Header.{enciphered_body, keys_field, salt_of};

use crate::fields::put;
use std::marker::Model;

/// The length of a header.
pub const HEADER: usize = 512;

/// The length of a header's salt, which begins it.
pub const SALT: usize = 64;

/// The length of a header's body, which is enciphered.
pub const BODY: usize = HEADER - SALT;

/// The length of the field at the end of a body that holds the master keys and zeros.
const KEYS: usize = 256;

/// A view of a header. Contracts see it as the header's bytes.
#[derive(Drop)]
pub struct HeaderView<'a> {
    bytes: &'a [u8; HEADER],
}

impl<'a> Model for HeaderView<'a> {
    ghost Value = { List ℕ };

    ghost view = { λ v. v.bytes.now };

    ghost invariant = { λ v. length v.bytes.now ≡ 512 };
}

impl<'a> HeaderView<'a> {
    /// A view of these bytes.
    pub fn new(bytes: &'a [u8; HEADER]) -> HeaderView<'a>
        ensures { result ≡ bytes.now }
    {
        HeaderView { bytes }
    }

    /// The salt.
    pub fn salt(&self) -> &'a [u8]
        ensures salt { result.now ≡ salt_of self.now }
        ensures length { length result.now ≡ 64 }
    {
        let bytes = self.bytes;
        &bytes[..SALT]
    }

    /// The body, which is enciphered.
    pub fn body(&self) -> &'a [u8]
        ensures body { result.now ≡ enciphered_body self.now }
        ensures length { length result.now ≡ 448 }
    {
        let bytes = self.bytes;
        &bytes[SALT..]
    }

    /// The part of the body for the master keys.
    pub fn keys(&self) -> &'a [u8]
        ensures keys { result.now ≡ keys_field self.now }
        ensures length { length result.now ≡ 256 }
    {
        let bytes = self.bytes;
        &bytes[HEADER - KEYS..]
    }
}

/// A header of a salt and an enciphered body.
pub fn header_of(salt: &[u8; SALT], body: &[u8; BODY]) -> [u8; HEADER]
    ensures { result ≡ salt.now ++ body.now }
{
    let mut header = [0u8; HEADER];
    put(&mut header, 0, salt);
    put(&mut header, SALT, body);
    header
}

#[cfg(test)]
mod tests {
    use super::*;

    // The view is gone when its salt is read.
    fn salt_lent_by(bytes: &[u8; HEADER]) -> &[u8] {
        let view = HeaderView::new(bytes);
        view.salt()
    }

    #[test]
    fn a_lent_part_outlives_its_view(rt: HostRuntime) {
        // by hand: byte i is i / 2
        let mut header = [0u8; HEADER];
        for i in 0..HEADER {
            header[i] = (i / 2) as u8;
        }
        let salt = salt_lent_by(&header);
        let (body, keys) = {
            let view = HeaderView::new(&header);
            (view.body(), view.keys())
        };
        assert_eq!(rt; salt.len(), 64);
        assert_eq!(rt; (salt[0], salt[63]), (0, 31));
        assert_eq!(rt; body.len(), 448);
        assert_eq!(rt; (body[0], body[447]), (32, 255));
        assert_eq!(rt; keys.len(), 256);
        assert_eq!(rt; (keys[0], keys[255]), (128, 255));
    }
}
