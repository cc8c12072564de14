//! The keys of a header, and its body under them.
ghost use Rattle.std.specs.Prelude.{◌≡◌, ◌≤◌, length};
ghost use Rattle.kdf_hmac.specs.Pbkdf2.{IsPim, derived};
ghost use Rattle.header_seal.specs.Sealed.{HeadersOpenAgain, OpensAgain, sealed, unsealed};

use algorithm_names::Algorithm;
use cascade_set::{Keyed, Keys};
use kdf_hmac::{Password, Prf, iterations, pbkdf2};
use vc_header::{BODY, Fields, MATERIAL, write_plain};

/// The keys that a password derives for the header with this salt of 64 bytes.
#[tactic(auto, unfolding(kdf_hmac::specs::Pbkdf2::derived))]
pub fn derive(prf: Prf, password: &Password, pim: u32, salt: &[u8]) -> [u8; 192]
    requires pim { IsPim pim }
    requires salt { length salt.now ≡ 64 }
    ensures { result ≡ derived prf password.now pim salt.now }
{
    let mut keys = [0u8; MATERIAL];
    pbkdf2(prf, password.bytes(), salt, iterations(pim), &mut keys);
    keys
}

/// The body that is written for fields, enciphered under derived keys.
pub fn seal(algorithm: Algorithm, derived: &[u8; 192], fields: &Fields) -> [u8; 448]
    ensures body { result ≡ sealed algorithm derived.now fields.now }
    ensures opens_again { OpensAgain algorithm derived.now fields.now }
{
    let mut body = write_plain(fields);
    let keyed = Keyed::new(&Keys {
        algorithm,
        material: *derived,
    });
    keyed.header(&mut body);
    body
}

/// A body deciphered under derived keys.
#[tactic(auto, unfolding(crate::specs::Sealed::unsealed))]
pub fn unseal(algorithm: Algorithm, derived: &[u8; 192], body: &[u8]) -> [u8; 448]
    requires { length body.now ≡ 448 }
    ensures { result ≡ unsealed algorithm derived.now body.now }
{
    let keyed = Keyed::new(&Keys {
        algorithm,
        material: *derived,
    });
    let mut plain = [0u8; BODY];
    plain.copy_from_slice(body);
    keyed.unheader(&mut plain);
    plain
}

/// A law: a header that is a salt and the body sealed under its keys opens to that body.
pub fn headers_open_again()
    ensures { HeadersOpenAgain }
{}

#[cfg(test)]
mod tests;
