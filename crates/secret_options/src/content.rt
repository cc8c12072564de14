//! What the content of a file is as a secret.
ghost use Rattle.std.specs.Prelude.{◌≡◌, ◌≤◌, IfOk, IfSome, IsNone, length, string_bytes};
ghost use Rattle.hex.specs.Hex.{encode_lower};
ghost use Rattle.secret_options.specs.Content.{IsPasswordText, without_line_end};

use std::alloc::{AllocError, Global};

/// How much of a password's file has to be read: a password that is one byte too long, and a line end. What
/// comes after so many bytes changes nothing: they are refused.
pub const READ_AT_MOST: usize = 131;

/// The password of a file with this content: the content without one line end, LF or CR LF, at its end.
pub fn password_in(content: &[u8]) -> Option<&str>
    ensures password { IfSome result (λ s. s.now ≡ without_line_end content.now) }
    ensures accepted { IfSome result (λ s. IsPasswordText s.now) }
    ensures refused { IsNone result → ¬ IsPasswordText (without_line_end content.now) }
    ensures whole { READ_AT_MOST ≤ length content.now → IsNone result }
{
    let bytes = without_line_end(content);
    if bytes.is_empty() || bytes.len() > 128 {
        return None;
    }
    match std::str::from_utf8(bytes) {
        Ok(text) => Some(text),
        Err(_) => None,
    }
}

fn without_line_end(content: &[u8]) -> &[u8]
    ensures { result.now ≡ without_line_end content.now }
{
    match content.strip_suffix(b"\r\n") {
        Some(bytes) => bytes,
        None => content.strip_suffix(b"\n").unwrap_or(content),
    }
}

/// The 64 hexadecimal digits of a random key.
pub fn digits_of(alloc: Global, key: &[u8; 32]) -> Result<String, AllocError>
    ensures { IfOk result (λ s. string_bytes s ≡ encode_lower key.now) }
{
    hex::encode(alloc, key.as_slice())
}
