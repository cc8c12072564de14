//! Single values, as options and positions write them.
ghost use Rattle.std.specs.Prelude.{◌≡◌, ◌<◌, ◌≤◌, IfSome, length, nat_lt, true};
ghost use Rattle.std.specs.Char.{digit_value, is_ascii_digit};
ghost use Rattle.std.specs.List.{list_all};
ghost use Rattle.kdf_hmac.specs.Pbkdf2.{IsPim};
ghost use Rattle.cmd_words.specs.Line.{bytes_in, choice_in, number_in, number_within, password_in};
ghost use Rattle.cmd_words.specs.Line.{pim_in, random_in, sector_in};
ghost use Rattle.vc_layout.specs.Layout.{IsSectorSize};

use crate::choice::Choice;
use kdf_hmac::{GREATEST_PIM, Password};

/// 1 to 20 decimal digits of a number below 2^64.
#[tactic(auto, unfolding(crate::specs::Line::number_in))]
pub(crate) fn number_in(text: &str) -> Option<u64>
    ensures { result ≡ number_in text.now }
{
    if text.is_empty() || text.len() > 20 || !is_digits(text.as_bytes()) {
        return None;
    }
    match text.parse::<u64>() {
        Ok(number) => Some(number),
        Err(_) => None,
    }
}

fn is_digits(text: &[u8]) -> bool
    ensures { result ≡ list_all is_ascii_digit text.now }
{
    text.iter().all(|b| b.is_ascii_digit())
}

/// A number from `least` to `most`.
pub(crate) fn number_within(least: u64, most: u64, text: &str) -> Option<u64>
    ensures value { result ≡ number_within least most text.now }
    ensures least { IfSome result (λ n. least ≤ n) }
    ensures most { IfSome result (λ n. n ≤ most) }
{
    let number = number_in(text)?;
    if number < least || number > most {
        return None;
    }
    Some(number)
}

/// A password of 1 to 128 bytes.
pub(crate) fn password_in(text: &str) -> Option<Password>
    ensures { result ≡ password_in text.now }
{
    Password::new(text.as_bytes())
}

/// A PIM; 0 is none.
pub(crate) fn pim_in(text: &str) -> Option<u32>
    ensures value { result ≡ pim_in text.now }
    ensures limit { IfSome result IsPim }
{
    small_within(0, GREATEST_PIM, text)
}

/// The size of a sector.
pub(crate) fn sector_in(text: &str) -> Option<u32>
    ensures value { result ≡ sector_in text.now }
    ensures sizes { IfSome result IsSectorSize }
{
    match number_in(text)? {
        512 => Some(512),
        1024 => Some(1024),
        2048 => Some(2048),
        4096 => Some(4096),
        _ => None,
    }
}

/// Which headers are tried.
pub(crate) fn choice_in(text: &str) -> Option<Choice>
    ensures { result ≡ choice_in text.now }
{
    match text {
        "any" => Some(Choice::Any),
        "standard" => Some(Choice::Standard),
        "hidden" => Some(Choice::Hidden),
        _ => None,
    }
}

/// A number from `least` to `most`, which is below 2^32.
pub(crate) fn small_within(least: u32, most: u32, text: &str) -> Option<u32>
    ensures value { result ≡ number_within least most text.now }
    ensures least { IfSome result (λ n. least ≤ n) }
    ensures most { IfSome result (λ n. n ≤ most) }
{
    let number = number_within(u64::from(least), u64::from(most), text)?;
    Some(number as u32)
}

/// The 32 bytes that 64 hexadecimal digits write.
pub(crate) fn random_in(text: &str) -> Option<[u8; 32]>
    ensures { result ≡ random_in text.now }
{
    let digits = text.as_bytes();
    if digits.len() != 64 || !is_hexadecimal(digits) {
        return None;
    }
    Some(bytes_in(digits))
}

fn is_hexadecimal(text: &[u8]) -> bool
    ensures { result ≡ list_all (λ c. nat_lt (digit_value c) 16) text.now }
{
    text.iter().all(|b| char::from(*b).is_digit(16))
}

// The bytes that hexadecimal digits write, two each.
fn bytes_in(digits: &[u8]) -> [u8; 32]
    requires long { length digits.now ≡ 64 }
    requires digits { list_all (λ c. nat_lt (digit_value c) 16) digits.now ≡ true }
    ensures { result ≡ bytes_in digits.now }
{
    let mut bytes = [0; 32];
    for i in 0..32 {
        bytes[i] = 16 * digit_of(digits[2 * i]) + digit_of(digits[2 * i + 1]);
    }
    bytes
}

// The value of a hexadecimal digit of either case.
fn digit_of(digit: u8) -> u8
    requires { digit_value digit < 16 }
    ensures { result ≡ digit_value digit }
{
    char::from(digit).to_digit(16).unwrap() as u8
}
