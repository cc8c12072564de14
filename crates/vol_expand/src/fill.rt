//! The fill: the random stream from a place of the container up to its end.
ghost use Rattle.std.specs.Prelude.{◌≡◌, ◌≤◌, ℕ, ◌+◌, ◌-◌, ◌%◌, take, drop, length, OnOk, IsErr};
ghost use Rattle.vc_base.specs.Faults.{HasCause};
ghost use Rattle.vc_outside.specs.Crash.{Outcomes};
ghost use Rattle.vc_outside.specs.Told.{Both, SameOutside, written};
ghost use Rattle.volume_format.specs.Stream.{advanced, stream_bytes};
ghost use Rattle.header_change.specs.Moments.{AtEachMoment};
ghost use Rattle.vol_expand.specs.Expanded.{fill_bytes, words_of};
ghost use Rattle.vol_expand.specs.Stops.{Grows, PartsStay};

use rand_chacha::ChaCha20Rng;
use vc_header::SALT;
use vc_outside::{Failed, Store};
use volume_format::{bytes_at, next_bytes};

/// The bytes of a word of the stream.
const WORD: usize = 4;

/// The length of the buffer, and of each write except the last, in bytes.
const PART: usize = 32_768;

/// The salt that a fill of n bytes from here on has at its byte `at`. The generator keeps its place.
pub(crate) fn salt_in_fill(rng: &mut ChaCha20Rng, at: u64) -> [u8; SALT]
    ensures salt { (n : ℕ) → at + 68 ≤ n → result ≡ take 64 (drop at (fill_bytes rng.old n)) }
    ensures rng { rng.new ≡ rng.old }
{
    let mut words = [0u8; SALT + WORD];
    bytes_at(rng, at, &mut words);
    let skip = (at % WORD as u64) as usize;
    let mut salt = [0u8; SALT];
    salt.copy_from_slice(&words[skip..skip + SALT]);
    salt
}

/// Writes the next bytes of the stream from byte `from` up to byte `size`, which is the container's length.
pub(crate) fn fill<D: Store>(
    disk: &mut D,
    rng: &mut ChaCha20Rng,
    from: u64,
    size: u64,
) -> Result<(), Failed>
    requires size { D.size disk.old ≡ size }
    requires from { from ≤ size }
    ensures filled { OnOk result (Both (D.image disk.old) (D.image disk.new) (λ b c.
        c ≡ written from (fill_bytes rng.old (size - from)) b)) }
    ensures drawn { OnOk result (rng.new ≡ advanced rng.old (words_of (size - from))) }
    ensures outside { Both (D.image disk.old) (D.image disk.new) (PartsStay 0 from) }
    ensures crash { AtEachMoment D.tells (D.moment disk.old) (D.moment disk.new) (D.left_since disk.old)
        (D.left_since disk.new) (D.may_leave disk.old) (D.may_leave disk.new) (Grows from size) }
    ensures size { D.size disk.new ≡ D.size disk.old }
    ensures cause { HasCause (D.faults disk.old) (D.faults disk.new) (IsErr result) }
{
    let mut buffer = [0u8; PART];
    let _place = rng.get_word_pos();
    let mut at = from;
    'parts: while size - at >= PART as u64 {
        fill_part(disk, rng, at, &mut buffer, PART)?;
        at += PART as u64;
    }
    if at == size {
        return Ok(());
    }
    let rest = (size - at) as usize;
    fill_part(
        disk,
        rng,
        at,
        &mut buffer[..rest.div_ceil(WORD) * WORD],
        rest,
    )
}

// Fills the bytes with the next ones of the stream, and writes the first `count` of them at a place.
fn fill_part<D: Store>(
    disk: &mut D,
    rng: &mut ChaCha20Rng,
    at: u64,
    bytes: &mut [u8],
    count: usize,
) -> Result<(), Failed>
    requires whole { length bytes.old % 4 ≡ 0 }
    requires count { count ≤ length bytes.old }
    requires within { at + count ≤ D.size disk.old }
    ensures written { OnOk result (Both (D.image disk.old) (D.image disk.new)
        (λ b c. c ≡ written at (take count (stream_bytes rng.old 0 (length bytes.old))) b)) }
    ensures outside { Both (D.image disk.old) (D.image disk.new) (SameOutside at count) }
    ensures crash { Outcomes D.tells (D.moment disk.old) (D.moment disk.new) (D.left_since disk.old)
        (D.left_since disk.new) (D.may_leave disk.old) (D.may_leave disk.new) (SameOutside at count) }
    ensures drawn { rng.new ≡ advanced rng.old (length bytes.old) }
    ensures size { D.size disk.new ≡ D.size disk.old }
    ensures cause { HasCause (D.faults disk.old) (D.faults disk.new) (IsErr result) }
{
    next_bytes(rng, bytes);
    disk.write_at(at, &bytes[..count])
}
