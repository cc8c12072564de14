//! The fill: the random stream over the whole container, in one pass.
ghost use Rattle.std.specs.Prelude.{◌≡◌, ◌≤◌, ◌+◌, ◌%◌, length, OnOk, IsErr};
ghost use Rattle.vc_base.specs.Faults.{HasCause};
ghost use Rattle.vc_outside.specs.Told.{Both, written};
ghost use Rattle.volume_format.specs.Stream.{advanced, stream_bytes};

use crate::draw::next_bytes;
use rand_chacha::ChaCha20Rng;
use vc_outside::{Failed, Store};

/// The length of the buffer, in bytes.
const BUFFER: usize = 65_536;

/// Fills a container of `size` bytes with the next bytes of the stream.
pub(crate) fn fill<D: Store>(disk: &mut D, rng: &mut ChaCha20Rng, size: u64) -> Result<(), Failed>
    requires size { D.size disk.old ≡ size }
    requires whole { size % 512 ≡ 0 }
    ensures filled { OnOk result (Both (D.image disk.old) (D.image disk.new) (λ _ b.
        b ≡ stream_bytes rng.old 0 size)) }
    ensures drawn { OnOk result (rng.new ≡ advanced rng.old size) }
    ensures size { D.size disk.new ≡ D.size disk.old }
    ensures cause { HasCause (D.faults disk.old) (D.faults disk.new) (IsErr result) }
{
    let mut buffer = [0u8; BUFFER];
    let _place = rng.get_word_pos();
    let mut at = 0;
    'parts: while at < size {
        let part = (size - at).min(BUFFER as u64);
        let Ok(()) = fill_part(disk, rng, at, &mut buffer[..part as usize]) else {
            return Err(Failed);
        };
        at += part;
    }
    Ok(())
}

// Writes the next bytes of the stream at a place.
fn fill_part<D: Store>(
    disk: &mut D,
    rng: &mut ChaCha20Rng,
    at: u64,
    bytes: &mut [u8],
) -> Result<(), Failed>
    requires whole { length bytes.old % 4 ≡ 0 }
    requires within { at + length bytes.old ≤ D.size disk.old }
    ensures written { OnOk result (Both (D.image disk.old) (D.image disk.new)
        (λ b c. c ≡ written at (stream_bytes rng.old 0 (length bytes.old)) b)) }
    ensures drawn { rng.new ≡ advanced rng.old (length bytes.old) }
    ensures size { D.size disk.new ≡ D.size disk.old }
    ensures cause { HasCause (D.faults disk.old) (D.faults disk.new) (IsErr result) }
{
    next_bytes(rng, bytes);
    disk.write_at(at, bytes)
}
