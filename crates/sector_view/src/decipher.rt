//! Deciphering in place, by several threads.
ghost use Rattle.std.specs.Prelude.{◌≡◌, ◌+◌, ◌/◌, ◌%◌, ◌^◌, ◌<◌, ◌≤◌, length};
ghost use Rattle.std.specs.Thread.{IsSync};
ghost use Rattle.vc_base.specs.Bytes.{in_pieces};

use cipher_base::UnitCipher;
use std::thread::{Threads, join_mut};

// A thread is started for no fewer bytes, since a start costs as much as some tens of KiB.
const SMALLEST: usize = 128 * 1024;

// How often a buffer is halved at most, so that at most 2^4 threads work on it.
const HALVINGS: u32 = 4;

/// Deciphers whole units in place, of which the first has the number `unit`. It starts threads for
/// parts of 128 KiB and more, up to 16 with its own, and returns when all are done.
pub fn decipher_all<R: Threads + Sync, C: UnitCipher + Sync>(
    rt: &R,
    cipher: &C,
    unit: u64,
    buffer: &mut [u8],
)
    requires whole { length buffer.old % 512 ≡ 0 }
    requires within { unit + length buffer.old / 512 ≤ 2 ^ 55 }
    ensures { buffer.new ≡ in_pieces 512 (λ i u. C.deciphered cipher.now (unit + i) u) buffer.old }
{
    decipher_halves(rt, cipher, HALVINGS, unit, buffer);
}

// The same, with a buffer that is halved up to `halvings` times.
fn decipher_halves<R: Threads + Sync, C: UnitCipher + Sync>(
    rt: &R,
    cipher: &C,
    halvings: u32,
    unit: u64,
    buffer: &mut [u8],
)
    requires whole { length buffer.old % 512 ≡ 0 }
    requires within { unit + length buffer.old / 512 ≤ 2 ^ 55 }
    ensures { buffer.new ≡ in_pieces 512 (λ i u. C.deciphered cipher.now (unit + i) u) buffer.old }
{
    if halvings == 0 || buffer.len() < 2 * SMALLEST {
        cipher.decipher_units(unit, buffer);
        return;
    }
    let halvings = halvings - 1;
    let units = buffer.len() / 1024;
    let middle = unit + units as u64;
    let (front, back) = buffer.split_at_mut(512 * units);
    join_mut(
        rt,
        &mut ||
            requires sync { IsSync R.row × IsSync C.row }
            requires whole { length front.now % 512 ≡ 0 }
            requires within { unit + length front.now / 512 ≤ 2 ^ 55 }
            ensures { front.exit.now ≡ in_pieces 512
                (λ i u. C.deciphered cipher.entry.now (unit + i) u) front.entry.now }
        { decipher_halves(rt, cipher, halvings, unit, front) },
        &mut ||
            requires sync { IsSync R.row × IsSync C.row }
            requires whole { length back.now % 512 ≡ 0 }
            requires within { middle + length back.now / 512 ≤ 2 ^ 55 }
            ensures { back.exit.now ≡ in_pieces 512
                (λ i u. C.deciphered cipher.entry.now (middle + i) u) back.entry.now }
        { decipher_halves(rt, cipher, halvings, middle, back) },
    );
}

#[cfg(test)]
mod tests;
