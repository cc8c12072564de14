//! `decipher_all` beside `decipher_units`, with a cipher of its own.
ghost use Rattle.std.specs.Prelude.{◌≡◌, ◌%◌, ◌≤◌, reverse};
ghost use Rattle.sector_view.specs.Laws.Turned.{is_block_turned, turned_back};

use super::*;
use cipher_base::{BlockCipher, Xts};
use std::alloc::{AllocError, Global};

// A cipher that turns a block round. Under XTS a unit then depends on its number too.
#[derive(Clone, Copy)]
struct Turned;

impl BlockCipher for Turned {
    ghost enciphered = { λ _ b. reverse b };

    ghost deciphered = { λ _ b. reverse b };

    fn encipher(&self, block: &mut [u8; 16]) {
        block.reverse();
    }

    fn decipher(&self, block: &mut [u8; 16]) {
        block.reverse();
    }

    ghost enciphered_is_block = { λ _ b is. is_block_turned b is };

    ghost deciphered_is_block = { λ _ b is. is_block_turned b is };

    ghost deciphers = { λ _ b _. turned_back b };

    ghost enciphers = { λ _ b _. turned_back b };
}

// Deciphers so many bytes on one thread and by `decipher_all`, and compares.
fn compare<R: Threads + Sync>(rt: &R, alloc: Global, size: usize) -> Result<bool, AllocError>
    requires whole { size % 512 ≡ 0 }
    requires short { size ≤ 1048576 }
{
    let cipher = Xts::new(Turned, Turned);
    let mut alone = vec![in alloc; 0u8; size]?;
    for (i, byte) in alone.iter_mut().enumerate() {
        *byte = (i / 3 % 251) as u8;
    }
    let mut together = alone.clone()?;
    cipher.decipher_units(7, alone.as_mut_slice());
    decipher_all(rt, &cipher, 7, together.as_mut_slice());
    Ok(alone.as_slice() == together.as_slice())
}

#[test]
fn halves_are_deciphered_as_the_whole(rt: HostRuntime) -> Result<(), AllocError> {
    assert!(rt; compare(&rt, rt.alloc(), 0)?, "nothing");
    assert!(rt; compare(&rt, rt.alloc(), 512)?, "one unit, on this thread");
    assert!(rt; compare(&rt, rt.alloc(), 262_144)?, "two halves of 128 KiB");
    assert!(rt;
        compare(&rt, rt.alloc(), 262_656)?,
        "halves that aren't equal"
    );
    assert!(rt; compare(&rt, rt.alloc(), 1_048_576)?, "eight parts");
    Ok(())
}
