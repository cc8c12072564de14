//! Volumes over stores in memory.
ghost use Rattle.std.specs.Prelude.{◌≡◌, ◌<◌, ◌≤◌, ◌^◌, reverse, true};
ghost use Rattle.frag_pool.specs.Bench.{is_empty};
ghost use Rattle.hist_lock.specs.Known.{view};
ghost use Rattle.sector_view.specs.Laws.Turned.{is_block_turned, turned_back};
ghost use Rattle.io_queue.specs.Pass.{IsPass, NothingOpen};

mod helpers;
mod histories;
mod orders;
mod requests;
mod threads;

use crate::{IoError, Volume};
use cipher_base::{BlockCipher, UnitCipher, Xts};
use frag_pool::{Bench, Pool};
use hist_lock::Pass;
use io_core::Core;
use std::alloc::Global;
use std::process::Abort;
use std::sync::Wait;
use std::test::Fail;
use std::thread::Threads;
use vc_layout::Geometry;
use vc_outside::{Gate, NoGate, Store, SureStore};

// A cipher that turns a block round. Under XTS a unit then depends on its number too.
#[derive(Clone, Copy)]
struct Turned;

impl BlockCipher for Turned {
    ghost enciphered = { λ _ b. reverse b };

    ghost deciphered = { λ _ b. reverse b };

    fn encipher(&self, block: &mut [u8; 16]) {
        block.reverse();
    }

    fn decipher(&self, block: &mut [u8; 16]) {
        block.reverse();
    }

    ghost enciphered_is_block = { λ _ b is. is_block_turned b is };

    ghost deciphered_is_block = { λ _ b is. is_block_turned b is };

    ghost deciphers = { λ _ b _. turned_back b };

    ghost enciphers = { λ _ b _. turned_back b };
}

// Four sectors of one data unit each, from byte 512 on.
const SMALL: Geometry = Geometry {
    start: 512,
    sectors: 4,
    sector: 512,
};

// Writes this byte to `count` sectors from `first` on.
fn put<S: Store, C: UnitCipher, R: Threads + Wait + Sync, G: Gate>(
    rt: &R,
    alloc: Global,
    volume: &Volume<S, C>,
    pass: &mut Pass<Core<S, C>>,
    bench: &mut Bench,
    gate: &G,
    first: u64,
    count: usize,
    byte: u8,
) -> Result<(), IoError>
    requires pass { IsPass volume.now.lock.table.shared.table_id volume.now.geometry volume.now.cipher pass.old.seat }
    requires open { NothingOpen (view pass.old.seat) }
    requires empty { is_empty bench.old ≡ true }
    requires sector { volume.now.geometry.sector ≡ 512 }
    requires some { 0 < count }
    requires few { count ≤ 4096 }
    requires within { first < 2 ^ 55 }
    ensures pass { IsPass volume.now.lock.table.shared.table_id volume.now.geometry volume.now.cipher pass.new.seat }
    ensures open { NothingOpen (view pass.new.seat) }
    ensures empty { is_empty bench.new ≡ true }
{
    let Ok(bytes) = vec![in alloc; byte; 512 * count] else {
        return Err(IoError::NoMemory);
    };
    volume.write(rt, alloc, pass, bench, gate, first, bytes)
}

#[test]
fn a_volume_is_closed_once_all_passes_are_joined(rt: HostRuntime) -> Result<(), Fail> {
    let zeros = vec![in rt.alloc(); 0u8; 4096].map_err(|_| "no memory")?;
    let cipher = Xts::new(Turned, Turned);
    let Ok((volume, mut first)) = Volume::open(
        rt.alloc(),
        SureStore::new(zeros),
        SMALL,
        cipher,
        None,
        1,
    ) else {
        return Err("no memory".into());
    };
    let second = volume.split(&rt, &mut first);
    let Err((volume, mut first)) = volume.close(first) else {
        return Err("another pass is out".into());
    };
    volume.join(&mut first, second);
    let Ok((disk, _first)) = volume.close(first) else {
        return Err("no other pass is out".into());
    };
    assert_eq!(rt; disk.bytes().len(), 4096);
    Ok(())
}

// The volume's sector 3 is the container's unit 4. Each result is by hand.
#[test]
fn a_denied_write_freezes_a_volume(rt: HostRuntime) -> Result<(), Fail> {
    let zeros = vec![in rt.alloc(); 0u8; 4096].map_err(|_| "no memory")?;
    let cipher = Xts::new(Turned, Turned);
    let Ok((volume, mut pass)) = Volume::open(
        rt.alloc(),
        SureStore::new(zeros),
        SMALL,
        cipher,
        Some((4, 1)),
        1,
    ) else {
        return Err("no memory".into());
    };
    let (mut benches, _) = Pool::new(rt.alloc(), 1, 0)?;
    let Some(mut bench) = benches.pop() else {
        return Err("no bench".into());
    };
    let cases = [
        ("beside the protected sector", 0u64, 3usize, 1u8, Ok(())),
        ("past the end", 3, 2, 2, Err(IoError::Range)),
        ("the protected sector", 2, 2, 3, Err(IoError::Denied)),
        ("after that", 0, 1, 4, Err(IoError::Frozen)),
        ("the protected sector again", 3, 1, 5, Err(IoError::Frozen)),
        ("past the end, after that", 4, 1, 6, Err(IoError::Range)),
    ];
    for (case, first, count, byte, want) in cases {
        let result = put(
            &rt,
            rt.alloc(),
            &volume,
            &mut pass,
            &mut bench,
            &NoGate,
            first,
            count,
            byte,
        );
        assert_eq!(rt; result, want, "{case}");
    }
    Ok(())
}
