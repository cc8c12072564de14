//! The round keys as bit planes.
ghost use Rattle.std.specs.Prelude.{◌≡◌, ◌<◌, ℕ};
ghost use Rattle.vc_base.specs.Bytes.{IsBytes, piece};
ghost use Rattle.aes_core.specs.Aes.{schedule, add_round_key};
ghost use Rattle.aes_core.specs.Laws.Planes.{ArePlanes, InEachBlock, AreKeyPlanes};

use crate::planes::{added, gather, scatter, transposed, turn};
use crate::schedule::expand;
use std::simd::u8x16;

/// The round keys of one key.
#[derive(Clone, Copy)]
pub struct RoundKeys {
    // Round key r is bytes 16r to 16r + 15.
    pub schedule: [u8; 240],
    // Bytes 128r to 128r + 127 are the planes of eight blocks that are round key r.
    pub planes: [u8; 1920],
    ghost bytes: { IsBytes 240 schedule },
    ghost spread: { AreKeyPlanes 15 schedule planes },
}

impl RoundKeys {
    /// The round keys of a key.
    pub fn new(key: &[u8; 32]) -> RoundKeys
        ensures { result.schedule ≡ schedule key.now 52 }
    {
        let schedule = expand(key);
        let planes = spread(&schedule);
        RoundKeys { schedule, planes }
    }
}

// The planes of each round key.
fn spread(schedule: &[u8; 240]) -> [u8; 1920]
    ensures { AreKeyPlanes 15 schedule.now result }
{
    let (keys, _) = schedule.as_chunks::<16>();
    let mut planes = [0; 1920];
    for r in 0..15 {
        let key = turn(u8x16::from_array(keys[r]));
        scatter(transposed([key; 8]), &mut planes[128 * r..128 * r + 128]);
    }
    planes
}

/// AddRoundKey (FIPS 197, 5.1.4) on eight blocks.
#[inline(always)]
pub fn with_round_key(keys: &RoundKeys, round: usize, x: [u8x16; 8]) -> [u8x16; 8]
    requires round { round < 15 }
    requires planes { ArePlanes x }
    ensures { InEachBlock (add_round_key keys.now.schedule round) x result }
{
    let (groups, _) = keys.planes.as_chunks::<128>();
    added(x, gather(&groups[round]))
}
