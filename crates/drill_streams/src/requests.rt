//! The requests of a drill, one by one, from the words of the random stream.
ghost use Rattle.std.specs.Prelude.{◌≡◌, ◌<◌};
ghost use Rattle.drill_streams.specs.Drill.{request_of, word};

use nbd_wire::Request;
use rand_chacha::ChaCha20Rng;
use rand_core::SeedableRng;
use rand_core::utils::NextWord;

/// The requests of a client.
pub(crate) const REQUESTS: u64 = 12;

/// The sectors of each client.
const RANGE: u64 = 3072;

/// The sectors that a request may begin at, and the most that it has.
const HALF: u32 = 1536;

/// The bytes of a sector.
pub(crate) const SECTOR: u32 = 512;

pub(crate) const READ: u16 = 0;

pub(crate) const WRITE: u16 = 1;

// The word of a request of the drill of n.
pub(crate) fn word(n: u64, client: u64, index: u64) -> u32
    requires client { client < 3 }
    requires index { index < 12 }
    ensures { result ≡ word n client index }
{
    let mut key = [0u8; 32];
    key[..8].copy_from_slice(&n.to_le_bytes());
    let mut rng = ChaCha20Rng::from_seed(key);
    rng.set_stream(1);
    rng.set_word_pos(u128::from(REQUESTS * client + index));
    rng.next_word()
}

// The request that a word makes.
pub(crate) fn request(client: u64, index: u64, word: u32) -> Request
    requires client { client < 3 }
    requires index { index < 12 }
    ensures { result ≡ request_of client index word }
{
    let reads = word % 4 == 0 && index != 0;
    let first = RANGE * client + u64::from(word / 4 % HALF);
    let count = 1 + word / 8192 % HALF;
    Request {
        flags: 0,
        kind: if reads { READ } else { WRITE },
        cookie: REQUESTS * client + index,
        offset: u64::from(SECTOR) * first,
        length: SECTOR * count,
    }
}
