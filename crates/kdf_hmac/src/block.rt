//! One block of PBKDF2, step by step (RFC 8018, section 5.2, step 3).
ghost use Rattle.std.specs.Prelude.{◌≡◌, ◌+◌, ◌*◌, ◌<◌, ◌≤◌, List, ℕ, length, replicate, take};
ghost use Rattle.vc_base.specs.Bytes.{xor_bytes};
ghost use Rattle.kdf_hmac.specs.Laws.Absorbed.{IsKeyed};
ghost use Rattle.kdf_hmac.specs.Hmac.{output_length};
ghost use Rattle.kdf_hmac.specs.Pbkdf2.{t};
ghost use Rattle.kdf_hmac.specs.Laws.Progress.{Filled, Stepped, block};

use crate::keyed::Keyed;
use crate::prf::Hasher;

// A block after some steps: the last U_j, and the XOR of U_1 to U_j, each at the start of its 64 bytes.
#[derive(Clone, Copy)]
pub(crate) struct Block {
    pub(crate) mac: [u8; 64],
    pub(crate) sum: [u8; 64],
}

impl Block {
    // A block before its first step.
    pub(crate) fn new() -> Block
        ensures { result ≡ record { mac = replicate 64 0; sum = replicate 64 0 } }
    {
        Block {
            mac: [0; 64],
            sum: [0; 64],
        }
    }
}

// Block `number` after `done` and then `count` more steps, where `block` is the one after `done`. With none
// done, `block` is not read.
pub(crate) fn block_after<H: Hasher>(
    key: &Keyed<H>,
    salt: &[u8],
    number: u32,
    block: Block,
    done: u32,
    count: u32,
) -> Block
    requires some { 1 ≤ count }
    ensures { (password : List ℕ) → IsKeyed H.holds H.prf key.now.inner key.now.outer password
        → (1 ≤ done → Stepped H.prf password salt.now number block.mac block.sum done)
        → Stepped H.prf password salt.now number result.mac result.sum (done + count) }
{
    if done == 0 {
        let first = first_step(key, salt, number);
        more_steps(key, first, count - 1)
    } else {
        more_steps(key, block, count)
    }
}

// Block `number` after its first step.
fn first_step<H: Hasher>(key: &Keyed<H>, salt: &[u8], number: u32) -> Block
    ensures { (password : List ℕ) → IsKeyed H.holds H.prf key.now.inner key.now.outer password
        → Stepped H.prf password salt.now number result.mac result.sum 1 }
{
    let mut inner = key.inner.copied();
    inner.absorb(salt);
    inner.absorb(&number.to_be_bytes());
    let mac = key.finish(inner);
    Block { mac, sum: mac }
}

// The block after `count` more steps.
fn more_steps<H: Hasher>(key: &Keyed<H>, block: Block, count: u32) -> Block
    ensures { (password salt : List ℕ) (number done : ℕ) → IsKeyed H.holds H.prf key.now.inner key.now.outer password
        → Stepped H.prf password salt number block.mac block.sum done
        → Stepped H.prf password salt number result.mac result.sum (done + count) }
{
    let mut mac = block.mac;
    let mut sum = block.sum;
    'steps: for _done in 0..count {
        mac = key.mac(&mac[..H::output_length()]);
        sum = xor(&sum, &mac);
    }
    Block { mac, sum }
}

// Writes T_(i+1) after the first `i` blocks, as far as `out` goes.
pub(crate) fn put_block<H: Hasher>(out: &mut [u8], i: usize, sum: &[u8; 64])
    requires { output_length H.prf * i < length out.old }
    ensures { (password salt : List ℕ) (iterations : ℕ)
        → take (output_length H.prf) sum.now ≡ t H.prf password salt iterations (i + 1)
        → Filled (block H.prf password salt iterations) (output_length H.prf) (length out.old) out.old i
        → Filled (block H.prf password salt iterations) (output_length H.prf) (length out.old) out.new (i + 1) }
{
    let length = H::output_length();
    let start = length * i;
    let end = start + length.min(out.len() - start);
    out[start..end].copy_from_slice(&sum[..end - start]);
}

fn xor(x: &[u8; 64], y: &[u8; 64]) -> [u8; 64]
    ensures { result ≡ xor_bytes x.now y.now }
{
    let mut out = [0; 64];
    'bytes: for i in 0..64 {
        out[i] = x[i] ^ y[i];
    }
    out
}
