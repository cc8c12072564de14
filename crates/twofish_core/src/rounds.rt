//! The rounds and the whitening (Twofish, 4), on four words.
//!
//! The halves change places after each round. Two rounds in a row bring them back, so that in a loop
//! over pairs of rounds no word moves.
ghost use Rattle.std.specs.Prelude.{◌≡◌, ◌<◌, ◌≤◌, ◌+◌, List, ℕ, [], ◌∷◌};
ghost use Rattle.twofish_core.specs.Twofish.{g_under, f0, f1, feistel, inverse_feistel, rounds, inverse_rounds, whitened, exchanged};

use crate::g::Boxes;

/// The words after rounds r and r + 1, from those after the first r rounds.
#[inline(always)]
pub fn two_rounds(boxes: &Boxes, keys: &[u32; 40], r: usize, s: [u32; 4]) -> [u32; 4]
    requires { r < 15 }
    ensures { let g = g_under boxes.now.words in (start : List ℕ) (m n : ℕ) → m ≡ r → n ≡ r + 2
        → s ≡ rounds g keys.now start m → result ≡ rounds g keys.now start n }
{
    let next = feistel(boxes, keys, r, s);
    feistel(boxes, keys, r + 1, next)
}

/// The words with rounds r + 1 and r undone, from those with the rounds above undone.
#[inline(always)]
pub fn two_inverse_rounds(boxes: &Boxes, keys: &[u32; 40], r: usize, s: [u32; 4]) -> [u32; 4]
    requires { r < 15 }
    ensures { let g = g_under boxes.now.words in (end : List ℕ) (m n : ℕ) → m + r ≡ 14 → n + r ≡ 16
        → s ≡ inverse_rounds g keys.now end m → result ≡ inverse_rounds g keys.now end n }
{
    let before = inverse_feistel(boxes, keys, r + 1, s);
    inverse_feistel(boxes, keys, r, before)
}

// Round r.
#[inline(always)]
fn feistel(boxes: &Boxes, keys: &[u32; 40], r: usize, s: [u32; 4]) -> [u32; 4]
    requires { r < 16 }
    ensures { result ≡ feistel (g_under boxes.now.words) keys.now r s }
{
    let [x, y, z, w] = s;
    let [f0, f1] = f(boxes, keys, r, x, y);
    [(z ^ f0).rotate_right(1), w.rotate_left(1) ^ f1, x, y]
}

// The words before round r, from those after it.
#[inline(always)]
fn inverse_feistel(boxes: &Boxes, keys: &[u32; 40], r: usize, s: [u32; 4]) -> [u32; 4]
    requires { r < 16 }
    ensures { result ≡ inverse_feistel (g_under boxes.now.words) keys.now r s }
{
    let [z, w, x, y] = s;
    let [f0, f1] = f(boxes, keys, r, x, y);
    [x, y, z.rotate_left(1) ^ f0, (w ^ f1).rotate_right(1)]
}

// The function F (4.1): F_0 and F_1 of round r.
#[inline(always)]
fn f(boxes: &Boxes, keys: &[u32; 40], r: usize, x: u32, y: u32) -> [u32; 2]
    requires { r < 16 }
    ensures { let g = g_under boxes.now.words in
        result ≡ f0 g keys.now r x y ∷ f1 g keys.now r x y ∷ [] }
{
    let t0 = boxes.g(x);
    let t1 = boxes.g(y.rotate_left(8));
    let sum = t0.wrapping_add(t1);
    [
        sum.wrapping_add(keys[2 * r + 8]),
        sum.wrapping_add(t1).wrapping_add(keys[2 * r + 9]),
    ]
}

/// Four words with K_j to K_(j + 3).
#[inline(always)]
pub fn whiten(keys: &[u32; 40], j: usize, s: [u32; 4]) -> [u32; 4]
    requires { j ≤ 36 }
    ensures { result ≡ whitened keys.now j s }
{
    [
        s[0] ^ keys[j],
        s[1] ^ keys[j + 1],
        s[2] ^ keys[j + 2],
        s[3] ^ keys[j + 3],
    ]
}

/// The halves change places.
#[inline(always)]
pub fn exchange(s: [u32; 4]) -> [u32; 4]
    ensures { result ≡ exchanged s }
{
    [s[2], s[3], s[0], s[1]]
}
