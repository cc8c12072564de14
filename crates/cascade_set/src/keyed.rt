//! Data units and header bodies under an algorithm's keys.
ghost use Rattle.std.specs.Prelude.{◌≡◌, ◌<◌, ◌≤◌, ◌+◌, ◌%◌, ◌^◌, ℕ, List, length};
ghost use Rattle.vc_base.specs.Bytes.{IsBytes, piece};
ghost use Rattle.algorithm_names.specs.Algorithms.{ciphers_of};
ghost use Rattle.cascade_set.specs.Cascade.{enciphered, deciphered};
ghost use Rattle.cascade_set.specs.Laws.Layers.{layer_at, layer_undone_at};
ghost use Rattle.cascade_set.specs.Laws.FirstTweaks.{AreTweaks};
ghost use Rattle.cascade_set.specs.Laws.Lawful.{IsLawful};

use crate::keys::Keys;
use crate::layer::Layer;
use crate::stretch::{AnyLayer, Stretch};
use aes_core::Aes256;
use algorithm_names::Cipher;
use cipher_base::UnitCipher;
use serpent_core::Serpent256;
use std::cmp::min;
use twofish_core::Twofish256;

/// A cipher of data units under an algorithm's keys.
#[derive(Clone, Copy)]
pub struct Keyed {
    // The layers in the order of enciphering. If the algorithm has fewer, the last are nothing.
    first: AnyLayer,
    second: AnyLayer,
    third: AnyLayer,
    ghost lawful: { IsLawful
        (λ n u. ⟦<AnyLayer as Stretch>⟧.enciphered third n
        (⟦<AnyLayer as Stretch>⟧.enciphered second n (⟦<AnyLayer as Stretch>⟧.enciphered first n u)))
        (λ n u. ⟦<AnyLayer as Stretch>⟧.deciphered first n
        (⟦<AnyLayer as Stretch>⟧.deciphered second n (⟦<AnyLayer as Stretch>⟧.deciphered third n u))) },
}

impl Keyed {
    /// The cipher under these keys.
    pub fn new(keys: &Keys) -> Keyed
        ensures enciphers { (n : ℕ) (u : List ℕ) →
            ⟦<Keyed as UnitCipher>⟧.enciphered result n u ≡ enciphered keys.now n u }
        ensures deciphers { (n : ℕ) (u : List ℕ) →
            ⟦<Keyed as UnitCipher>⟧.deciphered result n u ≡ deciphered keys.now n u }
    {
        Keyed {
            first: layer(keys, 0),
            second: layer(keys, 1),
            third: layer(keys, 2),
        }
    }

    /// Enciphers a header's body in place, as one stretch under data unit 0.
    pub fn header(&self, body: &mut [u8; 448])
        ensures enciphered { body.new ≡ ⟦<Keyed as UnitCipher>⟧.enciphered self.now 0 body.old }
        ensures undone { ⟦<Keyed as UnitCipher>⟧.deciphered self.now 0 body.new ≡ body.old }
    {
        bytes_are_known(body);
        self.encipher(&self.first_tweaks(0, 1), 0, body);
    }

    /// Deciphers a header's body in place, as one stretch under data unit 0.
    pub fn unheader(&self, body: &mut [u8; 448])
        ensures deciphered { body.new ≡ ⟦<Keyed as UnitCipher>⟧.deciphered self.now 0 body.old }
        ensures undone { ⟦<Keyed as UnitCipher>⟧.enciphered self.now 0 body.new ≡ body.old }
    {
        bytes_are_known(body);
        self.decipher(&self.first_tweaks(0, 1), 0, body);
    }

    // The first tweaks of up to 8 units, of which the first has the number `unit`.
    fn first_tweaks(&self, unit: u64, count: usize) -> Tweaks
        requires few { count ≤ 8 }
        requires within { unit + count < 2 ^ 64 }
        ensures { (j : ℕ) → j < count → AreTweaks (⟦<AnyLayer as Stretch>⟧.first_tweak self.now.first)
            (⟦<AnyLayer as Stretch>⟧.first_tweak self.now.second) (⟦<AnyLayer as Stretch>⟧.first_tweak self.now.third)
            result j (unit + j) }
    {
        Tweaks {
            first: self.first.first_tweaks(unit, count),
            second: self.second.first_tweaks(unit, count),
            third: self.third.first_tweaks(unit, count),
        }
    }

    // Enciphers a stretch, whose first tweaks are the j-th of these, by each layer in turn.
    fn encipher(&self, tweaks: &Tweaks, j: usize, stretch: &mut [u8])
        requires place { j < 8 }
        requires whole { length stretch.old % 16 ≡ 0 }
        requires short { length stretch.old ≤ 512 }
        ensures { (n : ℕ) → AreTweaks (⟦<AnyLayer as Stretch>⟧.first_tweak self.now.first)
            (⟦<AnyLayer as Stretch>⟧.first_tweak self.now.second) (⟦<AnyLayer as Stretch>⟧.first_tweak self.now.third)
            tweaks.now j n → stretch.new ≡ ⟦<Keyed as UnitCipher>⟧.enciphered self.now n stretch.old }
    {
        self.first.encipher(&tweaks.first, j, stretch);
        self.second.encipher(&tweaks.second, j, stretch);
        self.third.encipher(&tweaks.third, j, stretch);
    }

    // Deciphers one, by each layer in turn, the last first.
    fn decipher(&self, tweaks: &Tweaks, j: usize, stretch: &mut [u8])
        requires place { j < 8 }
        requires whole { length stretch.old % 16 ≡ 0 }
        requires short { length stretch.old ≤ 512 }
        ensures { (n : ℕ) → AreTweaks (⟦<AnyLayer as Stretch>⟧.first_tweak self.now.first)
            (⟦<AnyLayer as Stretch>⟧.first_tweak self.now.second) (⟦<AnyLayer as Stretch>⟧.first_tweak self.now.third)
            tweaks.now j n → stretch.new ≡ ⟦<Keyed as UnitCipher>⟧.deciphered self.now n stretch.old }
    {
        self.third.decipher(&tweaks.third, j, stretch);
        self.second.decipher(&tweaks.second, j, stretch);
        self.first.decipher(&tweaks.first, j, stretch);
    }
}

impl UnitCipher for Keyed {
    ghost enciphered = { λ c n u. ⟦<AnyLayer as Stretch>⟧.enciphered c.third n
        (⟦<AnyLayer as Stretch>⟧.enciphered c.second n (⟦<AnyLayer as Stretch>⟧.enciphered c.first n u)) };

    ghost deciphered = { λ c n u. ⟦<AnyLayer as Stretch>⟧.deciphered c.first n
        (⟦<AnyLayer as Stretch>⟧.deciphered c.second n (⟦<AnyLayer as Stretch>⟧.deciphered c.third n u)) };

    fn encipher_units(&self, first: u64, units: &mut [u8]) {
        let count = units.len() / 512;
        let mut tweaks = no_tweaks();
        for i in 0..count {
            if i % 8 == 0 {
                tweaks = self.first_tweaks(first + i as u64, min(count - i, 8));
            }
            self.encipher(&tweaks, i % 8, &mut units[512 * i..512 * i + 512]);
        }
    }

    fn decipher_units(&self, first: u64, units: &mut [u8]) {
        let count = units.len() / 512;
        let mut tweaks = no_tweaks();
        for i in 0..count {
            if i % 8 == 0 {
                tweaks = self.first_tweaks(first + i as u64, min(count - i, 8));
            }
            self.decipher(&tweaks, i % 8, &mut units[512 * i..512 * i + 512]);
        }
    }

    ghost enciphered_is_unit = { λ c n u small b. c.lawful.enciphered_is_whole 32 n u b };

    ghost deciphered_is_unit = { λ c n u small b. c.lawful.deciphered_is_whole 32 n u b };

    ghost deciphers = { λ c n u small b. c.lawful.deciphers 32 n u b };

    ghost enciphers = { λ c n u small b. c.lawful.enciphers 32 n u b };
}

// T_0 of up to 8 units under the keys of each layer.
#[derive(Clone, Copy)]
struct Tweaks {
    first: [u8; 128],
    second: [u8; 128],
    third: [u8; 128],
}

fn no_tweaks() -> Tweaks {
    Tweaks {
        first: [0; 128],
        second: [0; 128],
        third: [0; 128],
    }
}

// The i-th layer of the algorithm, or nothing if it has fewer.
fn layer(keys: &Keys, i: u8) -> AnyLayer
    requires { i < 3 }
    ensures enciphers { (n : ℕ) (u : List ℕ) →
        ⟦<AnyLayer as Stretch>⟧.enciphered result n u ≡ layer_at keys.now i n u }
    ensures deciphers { (n : ℕ) (u : List ℕ) →
        ⟦<AnyLayer as Stretch>⟧.deciphered result n u ≡ layer_undone_at keys.now i n u }
{
    let k = keys.algorithm.ciphers();
    if i >= k {
        return AnyLayer::Nothing;
    }
    let main = key_of(&keys.material, i);
    let tweak = key_of(&keys.material, k + i);
    match keys.algorithm.layer(i) {
        Cipher::Aes => AnyLayer::Aes(Layer::new(Aes256::new(&main), Aes256::new(&tweak))),
        Cipher::Serpent => {
            AnyLayer::Serpent(Layer::new(Serpent256::new(&main), Serpent256::new(&tweak)))
        }
        Cipher::Twofish => {
            AnyLayer::Twofish(Layer::new(Twofish256::new(&main), Twofish256::new(&tweak)))
        }
    }
}

// The i-th key of 32 bytes in the material.
fn key_of(material: &[u8; 192], i: u8) -> [u8; 32]
    requires { i < 6 }
    ensures { result ≡ piece 32 i material.now }
{
    let from = 32 * i as usize;
    let mut key = [0u8; 32];
    key.copy_from_slice(&material[from..from + 32]);
    key
}

// The elements of a slice of bytes are bytes, which the calls above can then cite.
fn bytes_are_known(slice: &[u8])
    ensures { IsBytes (length slice.now) slice.now }
{}
