//! A derivation that goes by steps, so that its caller can stop between them.
//!
//! The blocks T_1, T_2, .. are worked on one after the other. At any time the first ones are finished, the
//! next is at work, and the rest has not been started:
//!
//! ```text
//! | T_1 .. T_finished | T_(finished + 1), after `steps` of its steps | ..
//!   in `out`            in `block`
//! ```
ghost use Rattle.std.specs.Prelude.{◌≡◌, ◌≤◌, ◌-◌, ◌*◌, ◌↔◌, min, IsTrue};
ghost use Rattle.kdf_hmac.specs.Pbkdf2.{block_count, pbkdf2_bytes};

use crate::block::{Block, block_after, put_block};
use crate::keyed::Keyed;
use crate::password::Password;
use crate::prf::{Hasher, Prf};
use sha2::{Sha256, Sha512};
use std::marker::Model;

/// A derivation of 192 bytes that goes by steps. A step is one HMAC of one output block, so 192 bytes take 3
/// (SHA-512) or 6 (SHA-256) times as many steps as iterations. Contracts see a `Derivation` of specs/.
#[derive(Drop)]
pub struct Derive {
    work: Work,
}

#[derive(Drop)]
enum Work {
    Sha512(UnderWay<Sha512>),
    Sha256(UnderWay<Sha256>),
}

impl Model for Derive {
    ghost use Rattle.kdf_hmac.specs.Derivation.{Derivation};

    ghost Value = { Derivation };

    ghost use Rattle.kdf_hmac.specs.Laws.Works.{derivation_of};

    ghost view = { λ d. derivation_of d.work };
}

impl Derive {
    /// A derivation before its first step.
    pub fn new(prf: Prf, password: &Password, salt: &[u8; 64], iterations: u32) -> Derive
        requires { 1 ≤ iterations }
        ensures { result ≡ record {
          prf = prf;
          password = password.now;
          salt = salt.now;
          iterations = iterations;
          left = block_count prf 192 * iterations;
        } }
    {
        let work = match prf {
            Prf::Sha512 => Work::Sha512(UnderWay::new(password, salt, iterations)),
            Prf::Sha256 => Work::Sha256(UnderWay::new(password, salt, iterations)),
        };
        Derive { work }
    }

    /// How many steps are left.
    pub fn remaining(&self) -> u64
        ensures { result ≡ self.now.left }
    {
        match &self.work {
            Work::Sha512(work) => work.remaining(),
            Work::Sha256(work) => work.remaining(),
        }
    }

    /// Takes this many steps, or all that are left if they are fewer, and returns whether none is left.
    pub fn advance(&mut self, steps: u32) -> bool
        ensures taken { self.new ≡ record self.old { left = self.old.left - min steps self.old.left } }
        ensures none_left { IsTrue result ↔ (self.new.left ≡ 0) }
    {
        match &mut self.work {
            Work::Sha512(work) => work.advance(steps),
            Work::Sha256(work) => work.advance(steps),
        }
    }

    /// The derived key, which is that of `pbkdf2`.
    pub fn finish(self) -> [u8; 192]
        requires { self.left ≡ 0 }
        ensures { result ≡ pbkdf2_bytes self.prf self.password self.salt self.iterations 192 }
    {
        match self.work {
            Work::Sha512(work) => work.finish(),
            Work::Sha256(work) => work.finish(),
        }
    }
}

// The derivation over one hash.
#[derive(Drop)]
struct UnderWay<H: Hasher> {
    key: Keyed<H>,
    // contracts name it: the steps use the key
    password: Password,
    salt: [u8; 64],
    iterations: u32,
    finished: u32,
    steps: u32,
    block: Block,
    out: [u8; 192],
}

impl<H: Hasher> Model for UnderWay<H> {
    ghost use Rattle.kdf_hmac.specs.Derivation.{Derivation};
    ghost use Rattle.kdf_hmac.specs.Laws.Progress.{IsUnderWay, steps_left};

    ghost Value = { Derivation };

    ghost view = { λ a. record {
      prf = H.prf;
      password = a.password;
      salt = a.salt;
      iterations = a.iterations;
      left = steps_left H.prf a.iterations a.finished a.steps;
    } };

    ghost invariant = { λ a. IsUnderWay H.holds H.prf a.key.inner a.key.outer a.password a.salt
        a.iterations a.finished a.steps a.block.mac a.block.sum a.out };
}

impl<H: Hasher> UnderWay<H> {
    fn new(password: &Password, salt: &[u8; 64], iterations: u32) -> UnderWay<H>
        requires { 1 ≤ iterations }
        ensures { result ≡ record {
          prf = H.prf;
          password = password.now;
          salt = salt.now;
          iterations = iterations;
          left = block_count H.prf 192 * iterations;
        } }
    {
        UnderWay {
            key: Keyed::new(password.bytes()),
            password: password.copied(),
            salt: *salt,
            iterations,
            finished: 0,
            steps: 0,
            block: Block::new(),
            out: [0; 192],
        }
    }

    fn remaining(&self) -> u64
        ensures { result ≡ self.now.left }
    {
        let blocks = blocks_of_192::<H>() - self.finished;
        u64::from(blocks) * u64::from(self.iterations) - u64::from(self.steps)
    }

    fn advance(&mut self, steps: u32) -> bool
        ensures taken { self.new ≡ record self.old { left = self.old.left - min steps self.old.left } }
        ensures none_left { IsTrue result ↔ (self.new.left ≡ 0) }
    {
        let mut wanted = u64::from(steps).min(self.remaining()) as u32;
        'steps: while wanted > 0 {
            wanted -= self.step(wanted);
        }
        self.remaining() == 0
    }

    // Takes some steps of the block at work, and returns how many.
    fn step(&mut self, most: u32) -> u32
        requires some { 1 ≤ most }
        requires left { most ≤ self.old.left }
        ensures some { 1 ≤ result }
        ensures most { result ≤ most }
        ensures taken { self.new ≡ record self.old { left = self.old.left - result } }
    {
        let count = most.min(self.iterations - self.steps);
        let number = self.finished + 1;
        let block = block_after(&self.key, &self.salt, number, self.block, self.steps, count);
        if self.steps + count == self.iterations {
            put_block::<H>(&mut self.out, self.finished as usize, &block.sum);
            self.finished += 1;
            self.steps = 0;
        } else {
            self.block = block;
            self.steps += count;
        }
        count
    }

    fn finish(self) -> [u8; 192]
        requires { self.left ≡ 0 }
        ensures { result ≡ pbkdf2_bytes self.prf self.password self.salt self.iterations 192 }
    {
        self.out
    }
}

fn blocks_of_192<H: Hasher>() -> u32
    ensures { result ≡ block_count H.prf 192 }
{
    (192 / H::output_length()) as u32
}

#[cfg(test)]
mod tests;
