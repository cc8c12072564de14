//! One fragment of a write, before and after it is enciphered.
ghost use Rattle.std.specs.Prelude.{◌≡◌, ◌<◌, ◌≤◌, ◌+◌, ◌%◌, ◌^◌, ℕ, List, length, vec_len, IfOk};
ghost use Rattle.vc_base.specs.Bytes.{in_pieces};

use cipher_base::UnitCipher;
use std::alloc::{AllocError, Global};

/// A fragment that waits to be enciphered: part `index` of write `number` of `caller`. Its bytes are
/// whole data units, of which the first has the number `unit`. `room` is as long, for the result.
#[derive(Drop)]
pub struct Job {
    pub caller: u64,
    pub number: u64,
    pub index: u64,
    pub unit: u64,
    pub plain: Vec<u8>,
    pub room: Vec<u8>,
    ghost as_long: { vec_len room ≡ vec_len plain },
    ghost whole: { vec_len plain % 512 ≡ 0 },
    ghost at_most: { vec_len plain ≤ 262144 },
    ghost within: { unit + 512 ≤ 2 ^ 55 },
}

/// A fragment with its enciphered bytes.
#[derive(Drop)]
pub struct Piece {
    pub caller: u64,
    pub number: u64,
    pub index: u64,
    pub unit: u64,
    pub plain: Vec<u8>,
    pub cipher: Vec<u8>,
}

impl Job {
    /// A job with a copy of the data.
    pub fn new(
        alloc: Global,
        caller: u64,
        number: u64,
        index: u64,
        unit: u64,
        data: &[u8],
    ) -> Result<Job, AllocError>
        requires some { 0 < length «data».now }
        requires whole { length «data».now % 512 ≡ 0 }
        requires at_most { length «data».now ≤ 262144 }
        requires within { unit + 512 ≤ 2 ^ 55 }
        ensures caller { IfOk result (λ j. j.caller ≡ caller) }
        ensures number { IfOk result (λ j. j.number ≡ number) }
        ensures index { IfOk result (λ j. j.index ≡ index) }
        ensures unit { IfOk result (λ j. j.unit ≡ unit) }
        ensures plain { IfOk result (λ j. j.plain.items ≡ «data».now) }
    {
        let room = Vec::from_elem(alloc, 0, data.len())?;
        let mut plain = Vec::from_elem(alloc, 0, data.len())?;
        plain.as_mut_slice().copy_from_slice(data);
        Ok(Job {
            caller,
            number,
            index,
            unit,
            plain,
            room,
        })
    }

    /// The job's bytes, enciphered in its room. Takes no memory.
    pub fn encipher<C: UnitCipher>(self, c: &C) -> Piece
        ensures caller { result.caller ≡ self.caller }
        ensures number { result.number ≡ self.number }
        ensures index { result.index ≡ self.index }
        ensures unit { result.unit ≡ self.unit }
        ensures plain { result.plain.items ≡ self.plain.items }
        ensures cipher { result.cipher.items
            ≡ in_pieces 512 (λ i u. C.enciphered c.now (self.unit + i) u) self.plain.items }
    {
        let Job {
            caller,
            number,
            index,
            unit,
            plain,
            room,
        } = self;
        let mut cipher = room;
        cipher.as_mut_slice().copy_from_slice(plain.as_slice());
        c.encipher_units(unit, cipher.as_mut_slice());
        Piece {
            caller,
            number,
            index,
            unit,
            plain,
            cipher,
        }
    }
}
