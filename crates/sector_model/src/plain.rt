//! A plain volume in memory.
ghost use Rattle.std.specs.Prelude.{◌≡◌, ◌≢◌, ◌↔◌, ◌+◌, ◌/◌, ◌%◌, ◌^◌, ◌<◌, ◌≤◌, ◌⊎◌, ◌++◌, IsTrue, ℕ, List, length, false, true, None, Option};
ghost use Rattle.sector_model.specs.declared.entry.Entry.{Entry};
ghost use Rattle.sector_model.specs.Array.{Array, array_of, AreSectors, Fits, Holds, laid, sectors_of, TouchesProtected};
ghost use Rattle.vc_layout.specs.Layout.{IsSectorSize};
ghost use Rattle.sector_model.specs.Plain.{read_entries, StandsFor, write_entries};

use hidden_guard::{Guard, Verdict};
use std::marker::Model;

/// How a request to a plain volume ended.
#[derive(Clone, Copy, Debug, PartialEq, Eq)]
pub enum Answer {
    Done,
    /// It passes the volume's end.
    Range,
    /// The write touches a protected sector, and is the first such write. The volume is now frozen.
    Denied,
    /// The volume was frozen before.
    Frozen,
}

/// A volume as an array in memory, one request at a time. It keeps its bytes as they are, with no cipher
/// and no fragments, and is meant for tests. Contracts see a `Plain`.
#[derive(Drop)]
pub struct PlainVolume {
    bytes: Vec<u8>,
    sector: u32,
    guard: Guard,
}

impl Model for PlainVolume {
    ghost use Rattle.std.specs.Prelude.{◌≡◌, ◌^◌, ◌%◌, ◌/◌, ◌≤◌, length};
    ghost use Rattle.vc_layout.specs.Layout.{IsSectorSize};
    ghost use Rattle.sector_model.specs.Plain.{Plain};

    ghost Value = { Plain };

    ghost view = { λ p. record {
      volume = record {
        per_sector = p.sector / 512;
        sectors = length p.bytes.items / p.sector;
        start = 0;
        protected = p.guard.range;
      };
      bytes = p.bytes.items;
      frozen = p.guard.frozen;
    } };

    ghost invariant = { λ p. IsSectorSize p.sector × (length p.bytes.items % p.sector ≡ 0)
        × (length p.bytes.items ≤ 2 ^ 60) };
}

impl PlainVolume {
    /// A volume of these bytes in sectors of `sector` bytes. The protected range is in data units, counted
    /// from the volume's start: its first unit and its count.
    pub fn new(bytes: Vec<u8>, sector: u32, protect: Option<(u64, u64)>) -> PlainVolume
        requires sector { IsSectorSize sector }
        requires whole { length bytes.items % sector ≡ 0 }
        requires within { length bytes.items ≤ 2 ^ 60 }
        ensures { result ≡ record {
          volume = record {
            per_sector = sector / 512;
            sectors = length bytes.items / sector;
            start = 0;
            protected = protect;
          };
          bytes = bytes.items;
          frozen = false;
        } }
    {
        PlainVolume {
            bytes,
            sector,
            guard: Guard::new(protect),
        }
    }

    /// All the bytes.
    pub fn bytes(&self) -> &[u8]
        ensures { result.now ≡ self.now.bytes }
    {
        self.bytes.as_slice()
    }

    /// Reads whole sectors from the sector `first` on until `out` is full.
    pub fn read(&self, first: u64, out: &mut [u8]) -> Answer
        requires some { 0 < length out.old }
        requires whole { AreSectors self.now.volume out.old }
        requires within { first ≤ 2 ^ 55 }
        ensures range { (result ≡ Answer.Range) ↔ ¬ Fits self.now.volume first (sectors_of self.now.volume out.old) }
        ensures done { (result ≡ Answer.Done) ↔ Fits self.now.volume first (sectors_of self.now.volume out.old) }
        ensures read { result ≡ Answer.Done → Holds self.now.volume first out.new (array_of self.now.bytes) }
        ensures refused { result ≡ Answer.Range → out.new ≡ out.old }
        ensures stands { (a : Array) (h : List Entry) (caller number : ℕ) → StandsFor a h self.now
            → StandsFor a (h ++ read_entries caller number result self.now.volume first out.new) self.now }
    {
        let sector = u64::from(self.sector);
        let count = out.len() as u64 / sector;
        if !self.fits(first, count) {
            return Answer::Range;
        }
        let at = (first * sector) as usize;
        out.copy_from_slice(&self.bytes[at..at + out.len()]);
        Answer::Done
    }

    /// Writes whole sectors from the sector `first` on.
    pub fn write(&mut self, first: u64, bytes: &[u8]) -> Answer
        requires some { 0 < length bytes.now }
        requires whole { AreSectors self.old.volume bytes.now }
        requires within { first ≤ 2 ^ 55 }
        ensures range { (result ≡ Answer.Range) ↔ ¬ Fits self.old.volume first (sectors_of self.old.volume bytes.now) }
        ensures frozen { (result ≡ Answer.Frozen)
            ↔ (Fits self.old.volume first (sectors_of self.old.volume bytes.now) × (self.old.frozen ≡ true)) }
        ensures denied { (result ≡ Answer.Denied)
            ↔ (Fits self.old.volume first (sectors_of self.old.volume bytes.now) × (self.old.frozen ≡ false)
            × TouchesProtected self.old.volume first (sectors_of self.old.volume bytes.now)) }
        ensures volume { self.new.volume ≡ self.old.volume }
        ensures freezes { (self.new.frozen ≡ true) ↔ ((self.old.frozen ≡ true) ⊎ (result ≡ Answer.Denied)) }
        ensures written { result ≡ Answer.Done
            → (u : ℕ) → array_of self.new.bytes u ≡ laid self.old.volume first bytes.now (array_of self.old.bytes) u }
        ensures refused { result ≢ Answer.Done → self.new.bytes ≡ self.old.bytes }
        ensures stands { (a : Array) (h : List Entry) (caller number : ℕ) → StandsFor a h self.old
            → StandsFor a (h ++ write_entries caller number result self.old.volume first bytes.now) self.new }
    {
        let sector = u64::from(self.sector);
        let count = bytes.len() as u64 / sector;
        if !self.fits(first, count) {
            return Answer::Range;
        }
        let units = sector / 512;
        match self.guard.judge(units * first, units * count) {
            Verdict::Frozen => Answer::Frozen,
            Verdict::Denied => Answer::Denied,
            Verdict::Pass => {
                let at = (first * sector) as usize;
                self.bytes[at..at + bytes.len()].copy_from_slice(bytes);
                Answer::Done
            }
        }
    }

    fn fits(&self, first: u64, count: u64) -> bool
        requires within { first ≤ 2 ^ 55 }
        requires small { count < 2 ^ 55 }
        ensures { IsTrue result ↔ Fits self.now.volume first count }
    {
        first + count <= self.bytes.len() as u64 / u64::from(self.sector)
    }
}

#[cfg(test)]
mod tests;
