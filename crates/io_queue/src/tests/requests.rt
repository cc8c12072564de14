//! Requests of tests, and whether a plain volume does the same.
//!
//! Each request is for two sectors, and makes one call of the store. A write whose call fails leaves its first
//! half, which is its first sector: `MemStore` stores the first half of the bytes, and a cipher of units
//! enciphers each apart.
ghost use Rattle.std.specs.Prelude.{◌≡◌};

use crate::IoError;
use sector_model::{Answer, PlainVolume};
use std::alloc::{AllocError, Global};

/// How many sectors the volume of these tests has.
pub const SECTORS: usize = 8;

/// Its last sector, which may be protected.
pub const LAST: u64 = 7;

/// What a request asks: its first sector, and the byte that a write puts everywhere.
#[derive(Clone, Copy, Drop)]
pub enum Asks {
    Write(u8, u8),
    Read(u8),
    Flush,
}

/// A request, and what came of it.
#[derive(Clone, Copy, Drop)]
pub struct Request {
    pub asks: Asks,
    /// What a read gave.
    pub out: [u8; 1024],
    pub result: Result<(), IoError>,
}

impl Request {
    pub fn new(asks: Asks) -> Request {
        Request {
            asks,
            out: [0xee; 1024],
            result: Err(IoError::NoMemory),
        }
    }

    /// Whether it failed with its call of the store.
    pub fn has_failed(&self) -> bool {
        matches!(self.result, Err(IoError::Fault(_)))
    }
}

/// A plain volume of zeros.
#[derive(Drop)]
pub struct Plain {
    volume: PlainVolume,
    ghost small: { volume.volume.per_sector ≡ 1 },
}

impl Plain {
    /// With its last sector protected or not.
    pub fn new(alloc: Global, protects: bool) -> Result<Plain, AllocError> {
        let zeros = vec![in alloc; 0u8; 512 * SECTORS]?;
        let protect = if protects { Some((LAST, 1)) } else { None };
        Ok(Plain {
            volume: PlainVolume::new(zeros, 512, protect),
        })
    }

    pub fn bytes(&self) -> &[u8] {
        self.volume.bytes()
    }

    /// Makes the request. Returns whether it has the same result.
    pub fn follows(&mut self, request: &Request) -> bool {
        match request.asks {
            Asks::Write(first, byte) if request.has_failed() => {
                self.volume.write(u64::from(first), &[byte; 512]) == Answer::Done
            }
            Asks::Write(first, byte) => {
                result_of(self.volume.write(u64::from(first), &[byte; 1024])) == request.result
            }
            Asks::Read(first) => self.reads_alike(first, request),
            Asks::Flush => request.has_failed() || request.result == Ok(()),
        }
    }

    fn reads_alike(&self, first: u8, request: &Request) -> bool {
        let mut held = [0u8; 1024];
        let answer = self.volume.read(u64::from(first), &mut held);
        if request.has_failed() {
            return answer == Answer::Done;
        }
        result_of(answer) == request.result && (answer != Answer::Done || held == request.out)
    }
}

fn result_of(answer: Answer) -> Result<(), IoError> {
    match answer {
        Answer::Done => Ok(()),
        Answer::Range => Err(IoError::Range),
        Answer::Denied => Err(IoError::Denied),
        Answer::Frozen => Err(IoError::Frozen),
    }
}
