//! What a store over memory has recorded since its start.
//!
//! The room for it is taken at the start, so that recording takes no memory:
//!
//! ```text
//! calls   Write 0, 3   Sync   Write 7, 2   ..          as many as there is room for
//! bytes   a b c               d e          ..          the bytes of the writes, one after the other
//! ```
ghost use Rattle.std.specs.Prelude.{◌≡◌, ◌<◌, ◌≤◌, ◌-◌, [], length, IfOk, OnOk, vec_capacity, vec_len};
ghost use Rattle.vc_outside.specs.Laws.Log.{added, event_of, events_of, has_place, EndsBy, IsKept, Log};
ghost use Rattle.vc_outside.specs.Record.{crashed, Lost, Resized, Synced, Wrote};
ghost use Rattle.vc_outside.specs.Laws.Invariant.{IsRecord};

use crate::replay::replay;
use std::alloc::{AllocError, Global};
use std::marker::Model;

// A recorded call. `from` and `len` say where its bytes are.
#[derive(Clone, Copy)]
pub(crate) enum Call {
    Write { at: u64, from: usize, len: usize },
    Loss { at: u64, from: usize, len: usize },
    Length { len: u64 },
    Sync,
}

// A record, with room for more. Contracts see it as a `Log`.
#[derive(Drop)]
pub(crate) struct Record {
    calls: Vec<Call>,
    bytes: Vec<u8>,
    room: usize,
}

impl Model for Record {
    ghost Value = { Log };

    ghost view = { λ r. record {
      events = events_of r.bytes.items r.calls.items;
      places = vec_capacity r.calls - vec_len r.calls;
      room = r.room;
    } };

    ghost invariant = { λ r. IsKept r.calls.items r.bytes r.room };
}

impl Record {
    // Room for this many events and bytes.
    pub(crate) fn new(alloc: Global, places: usize, room: usize) -> Result<Record, AllocError>
        ensures { IfOk result (λ r. r ≡ record { events = []; places = places; room = room }) }
    {
        Ok(Record {
            calls: Vec::with_capacity(alloc, places)?,
            bytes: Vec::with_capacity(alloc, room)?,
            room,
        })
    }

    // Whether there is room for one more event with `n` bytes.
    pub(crate) fn has_place(&self, n: usize) -> bool
        ensures { result ≡ has_place self.now n }
    {
        self.calls.len() < self.calls.capacity() && n <= self.room
    }

    pub(crate) fn write(&mut self, at: u64, piece: &[u8])
        requires place { 0 < self.old.places }
        requires room { length piece.now ≤ self.old.room }
        ensures { self.new ≡ added (Wrote at piece.now) (length piece.now) self.old }
    {
        let (from, len) = (self.bytes.len(), piece.len());
        self.room -= len;
        self.calls.push_reserved(Call::Write { at, from, len });
        // There is room for it.
        let _ = self.bytes.extend_from_slice(piece);
    }

    pub(crate) fn lose(&mut self, at: u64, piece: &[u8])
        requires place { 0 < self.old.places }
        requires room { length piece.now ≤ self.old.room }
        ensures { self.new ≡ added (Lost at piece.now) (length piece.now) self.old }
    {
        let (from, len) = (self.bytes.len(), piece.len());
        self.room -= len;
        self.calls.push_reserved(Call::Loss { at, from, len });
        let _ = self.bytes.extend_from_slice(piece);
    }

    // A new length, which cut off `cut` bytes.
    pub(crate) fn resize(&mut self, len: u64, cut: usize)
        requires place { 0 < self.old.places }
        requires room { cut ≤ self.old.room }
        ensures { self.new ≡ added (Resized len) cut self.old }
    {
        self.room -= cut;
        self.calls.push_reserved(Call::Length { len });
    }

    pub(crate) fn sync(&mut self)
        requires { 0 < self.old.places }
        ensures { self.new ≡ added Synced 0 self.old }
    {
        self.calls.push_reserved(Call::Sync);
    }

    // What a crash now leaves with this pick, over the bytes at the start.
    pub(crate) fn crash(&self, alloc: Global, first: &[u8], pick: u8) -> Result<Vec<u8>, AllocError>
        requires { IsRecord self.now.events first.now }
        ensures { IfOk result (λ v. v.items ≡ crashed pick self.now.events first.now first.now) }
    {
        let mut read = Vec::from_slice(alloc, first)?;
        let mut image = Vec::from_slice(alloc, first)?;
        for call in &self.calls {
            replay(*call, &self.bytes, pick, &mut read, &mut image)?;
        }
        Ok(image)
    }
}
