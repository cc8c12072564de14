//! The bytes of a store over memory, with the record of what was done to them. Nothing fails here.
ghost use Rattle.std.specs.Prelude.{◌≡◌, ◌≤◌, ◌<◌, ◌+◌, ◌-◌, [], IsTrue, IfOk, OnOk, OnErr, length, slice_range};
ghost use Rattle.vc_outside.specs.Memory.{has_room, noted, shown, stored, Held, May};
ghost use Rattle.vc_outside.specs.Laws.Invariant.{IsHeld};
ghost use Rattle.vc_outside.specs.Record.{crashed, Lost, Resized, Synced, Wrote};

use crate::record::Record;
use crate::replay::overwrite;
use std::alloc::{AllocError, Global};
use std::marker::Model;

// Contracts see it as what is `Held`.
#[derive(Drop)]
pub(crate) struct Medium {
    alloc: Global,
    first: Vec<u8>,
    bytes: Vec<u8>,
    log: Record,
}

impl Model for Medium {
    ghost Value = { Held };

    ghost view = { λ m. record { first = m.first.items; events = m.log.events; places = m.log.places; room = m.log.room } };

    ghost invariant = { λ m. IsHeld m.first.items m.log.events m.bytes.items };
}

impl Medium {
    // These bytes, with room for `places` events and `room` bytes.
    pub(crate) fn new(
        alloc: Global,
        bytes: Vec<u8>,
        places: usize,
        room: usize,
    ) -> Result<Medium, AllocError>
        ensures { IfOk result (λ m. m ≡ record { first = bytes.items; events = []; places = places; room = room }) }
    {
        Ok(Medium {
            alloc,
            first: Vec::from_slice(alloc, &bytes)?,
            bytes,
            log: Record::new(alloc, places, room)?,
        })
    }

    pub(crate) fn bytes(&self) -> &[u8]
        ensures { result.now ≡ shown self.now }
    {
        self.bytes.as_slice()
    }

    pub(crate) fn has_room(&self, n: usize) -> bool
        ensures { result ≡ has_room self.now n }
    {
        self.log.has_place(n)
    }

    // Stores the first `kept` bytes of the piece, and records what its range then holds.
    pub(crate) fn write(&mut self, at: u64, piece: &[u8], kept: usize)
        requires range { at + length piece.now ≤ length (shown self.old) }
        requires kept { kept ≤ length piece.now }
        requires room { IsTrue (has_room self.old (length piece.now)) }
        ensures stored { self.new ≡ noted (Wrote at (stored kept at piece.now (shown self.old))) self.old }
        ensures whole { kept ≡ length piece.now → self.new ≡ noted (Wrote at piece.now) self.old }
    {
        overwrite(&mut self.bytes, at, &piece[..kept]);
        let from = at as usize;
        self.log.write(at, &self.bytes[from..from + piece.len()]);
    }

    // Records a write that no read sees.
    pub(crate) fn lose(&mut self, at: u64, piece: &[u8])
        requires range { at + length piece.now ≤ length (shown self.old) }
        requires room { IsTrue (has_room self.old (length piece.now)) }
        ensures { self.new ≡ noted (Lost at piece.now) self.old }
    {
        self.log.lose(at, piece);
    }

    // Cuts the bytes or lengthens them with zeros, and records that.
    pub(crate) fn resize(&mut self, len: u64) -> Result<(), AllocError>
        requires { IsTrue (has_room self.old (length (shown self.old) - len)) }
        ensures resized { OnOk result (self.new ≡ noted (Resized len) self.old) }
        ensures same { OnErr result (self.new ≡ self.old) }
        ensures longer { OnErr result (length (shown self.old) < len) }
    {
        let cut = self.bytes.len().saturating_sub(len as usize);
        self.bytes.resize(len as usize, 0)?;
        self.log.resize(len, cut);
        Ok(())
    }

    // Records a sync.
    pub(crate) fn sync(&mut self)
        requires { IsTrue (has_room self.old 0) }
        ensures { self.new ≡ noted Synced self.old }
    {
        self.log.sync();
    }

    // What a crash now leaves with this pick.
    pub(crate) fn crash(&self, pick: u8) -> Result<Vec<u8>, AllocError>
        ensures exactly { IfOk result (λ v. v.items ≡ crashed pick self.now.events self.now.first self.now.first) }
        ensures may_leave { IfOk result (λ v. May self.now v.items) }
    {
        self.log.crash(self.alloc, &self.first, pick)
    }
}
