//! The core's state, as it is made and taken apart.
ghost use Rattle.std.specs.Prelude.{◌≡◌, ◌+◌, ◌-◌, ◌*◌, ◌/◌, ◌%◌, ◌^◌, ◌<◌, ◌≤◌, ◌↔◌, ◌++◌, ◌∷◌, [], ℕ, List, length, false, IfOk, IfErr, IsTrue, IsNone};
ghost use Rattle.io_core.specs.State.{IsPlaced, State, volume_of};
ghost use Rattle.io_core.specs.Sound.{Sound, volume};
ghost use Rattle.sector_model.specs.Array.{Fits};
ghost use Rattle.sector_model.specs.Plain.{entry};
ghost use Rattle.sector_model.specs.declared.entry.Entry.{Entry};
ghost use Rattle.sector_model.specs.declared.entry.Event.TheVariants.{Beyond};

use crate::prepared::{NoMemory, Prepared};
use cipher_base::UnitCipher;
use hidden_guard::Guard;
use range_book::Book;
use std::alloc::Global;
use std::marker::Model;
use vc_layout::Geometry;
use vc_outside::Store;

/// Contracts see a `State`: the disk, the cipher, the geometry, the guard, the pending writes and how many of
/// these there may be.
#[derive(Drop)]
pub struct Core<S: Store, C: UnitCipher> {
    pub(crate) disk: S,
    pub(crate) cipher: C,
    pub(crate) geometry: Geometry,
    pub(crate) guard: Guard,
    pub(crate) book: Book,
    pub(crate) pending: Vec<Prepared>,
    pub(crate) capacity: u32,
    /// Room for a fragment that has to be enciphered again.
    pub(crate) room: Vec<u8>,
}

impl<S: Store, C: UnitCipher> Model for Core<S, C> {
    ghost use Rattle.std.specs.Prelude.{◌≡◌, ◌≤◌, length};
    ghost use Rattle.io_core.specs.State.{State};
    ghost use Rattle.io_core.specs.Laws.Invariant.{IsCore};

    ghost Value = { State S C };

    ghost view = { λ c. record {
      disk = c.disk;
      cipher = c.cipher;
      geometry = c.geometry;
      guard = c.guard;
      pending = c.pending.items;
      capacity = c.capacity;
    } };

    ghost invariant = { λ c. IsCore (S.size c.disk) c.geometry c.guard.range c.book c.pending c.capacity c.room };
}

impl<S: Store, C: UnitCipher> Core<S, C> {
    /// A core of the volume that the geometry gives, with nothing pending and nothing denied. The protected
    /// range is in the container's data units, by its first one and its count. `capacity` writes may be
    /// pending at a time.
    pub fn new(
        alloc: Global,
        disk: S,
        geometry: Geometry,
        cipher: C,
        protect: Option<(u64, u64)>,
        capacity: u32,
    ) -> Result<Core<S, C>, (NoMemory, S)>
        requires placed { IsPlaced (S.size disk) geometry }
        requires some { 1 ≤ capacity }
        requires few { capacity ≤ 128 }
        ensures made { IfOk result (λ c. c ≡ record {
          disk = disk;
          cipher = cipher;
          geometry = geometry;
          guard = record { range = protect; frozen = false };
          pending = [];
          capacity = capacity;
        }) }
        ensures sound { IfOk result (λ c. Sound ⟦<S as Store>⟧ ⟦<C as UnitCipher>⟧ c [] c) }
        ensures handed_back { IfErr result (λ e. e.1 ≡ disk) }
    {
        let Ok(book) = Book::new(alloc, capacity) else {
            return Err((NoMemory, disk));
        };
        let Ok(pending) = Vec::with_capacity(alloc, capacity as usize) else {
            return Err((NoMemory, disk));
        };
        let Ok(room) = vec![in alloc; 0u8; 262_144] else {
            return Err((NoMemory, disk));
        };
        Ok(Core {
            disk,
            cipher,
            geometry,
            guard: Guard::new(protect),
            book,
            pending,
            capacity,
            room,
        })
    }

    /// Whether `count` sectors from `first` on are in the volume. A request that isn't is refused, and the
    /// history may then say so.
    pub fn fits(&self, first: u64, count: u64) -> bool
        ensures fits { IsTrue result ↔ Fits (volume self.now) first count }
        ensures sound { (base : State S C) (h : List Entry) (caller number : ℕ) → result ≡ false
            → Sound ⟦<S as Store>⟧ ⟦<C as UnitCipher>⟧ base h self.now
            → Sound ⟦<S as Store>⟧ ⟦<C as UnitCipher>⟧ base (h ++ entry caller number (Beyond first count) ∷ []) self.now }
    {
        first <= self.geometry.sectors && count <= self.geometry.sectors - first
    }

    /// How many writes are pending.
    pub fn pending(&self) -> u64
        ensures { result ≡ length self.now.pending }
    {
        self.pending.len() as u64
    }

    /// The geometry that it was made with.
    pub fn geometry(&self) -> Geometry
        ensures { result ≡ self.now.geometry }
    {
        self.geometry
    }

    /// Ends the core and gives the store back.
    pub fn into_store(self) -> S
        requires { self.pending ≡ [] }
        ensures { result ≡ self.disk }
    {
        let Core {
            disk,
            cipher: _,
            geometry: _,
            guard: _,
            book: _,
            pending: _,
            capacity: _,
            room: _,
        } = self;
        disk
    }
}
