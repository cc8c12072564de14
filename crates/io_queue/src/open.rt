//! How a volume begins.
ghost use Rattle.std.specs.Prelude.{◌≡◌, ◌≤◌, [], false, IfErr, IfOk};
ghost use Rattle.hist_lock.specs.Known.{newcomer, view};
ghost use Rattle.io_core.specs.State.{IsPlaced};
ghost use Rattle.io_queue.specs.Pass.{IsPass, NothingOpen, StandsFor};

use crate::signal::Signal;
use crate::volume::Volume;
use cipher_base::UnitCipher;
use hist_lock::{HistLock, Pass};
use io_core::{Core, NoMemory};
use std::alloc::Global;
use vc_layout::Geometry;
use vc_outside::Store;

impl<S: Store, C: UnitCipher> Volume<S, C> {
    /// The volume that the geometry gives, with nothing written and nothing denied, and its first pass. The
    /// protected range is in the container's data units, by its first one and its count. `capacity` writes may
    /// be pending at a time. Out of memory, the store comes back.
    pub fn open(
        alloc: Global,
        disk: S,
        geometry: Geometry,
        cipher: C,
        protect: Option<(u64, u64)>,
        capacity: u32,
    ) -> Result<(Volume<S, C>, Pass<Core<S, C>>), (NoMemory, S)>
        requires placed { IsPlaced (S.size disk) geometry }
        requires some { 1 ≤ capacity }
        requires few { capacity ≤ 128 }
        ensures geometry { IfOk result (λ r. r.0.geometry ≡ geometry) }
        ensures pass { IfOk result (λ r. IsPass r.0.lock.table.shared.table_id r.0.geometry r.0.cipher r.1.seat) }
        ensures open { IfOk result (λ r. NothingOpen (view r.1.seat)) }
        ensures first { IfOk result (λ r. view r.1.seat ≡ newcomer (record {
          disk = disk;
          cipher = cipher;
          geometry = geometry;
          guard = record { range = protect; frozen = false };
          pending = [];
          capacity = capacity;
        })) }
        ensures stands { IfOk result (λ r. StandsFor ⟦<S as Store>⟧ ⟦<C as UnitCipher>⟧ (view r.1.seat)) }
        ensures handed_back { IfErr result (λ e. e.1 ≡ disk) }
    {
        let core = Core::new(alloc, disk, geometry, cipher, protect, capacity)?;
        match HistLock::new(alloc, core) {
            Ok((lock, pass)) => {
                let volume = Volume {
                    lock,
                    cipher,
                    geometry,
                    ends: Signal::new(),
                    deposits: Signal::new(),
                    news: Signal::new(),
                };
                Ok((volume, pass))
            }
            Err((_, core)) => Err((NoMemory, core.into_store())),
        }
    }
}
