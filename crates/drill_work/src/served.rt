//! The volume of a drill, served to its clients.
ghost use Rattle.std.specs.Prelude.{◌≡◌, [], ◌∷◌, length, IfOk};
ghost use Rattle.drill_streams.specs.Drill.{stream};
ghost use Rattle.drill_work.specs.Laws.Ended.{client_with, HasServed};
ghost use Rattle.io_core.specs.State.{IsPlaced};

use crate::clients::Link;
use crate::ended::all_done;
use cipher_base::UnitCipher;
use drill_streams::NoMemory;
use io_queue::Volume;
use std::alloc::Global;
use std::sync::Wait;
use std::thread::Threads;
use vc_layout::Geometry;
use vc_outside::{Gate, SureStore};
use vol_server::serve;

/// How many writes may be pending at a time: one of each client.
const PENDING: u32 = 3;

const HELPERS: u32 = 2;

/// Serves the clients of the drill of n, and returns the container.
///
/// A client with a reply that isn't `done` ran out of memory: the store never fails, each request lies in the volume,
/// and nothing is protected.
pub(crate) fn served<R: Threads + Wait + Sync, C: UnitCipher + Send + Sync, G: Gate>(
    rt: &R,
    alloc: Global,
    n: u64,
    disk: SureStore,
    geometry: Geometry,
    cipher: C,
    clients: Vec<Link>,
    gate: &G,
) -> Result<SureStore, NoMemory>
    requires size { length disk ≡ 5242880 }
    requires start { geometry.start ≡ 131072 }
    requires sectors { geometry.sectors ≡ 9728 }
    requires sector { geometry.sector ≡ 512 }
    requires clients { clients.items ≡ client_with (stream n 0) ∷ client_with (stream n 1) ∷ client_with (stream n 2) ∷ [] }
    ensures { IfOk result (HasServed n (C.deciphered cipher) disk) }
{
    let Ok((volume, mut pass)) = Volume::open(alloc, disk, geometry, cipher, None, PENDING) else {
        return Err(NoMemory);
    };
    let Ok(served) = serve(rt, alloc, &volume, &mut pass, clients, HELPERS, gate) else {
        return Err(NoMemory);
    };
    if !all_done(n, &served) {
        return Err(NoMemory);
    }
    match volume.close(pass) {
        Ok((disk, _pass)) => Ok(disk),
        Err(_kept) => unreachable!(),
    }
}
