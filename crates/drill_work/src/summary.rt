//! The drill, and its summary.
ghost use Rattle.std.specs.Prelude.{◌<◌, ◌^◌, IfOk};
ghost use Rattle.drill_work.specs.Summary.{IsSummary};

use crate::clients::clients_of;
use crate::container::opened_container;
use crate::digest::digest_of;
use crate::served::served;
use cascade_set::{Keyed, Keys};
use drill_streams::{NoMemory, Streams, streams_of};
use std::alloc::Global;
use std::sync::Wait;
use std::thread::Threads;
use vc_header::geometry_of;
use vc_outside::Gate;

/// What the clients of a drill asked, and the SHA-256 of the plain sectors that they left.
#[derive(Clone, Copy, Debug, PartialEq, Eq)]
pub struct Summary {
    pub reads: u64,
    pub writes: u64,
    /// The sum of the writes' sectors.
    pub sectors: u64,
    pub digest: [u8; 32],
}

/// Runs the drill of n. The clients' requests are served side by side, and their work passes the points of `io_queue` at
/// the gate.
pub fn drill<R: Threads + Wait + Sync, G: Gate>(
    rt: &R,
    alloc: Global,
    n: u64,
    gate: &G,
) -> Result<Summary, NoMemory>
    requires { n < 2 ^ 32 }
    ensures { IfOk result (IsSummary n) }
{
    let Streams {
        first,
        second,
        third,
        reads,
        writes,
        sectors,
    } = streams_of(alloc, n)?;
    let (disk, opened) = opened_container(alloc, n)?;
    let keyed = Keyed::new(&Keys {
        algorithm: opened.algorithm,
        material: opened.fields.material,
    });
    let geometry = geometry_of(&opened.fields);
    let clients = clients_of(alloc, first, second, third)?;
    let disk = served(rt, alloc, n, disk, geometry, keyed, clients, gate)?;
    let digest = digest_of(alloc, &disk, &keyed)?;
    Ok(Summary {
        reads,
        writes,
        sectors,
        digest,
    })
}
