//! Serving all clients.
ghost use Rattle.std.specs.Prelude.{◌≡◌, ◌≤◌, length, IfErr, IfOk, None, Some};
ghost use Rattle.hist_lock.specs.History.{SameUnder};
ghost use Rattle.hist_lock.specs.Known.{numbers_of, view};
ghost use Rattle.io_queue.specs.Pass.{caller_of, IsPass, NothingOpen};
ghost use Rattle.vc_layout.specs.Layout.{IsSectorSize};
ghost use Rattle.vol_server.specs.Served.{AreGreeted, AreNew, AreServed, Gained, IsBack, size_of};

use crate::join::join_all;
use crate::room::Room;
use crate::run::run_all;
use crate::served::{Lists, Served};
use crate::split::split_all;
use crate::works::line_up;
use cipher_base::UnitCipher;
use hist_lock::Pass;
use io_core::{Core, NoMemory};
use io_queue::Volume;
use nbd_hand::HandEnd;
use std::alloc::Global;
use std::sync::Wait;
use std::thread::Threads;
use vc_outside::{Client, Gate, Sink, Source, Store};

/// Serves 1 to 16 clients side by side, each by a session under a pass of its own, and returns once all sessions
/// have ended. `pass` then has seen all that they did, and has its whole share again. Out of memory, the clients
/// come back and nothing has changed.
///
/// 0 to 8 helpers take fragments of the clients' writes and encipher them. They add no entry to the history.
pub fn serve<
    R: Threads + Wait + Sync,
    S: Store + Send,
    C: UnitCipher + Send + Sync,
    I: Source + Send,
    O: Sink + Send,
    G: Gate,
>(
    rt: &R,
    alloc: Global,
    volume: &Volume<S, C>,
    pass: &mut Pass<Core<S, C>>,
    clients: Vec<Client<I, O>>,
    helpers: u32,
    gate: &G,
) -> Result<Served<I, O>, (NoMemory, Vec<Client<I, O>>)>
    requires pass { IsPass volume.now.lock.table.shared.table_id volume.now.geometry volume.now.cipher pass.old.seat }
    requires open { NothingOpen (view pass.old.seat) }
    requires sector { IsSectorSize volume.now.geometry.sector }
    requires some { 1 ≤ length clients.items }
    requires few { length clients.items ≤ 16 }
    requires helpers { helpers ≤ 8 }
    ensures pass { IsPass volume.now.lock.table.shared.table_id volume.now.geometry volume.now.cipher pass.new.seat }
    ensures open { NothingOpen (view pass.new.seat) }
    ensures same { IsBack (view pass.old.seat) (view pass.new.seat) }
    ensures settled { SameUnder caller_of (numbers_of (view pass.old.seat)) (view pass.new.seat).seen (view pass.old.seat).seen }
    ensures served { IfOk result (λ s. AreServed ⟦<I as Source>⟧ ⟦<O as Sink>⟧ volume.now.geometry.sector
        (view pass.new.seat).seen clients.items s.clients.items s.ends.items s.replies.items s.callers.items) }
    ensures callers { IfOk result (λ s. AreNew (view pass.old.seat).given s.callers.items) }
    ensures under { IfOk result (λ s. Gained s.callers.items (view pass.old.seat) (view pass.new.seat)) }
    ensures err { IfErr result (λ e. (e.1 ≡ clients) × (view pass.new.seat ≡ view pass.old.seat)) }
{
    match serve_all(rt, alloc, volume, pass, clients, helpers, None, gate) {
        Ok((served, _hands)) => Ok(served),
        Err(back) => Err(back),
    }
}

/// Serves clients as `serve` does, each with a handshake before its session, and returns besides how the handshakes
/// ended, item i for client i. The export is the volume, with its size in bytes. A client whose handshake ended
/// otherwise than `Go` has no session: its end is `Done`, with no reply and no entry.
pub fn serve_hand<
    R: Threads + Wait + Sync,
    S: Store + Send,
    C: UnitCipher + Send + Sync,
    I: Source + Send,
    O: Sink + Send,
    G: Gate,
>(
    rt: &R,
    alloc: Global,
    volume: &Volume<S, C>,
    pass: &mut Pass<Core<S, C>>,
    clients: Vec<Client<I, O>>,
    helpers: u32,
    gate: &G,
) -> Result<(Served<I, O>, Vec<HandEnd>), (NoMemory, Vec<Client<I, O>>)>
    requires pass { IsPass volume.now.lock.table.shared.table_id volume.now.geometry volume.now.cipher pass.old.seat }
    requires open { NothingOpen (view pass.old.seat) }
    requires sector { IsSectorSize volume.now.geometry.sector }
    requires some { 1 ≤ length clients.items }
    requires few { length clients.items ≤ 16 }
    requires helpers { helpers ≤ 8 }
    ensures pass { IsPass volume.now.lock.table.shared.table_id volume.now.geometry volume.now.cipher pass.new.seat }
    ensures open { NothingOpen (view pass.new.seat) }
    ensures same { IsBack (view pass.old.seat) (view pass.new.seat) }
    ensures settled { SameUnder caller_of (numbers_of (view pass.old.seat)) (view pass.new.seat).seen (view pass.old.seat).seen }
    ensures served { IfOk result (λ r. AreGreeted ⟦<I as Source>⟧ ⟦<O as Sink>⟧ (Some (size_of volume.now.geometry))
        volume.now.geometry.sector (view pass.new.seat).seen clients.items r.0.clients.items r.1.items r.0.ends.items r.0.replies.items r.0.callers.items) }
    ensures callers { IfOk result (λ r. AreNew (view pass.old.seat).given r.0.callers.items) }
    ensures under { IfOk result (λ r. Gained r.0.callers.items (view pass.old.seat) (view pass.new.seat)) }
    ensures err { IfErr result (λ e. (e.1 ≡ clients) × (view pass.new.seat ≡ view pass.old.seat)) }
{
    let geometry = volume.geometry();
    let size = geometry.sectors * u64::from(geometry.sector);
    serve_all(rt, alloc, volume, pass, clients, helpers, Some(size), gate)
}

// Serves clients, each with a handshake before its session if there is an export of so many bytes to name.
fn serve_all<
    R: Threads + Wait + Sync,
    S: Store + Send,
    C: UnitCipher + Send + Sync,
    I: Source + Send,
    O: Sink + Send,
    G: Gate,
>(
    rt: &R,
    alloc: Global,
    volume: &Volume<S, C>,
    pass: &mut Pass<Core<S, C>>,
    clients: Vec<Client<I, O>>,
    helpers: u32,
    export: Option<u64>,
    gate: &G,
) -> Result<(Served<I, O>, Vec<HandEnd>), (NoMemory, Vec<Client<I, O>>)>
    requires pass { IsPass volume.now.lock.table.shared.table_id volume.now.geometry volume.now.cipher pass.old.seat }
    requires open { NothingOpen (view pass.old.seat) }
    requires sector { IsSectorSize volume.now.geometry.sector }
    requires some { 1 ≤ length clients.items }
    requires few { length clients.items ≤ 16 }
    requires helpers { helpers ≤ 8 }
    ensures pass { IsPass volume.now.lock.table.shared.table_id volume.now.geometry volume.now.cipher pass.new.seat }
    ensures open { NothingOpen (view pass.new.seat) }
    ensures same { IsBack (view pass.old.seat) (view pass.new.seat) }
    ensures settled { SameUnder caller_of (numbers_of (view pass.old.seat)) (view pass.new.seat).seen (view pass.old.seat).seen }
    ensures served { IfOk result (λ r. AreGreeted ⟦<I as Source>⟧ ⟦<O as Sink>⟧ export volume.now.geometry.sector
        (view pass.new.seat).seen clients.items r.0.clients.items r.1.items r.0.ends.items r.0.replies.items r.0.callers.items) }
    ensures alone { export ≡ None → IfOk result (λ r. AreServed ⟦<I as Source>⟧ ⟦<O as Sink>⟧ volume.now.geometry.sector
        (view pass.new.seat).seen clients.items r.0.clients.items r.0.ends.items r.0.replies.items r.0.callers.items) }
    ensures callers { IfOk result (λ r. AreNew (view pass.old.seat).given r.0.callers.items) }
    ensures under { IfOk result (λ r. Gained r.0.callers.items (view pass.old.seat) (view pass.new.seat)) }
    ensures err { IfErr result (λ e. (e.1 ≡ clients) × (view pass.new.seat ≡ view pass.old.seat)) }
{
    let count = clients.len();
    let room = Room::new(alloc, count as u32, helpers);
    let Ok(room) = room else {
        return Err((NoMemory, clients));
    };
    let Room {
        mut lists,
        benches,
        helpers,
        mut works,
        mut tasks,
    } = room;
    line_up(clients, benches, helpers, &mut works);
    split_all(rt, volume, pass, works, &mut tasks);
    run_all(rt, alloc, volume, gate, export, count, tasks.as_mut_slice());
    join_all(volume, pass, tasks, &mut lists);
    let Lists { served, hands } = lists;
    Ok((served, hands))
}
