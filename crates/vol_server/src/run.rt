//! The works, side by side.
ghost use Rattle.std.specs.Prelude.{◌≡◌, ◌<◌, All};
ghost use Rattle.vc_layout.specs.Layout.{IsSectorSize};
ghost use Rattle.vol_server.specs.Laws.Tasks.{CanRun, HasRun, HaveRun, IsReady};

use crate::client::serve_client;
use crate::ended::Ended;
use crate::help::help;
use crate::task::{Task, Work};
use cipher_base::UnitCipher;
use io_core::Core;
use io_queue::Volume;
use std::alloc::Global;
use std::sync::Wait;
use std::thread;
use std::thread::Threads;
use vc_outside::{Gate, Sink, Source, Store};

/// The number of clients and helpers at most, each of which has a thread.
const MOST: usize = 24;

/// Does the work of each task. Without threads one is done after another, and clients come before helpers: so the
/// helpers find that all clients have ended.
pub(crate) fn run_all<
    R: Threads + Wait + Sync,
    S: Store + Send,
    C: UnitCipher + Send + Sync,
    I: Source + Send,
    O: Sink + Send,
    G: Gate,
>(
    rt: &R,
    alloc: Global,
    volume: &Volume<S, C>,
    gate: &G,
    export: Option<u64>,
    clients: usize,
    tasks: &mut [Task<Core<S, C>, I, O>],
)
    requires sector { IsSectorSize volume.now.geometry.sector }
    requires tasks { All (CanRun volume.now.lock.table.shared.table_id volume.now.geometry volume.now.cipher) tasks.old }
    requires ready { All (λ t. IsReady t.work) tasks.old }
    ensures { HaveRun volume.now.lock.table.shared.table_id volume.now.geometry volume.now.cipher
        ⟦<I as Source>⟧ ⟦<O as Sink>⟧ export tasks.old tasks.new }
{
    let ended = Ended::new(clients as u64);
    thread::for_each_mut(
        rt,
        tasks,
        MOST,
        &|_, task: &mut Task<Core<S, C>, I, O>|
            requires { IsSectorSize volume.now.geometry.sector
                × CanRun volume.now.lock.table.shared.table_id volume.now.geometry volume.now.cipher task.old
                × IsReady task.old.work }
            ensures { HasRun volume.entry.now.lock.table.shared.table_id volume.entry.now.geometry volume.entry.now.cipher
                I.Source O.Sink export task.old task.new }
        { run(rt, alloc, volume, gate, export, &ended, task) },
    );
}

// Does one work. The end of a client is news for the helpers.
fn run<
    R: Threads + Wait + Sync,
    S: Store + Send,
    C: UnitCipher + Send + Sync,
    I: Source + Send,
    O: Sink + Send,
    G: Gate,
>(
    rt: &R,
    alloc: Global,
    volume: &Volume<S, C>,
    gate: &G,
    export: Option<u64>,
    ended: &Ended,
    task: &mut Task<Core<S, C>, I, O>,
)
    requires sector { IsSectorSize volume.now.geometry.sector }
    requires task { CanRun volume.now.lock.table.shared.table_id volume.now.geometry volume.now.cipher task.old }
    requires ready { IsReady task.old.work }
    ensures { HasRun volume.now.lock.table.shared.table_id volume.now.geometry volume.now.cipher
        ⟦<I as Source>⟧ ⟦<O as Sink>⟧ export task.old task.new }
{
    match &mut task.work {
        Work::Serve(service) => {
            serve_client(rt, alloc, volume, &mut task.pass, gate, export, service);
            ended.add();
            volume.tell_news();
        }
        Work::Help(helper) => help(rt, volume, &mut task.pass, gate, ended, helper),
    }
}
