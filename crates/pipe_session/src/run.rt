//! The requests of a wave, side by side.
ghost use Rattle.std.specs.Prelude.{◌≡◌, ◌<◌, ℕ, All, length, map, slice_index_or};
ghost use Rattle.pipe_lane.specs.Lanes.{IsLane};
ghost use Rattle.pipe_lane.specs.declared.lane.Lane.{Lane};
ghost use Rattle.pipe_session.specs.Laws.Running.{HasQueued, HasRun, HaveAllRun};
ghost use Rattle.vc_layout.specs.Layout.{IsSectorSize};

use crate::take::MOST;
use cipher_base::UnitCipher;
use io_core::Core;
use io_queue::Volume;
use pipe_lane::{Lane, carry_out};
use std::alloc::Global;
use std::sync::Wait;
use std::thread;
use std::thread::Threads;
use vc_outside::{Gate, Store};

/// Carries out the requests that wait in the lanes, each in a thread.
pub(crate) fn run_wave<
    R: Threads + Wait + Sync,
    S: Store + Send,
    C: UnitCipher + Send + Sync,
    G: Gate,
>(rt: &R, alloc: Global, volume: &Volume<S, C>, gate: &G, lanes: &mut [Lane<Core<S, C>>])
    requires sector { IsSectorSize volume.now.geometry.sector }
    requires lanes { All (IsLane volume.now.lock.table.shared.table_id volume.now.geometry volume.now.cipher) lanes.old }
    requires queued { All (HasQueued volume.now.geometry.sector) lanes.old }
    ensures { HaveAllRun volume.now.lock.table.shared.table_id volume.now.geometry volume.now.cipher lanes.old lanes.new }
{
    thread::for_each_mut(
        rt,
        lanes,
        MOST,
        &|_, lane: &mut Lane<Core<S, C>>|
            requires { IsSectorSize volume.now.geometry.sector
                × IsLane volume.now.lock.table.shared.table_id volume.now.geometry volume.now.cipher lane.old
                × HasQueued volume.now.geometry.sector lane.old }
            ensures { HasRun volume.entry.now.lock.table.shared.table_id volume.entry.now.geometry volume.entry.now.cipher lane.old lane.new }
        { run(rt, alloc, volume, gate, lane) },
    );
}

// Carries out the request of one lane.
fn run<R: Threads + Wait + Sync, S: Store + Send, C: UnitCipher + Send + Sync, G: Gate>(
    rt: &R,
    alloc: Global,
    volume: &Volume<S, C>,
    gate: &G,
    lane: &mut Lane<Core<S, C>>,
)
    requires sector { IsSectorSize volume.now.geometry.sector }
    requires lane { IsLane volume.now.lock.table.shared.table_id volume.now.geometry volume.now.cipher lane.old }
    requires queued { HasQueued volume.now.geometry.sector lane.old }
    ensures { HasRun volume.now.lock.table.shared.table_id volume.now.geometry volume.now.cipher lane.old lane.new }
{
    carry_out(rt, alloc, volume, gate, lane);
}
