//! A session whose requests are carried out side by side.
ghost use Rattle.std.specs.Prelude.{◌≡◌, ◌<◌, ◌≤◌, ◌+◌, ℕ, All, List, length, map, Some};
ghost use Rattle.hist_lock.specs.Known.{view};
ghost use Rattle.io_queue.specs.Pass.{IsPass, NothingOpen};
ghost use Rattle.nbd_wire.specs.Frames.{Frame};
ghost use Rattle.pipe_lane.specs.Lanes.{IsFree, IsLane, stage_in, view_in};
ghost use Rattle.pipe_session.specs.Laws.Running.{Waved};
ghost use Rattle.pipe_session.specs.Laws.Taking.{HasWave};
ghost use Rattle.pipe_session.specs.Meeting.{HaveSeen, HaveServed};
ghost use Rattle.pipe_session.specs.ToldPipe.{ServesPipe};
ghost use Rattle.sector_model.specs.declared.entry.Entry.{Entry};
ghost use Rattle.vc_base.specs.Faults.{HasCause, Rose};
ghost use Rattle.vc_layout.specs.Layout.{IsSectorSize};

use crate::meet::meet;
use crate::run::run_wave;
use crate::send::send_replies;
use crate::take::take_wave;
use cipher_base::UnitCipher;
use hist_lock::Pass;
use io_core::Core;
use io_queue::Volume;
use nbd_wire::End;
use pipe_lane::{Lane, Next};
use std::alloc::Global;
use std::sync::Wait;
use std::thread::Threads;
use vc_outside::{Client, Gate, Sink, Source, Store};

/// Serves one client, and carries out its requests in waves: the requests of one wave at the same time, each in a lane. The
/// replies of a wave are written in the order of its requests, and then the passes of all lanes meet, so that the next wave
/// follows this one. Returns how the session ended, and how many replies were written whole.
///
/// A wave is carried out once it is known which requests it has: once it has as many as there are lanes, and else by the
/// next request, which doesn't join it, by a flush or a malformed request, or by the end of the client's bytes. So with
/// several lanes a client that waits for the reply to a read or a write before it sends more waits for ever.
///
/// A write that is denied refuses those of its own wave that take effect after it, also if they stand before it.
pub fn pipe<
    R: Threads + Wait + Sync,
    S: Store + Send,
    C: UnitCipher + Send + Sync,
    I: Source,
    O: Sink,
    G: Gate,
>(
    rt: &R,
    alloc: Global,
    volume: &Volume<S, C>,
    pass: &mut Pass<Core<S, C>>,
    lanes: &mut [Lane<Core<S, C>>],
    gate: &G,
    link: &mut Client<I, O>,
) -> (End, u64)
    requires pass { IsPass volume.now.lock.table.shared.table_id volume.now.geometry volume.now.cipher pass.old.seat }
    requires open { NothingOpen (view pass.old.seat) }
    requires sector { IsSectorSize volume.now.geometry.sector }
    requires some { 1 ≤ length lanes.old }
    requires few { length lanes.old ≤ 8 }
    requires lanes { All (IsLane volume.now.lock.table.shared.table_id volume.now.geometry volume.now.cipher) lanes.old }
    requires free { All IsFree (map stage_in lanes.old) }
    ensures pass { IsPass volume.now.lock.table.shared.table_id volume.now.geometry volume.now.cipher pass.new.seat }
    ensures open { NothingOpen (view pass.new.seat) }
    ensures lanes { All (IsLane volume.now.lock.table.shared.table_id volume.now.geometry volume.now.cipher) lanes.new }
    ensures free { All IsFree (map stage_in lanes.new) }
    ensures seen { HaveSeen (view pass.new.seat) (map view_in lanes.new) }
    ensures served { (h : List Entry) × HaveServed (view pass.old.seat) (view pass.new.seat) (map view_in lanes.old) (map view_in lanes.new) h
        × ServesPipe volume.now.geometry.sector (map (λ v. v.number) (map view_in lanes.old)) (I.left link.old.source) (I.left link.new.source)
        (O.contents link.old.sink) (O.contents link.new.sink) (Rose (I.faults link.old.source) (I.faults link.new.source)) h result.1 result.0 }
    ensures read_fault { HasCause (I.faults link.old.source) (I.faults link.new.source) (result.0 ≡ End.ReadFault) }
    ensures write_fault { HasCause (O.faults link.old.sink) (O.faults link.new.sink) (result.0 ≡ End.WriteFault) }
{
    meet(rt, volume, pass, lanes);
    let mut next = Next::Unknown;
    let mut replies = 0u64;
    'waves: for n in 0..u64::MAX / 8 {
        let (found, count) = take_wave(alloc, volume, &mut link.source, next, lanes);
        next = found;
        if count == 0 {
            return (end_of(next), replies);
        }
        let (sent, refused) = serve_wave(rt, alloc, volume, pass, lanes, gate, &mut link.sink);
        replies += sent;
        if let Some(end) = refused {
            return (end, replies);
        }
    }
    for _ in rt.forever() {}
    unreachable!()
}

// Carries out the wave that waits in the lanes, and writes its replies.
fn serve_wave<
    R: Threads + Wait + Sync,
    S: Store + Send,
    C: UnitCipher + Send + Sync,
    O: Sink,
    G: Gate,
>(
    rt: &R,
    alloc: Global,
    volume: &Volume<S, C>,
    pass: &mut Pass<Core<S, C>>,
    lanes: &mut [Lane<Core<S, C>>],
    gate: &G,
    sink: &mut O,
) -> (u64, Option<End>)
    requires pass { IsPass volume.now.lock.table.shared.table_id volume.now.geometry volume.now.cipher pass.old.seat }
    requires open { NothingOpen (view pass.old.seat) }
    requires sector { IsSectorSize volume.now.geometry.sector }
    requires some { 1 ≤ length lanes.old }
    requires few { length lanes.old ≤ 8 }
    requires lanes { All (IsLane volume.now.lock.table.shared.table_id volume.now.geometry volume.now.cipher) lanes.old }
    requires wave { (wave : List Frame) × HasWave volume.now.geometry.sector wave (map stage_in lanes.old) }
    ensures pass { IsPass volume.now.lock.table.shared.table_id volume.now.geometry volume.now.cipher pass.new.seat }
    ensures open { NothingOpen (view pass.new.seat) }
    ensures lanes { All (IsLane volume.now.lock.table.shared.table_id volume.now.geometry volume.now.cipher) lanes.new }
    ensures free { All IsFree (map stage_in lanes.new) }
    ensures seen { HaveSeen (view pass.new.seat) (map view_in lanes.new) }
    ensures waved { (wave : List Frame) → HasWave volume.now.geometry.sector wave (map stage_in lanes.old) → length wave ≤ length lanes.old
        → Waved volume.now.geometry.sector wave (view pass.old.seat) (view pass.new.seat) (map view_in lanes.old) (map view_in lanes.new)
        (O.contents sink.old) (O.contents sink.new) result.0 result.1 }
    ensures few { result.0 ≤ 8 }
    ensures cause { HasCause (O.faults sink.old) (O.faults sink.new) (result.1 ≡ Some End.WriteFault) }
{
    run_wave(rt, alloc, volume, gate, lanes);
    let sent = send_replies(volume, sink, lanes);
    meet(rt, volume, pass, lanes);
    sent
}

// How the session ends if there is no other request.
fn end_of(next: Next) -> End
    ensures { (how : End) → next ≡ Next.Over how → result ≡ how }
{
    match next {
        Next::Over(end) => end,
        Next::Unknown => End::Done,
        Next::Asked(_) => End::Done,
    }
}
