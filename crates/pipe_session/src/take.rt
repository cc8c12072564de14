//! The next wave of a client's requests.
ghost use Rattle.std.specs.Prelude.{◌≡◌, ◌<◌, ◌≤◌, ℕ, true, false, All, IfSome, IsNone, length, List, map, Option};
ghost use Rattle.nbd_wire.specs.Frames.{Frame};
ghost use Rattle.pipe_lane.specs.Lanes.{IsFree, IsLane, stage_in, view_in};
ghost use Rattle.pipe_lane.specs.Queue.{IsNext};
ghost use Rattle.pipe_lane.specs.declared.queued.Queued.{Queued};
ghost use Rattle.pipe_session.specs.Laws.Taking.{TakesWave};
ghost use Rattle.pipe_session.specs.Waves.{is_transfer, joins};
ghost use Rattle.vc_base.specs.Faults.{HasCause};
ghost use Rattle.vc_layout.specs.Layout.{IsSectorSize};

use crate::wave::{is_transfer, joins};
use cipher_base::UnitCipher;
use io_core::Core;
use io_queue::Volume;
use nbd_wire::{Ask, End};
use pipe_lane::{Lane, Next, Queued, Stage, find_next};
use std::alloc::Global;
use vc_outside::{Source, Store};

/// The most lanes that a session has.
pub(crate) const MOST: usize = 8;

/// Takes the requests of the next wave of the source, each into its lane, and returns what comes next, and how many there are:
/// none if the session is over. `first` is what is known of the next request. A wave that no request can join is returned at once.
pub(crate) fn take_wave<S: Store, C: UnitCipher, I: Source>(
    alloc: Global,
    volume: &Volume<S, C>,
    source: &mut I,
    first: Next,
    lanes: &mut [Lane<Core<S, C>>],
) -> (Next, usize)
    requires sector { IsSectorSize volume.now.geometry.sector }
    requires some { 1 ≤ length lanes.old }
    requires few { length lanes.old ≤ 8 }
    requires lanes { All (IsLane volume.now.lock.table.shared.table_id volume.now.geometry volume.now.cipher) lanes.old }
    requires free { All IsFree (map stage_in lanes.old) }
    ensures lanes { All (IsLane volume.now.lock.table.shared.table_id volume.now.geometry volume.now.cipher) lanes.new }
    ensures views { map view_in lanes.new ≡ map view_in lanes.old }
    ensures few { result.1 ≤ length lanes.old }
    ensures taken { (left : Option (List ℕ)) (fs : List Frame) → IsNext volume.now.geometry.sector left (I.left source.old) fs first
        → TakesWave volume.now.geometry.sector (length lanes.old) left (I.left source.new) fs first result.0 (map stage_in lanes.new) result.1 }
    ensures cause { (before : ℕ) → HasCause before (I.faults source.old) (first ≡ Next.Over End.ReadFault)
        → HasCause before (I.faults source.new) (result.0 ≡ Next.Over End.ReadFault) }
{
    let sector = volume.geometry().sector;
    let depth = lanes.len();
    let mut next = first;
    let mut asks = [Ask::Flush; MOST];
    'lanes: for k in 0..depth {
        let found = find_next(alloc, source, sector, next);
        let (taken, rest) = take_out(depth, &asks[..k], found);
        next = rest;
        let Some(queued) = taken else {
            return (next, k);
        };
        let ask = queued.ask;
        asks[k] = ask;
        lanes[k].stage = Stage::Waits(queued);
        if !is_transfer(ask) {
            return (next, k + 1);
        }
    }
    (next, depth)
}

// Takes the next request if it belongs to a wave of at most `depth` requests that has these already.
fn take_out(depth: usize, wave: &[Ask], next: Next) -> (Option<Queued>, Next)
    ensures taken { IfSome result.0 (λ q. (next ≡ Next.Asked q) × (result.1 ≡ Next.Unknown)
        × (0 < length wave.now → joins depth wave.now q.ask ≡ true)) }
    ensures left { IsNone result.0 → (result.1 ≡ next)
        × ((q : Queued) → next ≡ Next.Asked q → (0 < length wave.now) × (joins depth wave.now q.ask ≡ false)) }
{
    match next {
        Next::Asked(queued) => {
            if !belongs(depth, wave, queued.ask) {
                return (None, Next::Asked(queued));
            }
            (Some(queued), Next::Unknown)
        }
        Next::Unknown => (None, Next::Unknown),
        Next::Over(end) => (None, Next::Over(end)),
    }
}

// Whether a request is the first of a wave, or may join those that it has.
fn belongs(depth: usize, wave: &[Ask], ask: Ask) -> bool
    ensures joins { result ≡ true → 0 < length wave.now → joins depth wave.now ask ≡ true }
    ensures not { result ≡ false → (0 < length wave.now) × (joins depth wave.now ask ≡ false) }
{
    if wave.is_empty() {
        return true;
    }
    joins(depth, wave, ask)
}
