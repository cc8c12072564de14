//! The replies of a wave.
ghost use Rattle.std.specs.Prelude.{◌≡◌, ◌<◌, ◌≤◌, ◌+◌, ◌++◌, ℕ, All, List, length, map, Option, Some};
ghost use Rattle.std.specs.List.{flat_map};
ghost use Rattle.pipe_lane.specs.Lanes.{IsFree, IsLane, stage_in, view_in};
ghost use Rattle.pipe_session.specs.Laws.Sending.{IsSent, replies_in};
ghost use Rattle.vc_base.specs.Faults.{HasCause};

use cipher_base::UnitCipher;
use io_core::Core;
use io_queue::Volume;
use nbd_wire::End;
use pipe_lane::{Lane, Stage, send_reply};
use std::mem;
use vc_outside::{Sink, Store};

/// Writes the replies of the lanes whose requests were carried out, in order, until the sink refuses one, and frees all lanes.
/// Returns how many replies were written whole, and how the session ends if one was refused.
pub(crate) fn send_replies<S: Store, C: UnitCipher, O: Sink>(
    volume: &Volume<S, C>,
    sink: &mut O,
    lanes: &mut [Lane<Core<S, C>>],
) -> (u64, Option<End>)
    requires few { length lanes.old ≤ 8 }
    requires lanes { All (IsLane volume.now.lock.table.shared.table_id volume.now.geometry volume.now.cipher) lanes.old }
    ensures lanes { All (IsLane volume.now.lock.table.shared.table_id volume.now.geometry volume.now.cipher) lanes.new }
    ensures views { map view_in lanes.new ≡ map view_in lanes.old }
    ensures free { All IsFree (map stage_in lanes.new) }
    ensures sent { IsSent (O.contents sink.old) (O.contents sink.new) (flat_map replies_in (map stage_in lanes.old)) result.0 result.1 }
    ensures few { result.0 ≤ 8 }
    ensures cause { HasCause (O.faults sink.old) (O.faults sink.new) (result.1 ≡ Some End.WriteFault) }
{
    let _ = volume;
    let mut sent = 0u64;
    let mut ended = None;
    'lanes: for i in 0..lanes.len() {
        let stage = mem::replace(&mut lanes[i].stage, Stage::Free);
        let (count, end) = send_next(sink, stage, sent, ended);
        sent = count;
        ended = end;
    }
    (sent, ended)
}

// Writes the reply of one more lane, if it has one and none was refused so far.
fn send_next<O: Sink>(
    sink: &mut O,
    stage: Stage,
    sent: u64,
    ended: Option<End>,
) -> (u64, Option<End>)
    requires few { sent < 8 }
    ensures sent { (held : Option (List ℕ)) (rs : List (List ℕ)) → IsSent held (O.contents sink.old) rs sent ended
        → IsSent held (O.contents sink.new) (rs ++ replies_in stage) result.0 result.1 }
    ensures few { result.0 ≤ sent + 1 }
    ensures cause { (before : ℕ) → HasCause before (O.faults sink.old) (ended ≡ Some End.WriteFault)
        → HasCause before (O.faults sink.new) (result.1 ≡ Some End.WriteFault) }
{
    if let Some(end) = ended {
        return (sent, Some(end));
    }
    match stage {
        Stage::Done(reply) => match send_reply(sink, reply) {
            Some(end) => (sent, Some(end)),
            None => (sent + 1, None),
        },
        Stage::Free => (sent, None),
        Stage::Waits(_) => (sent, None),
    }
}
