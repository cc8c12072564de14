//! What passes tell one another.
ghost use Rattle.std.specs.Prelude.{◌≡◌, All, map};
ghost use Rattle.hist_lock.specs.History.{StartsWith};
ghost use Rattle.hist_lock.specs.Known.{view};
ghost use Rattle.io_queue.specs.Pass.{IsPass, NothingOpen};
ghost use Rattle.pipe_lane.specs.Lanes.{IsLane, stage_in, view_in};
ghost use Rattle.pipe_session.specs.Laws.Lanes.{HaveMet};
ghost use Rattle.pipe_session.specs.Meeting.{HasTold, HaveSeen};

use cipher_base::UnitCipher;
use hist_lock::Pass;
use io_core::Core;
use io_queue::Volume;
use pipe_lane::Lane;
use std::sync::Wait;
use std::thread::Threads;
use vc_outside::Store;

/// Lets `other` see all that `pass` has seen: a pass is split from `pass` and joined into `other`. Both keep their numbers,
/// and the shares of both together stay what they were.
pub fn tell<R: Threads + Wait + Sync, S: Store, C: UnitCipher>(
    rt: &R,
    volume: &Volume<S, C>,
    pass: &mut Pass<Core<S, C>>,
    other: &mut Pass<Core<S, C>>,
)
    requires pass { IsPass volume.now.lock.table.shared.table_id volume.now.geometry volume.now.cipher pass.old.seat }
    requires other { IsPass volume.now.lock.table.shared.table_id volume.now.geometry volume.now.cipher other.old.seat }
    requires pass_open { NothingOpen (view pass.old.seat) }
    requires other_open { NothingOpen (view other.old.seat) }
    ensures pass { IsPass volume.now.lock.table.shared.table_id volume.now.geometry volume.now.cipher pass.new.seat }
    ensures other { IsPass volume.now.lock.table.shared.table_id volume.now.geometry volume.now.cipher other.new.seat }
    ensures pass_open { NothingOpen (view pass.new.seat) }
    ensures other_open { NothingOpen (view other.new.seat) }
    ensures told { HasTold (view pass.old.seat) (view pass.new.seat) (view other.old.seat) (view other.new.seat) }
{
    let half = volume.split(rt, pass);
    volume.join(other, half);
}

/// Lets the pass and those of all lanes see what any of them has seen. All keep their numbers, and their shares together stay
/// what they were.
pub(crate) fn meet<R: Threads + Wait + Sync, S: Store, C: UnitCipher>(
    rt: &R,
    volume: &Volume<S, C>,
    pass: &mut Pass<Core<S, C>>,
    lanes: &mut [Lane<Core<S, C>>],
)
    requires pass { IsPass volume.now.lock.table.shared.table_id volume.now.geometry volume.now.cipher pass.old.seat }
    requires open { NothingOpen (view pass.old.seat) }
    requires lanes { All (IsLane volume.now.lock.table.shared.table_id volume.now.geometry volume.now.cipher) lanes.old }
    ensures pass { IsPass volume.now.lock.table.shared.table_id volume.now.geometry volume.now.cipher pass.new.seat }
    ensures open { NothingOpen (view pass.new.seat) }
    ensures lanes { All (IsLane volume.now.lock.table.shared.table_id volume.now.geometry volume.now.cipher) lanes.new }
    ensures met { HaveMet (view pass.old.seat) (view pass.new.seat) (map view_in lanes.old) (map view_in lanes.new) }
    ensures seen { HaveSeen (view pass.new.seat) (map view_in lanes.new) }
    ensures stages { map stage_in lanes.new ≡ map stage_in lanes.old }
{
    gather(rt, volume, pass, lanes);
    spread(rt, volume, pass, lanes);
}

// Lets the pass see all that the lanes have seen.
fn gather<R: Threads + Wait + Sync, S: Store, C: UnitCipher>(
    rt: &R,
    volume: &Volume<S, C>,
    pass: &mut Pass<Core<S, C>>,
    lanes: &mut [Lane<Core<S, C>>],
)
    requires pass { IsPass volume.now.lock.table.shared.table_id volume.now.geometry volume.now.cipher pass.old.seat }
    requires open { NothingOpen (view pass.old.seat) }
    requires lanes { All (IsLane volume.now.lock.table.shared.table_id volume.now.geometry volume.now.cipher) lanes.old }
    ensures pass { IsPass volume.now.lock.table.shared.table_id volume.now.geometry volume.now.cipher pass.new.seat }
    ensures open { NothingOpen (view pass.new.seat) }
    ensures lanes { All (IsLane volume.now.lock.table.shared.table_id volume.now.geometry volume.now.cipher) lanes.new }
    ensures met { HaveMet (view pass.old.seat) (view pass.new.seat) (map view_in lanes.old) (map view_in lanes.new) }
    ensures sees { All (λ v. StartsWith (view pass.new.seat).seen v.seen) (map view_in lanes.new) }
    ensures stages { map stage_in lanes.new ≡ map stage_in lanes.old }
{
    'lanes: for i in 0..lanes.len() {
        tell(rt, volume, &mut lanes[i].pass, pass);
    }
}

// Lets the lanes see all that the pass has seen, which is more than each of them has.
fn spread<R: Threads + Wait + Sync, S: Store, C: UnitCipher>(
    rt: &R,
    volume: &Volume<S, C>,
    pass: &mut Pass<Core<S, C>>,
    lanes: &mut [Lane<Core<S, C>>],
)
    requires pass { IsPass volume.now.lock.table.shared.table_id volume.now.geometry volume.now.cipher pass.old.seat }
    requires open { NothingOpen (view pass.old.seat) }
    requires lanes { All (IsLane volume.now.lock.table.shared.table_id volume.now.geometry volume.now.cipher) lanes.old }
    requires sees { All (λ v. StartsWith (view pass.old.seat).seen v.seen) (map view_in lanes.old) }
    ensures pass { IsPass volume.now.lock.table.shared.table_id volume.now.geometry volume.now.cipher pass.new.seat }
    ensures open { NothingOpen (view pass.new.seat) }
    ensures lanes { All (IsLane volume.now.lock.table.shared.table_id volume.now.geometry volume.now.cipher) lanes.new }
    ensures met { HaveMet (view pass.old.seat) (view pass.new.seat) (map view_in lanes.old) (map view_in lanes.new) }
    ensures seen { HaveSeen (view pass.new.seat) (map view_in lanes.new) }
    ensures stages { map stage_in lanes.new ≡ map stage_in lanes.old }
{
    'lanes: for i in 0..lanes.len() {
        tell(rt, volume, pass, &mut lanes[i].pass);
    }
}
