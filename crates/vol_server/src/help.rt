//! A helper: it takes fragments of the clients' writes until all clients have ended.
ghost use Rattle.std.specs.Prelude.{[]};
ghost use Rattle.hist_lock.specs.Known.{view};
ghost use Rattle.io_queue.specs.Pass.{Call, IsPass, NothingOpen};

use crate::ended::Ended;
use cipher_base::UnitCipher;
use frag_pool::Helper;
use hist_lock::Pass;
use io_core::Core;
use io_queue::Volume;
use std::sync::Wait;
use std::thread::Threads;
use vc_outside::{Gate, Store};

/// Helps until all clients have ended. It adds no entry of its own. The news are read before anything is looked for, so
/// a push or an end that comes after that wakes it.
pub(crate) fn help<R: Threads + Wait + Sync, S: Store, C: UnitCipher, G: Gate>(
    rt: &R,
    volume: &Volume<S, C>,
    pass: &mut Pass<Core<S, C>>,
    gate: &G,
    ended: &Ended,
    helper: &mut Helper,
)
    requires pass { IsPass volume.now.lock.table.shared.table_id volume.now.geometry volume.now.cipher pass.old.seat }
    requires open { NothingOpen (view pass.old.seat) }
    ensures pass { IsPass volume.now.lock.table.shared.table_id volume.now.geometry volume.now.cipher pass.new.seat }
    ensures open { NothingOpen (view pass.new.seat) }
    ensures call { Call (view pass.old.seat) (view pass.new.seat) [] }
{
    'looks: for _ in rt.forever() {
        let seen = volume.news();
        if ended.are_all() {
            return;
        }
        if !volume.help_one(rt, pass, helper, gate) {
            volume.wait_for_news(rt, seen);
        }
    }
}
