//! A pass for each thread.
ghost use Rattle.std.specs.Prelude.{◌≡◌, ◌≤◌, [], length, map, vec_capacity};
ghost use Rattle.hist_lock.specs.Known.{view};
ghost use Rattle.io_queue.specs.Pass.{IsPass, NothingOpen};
ghost use Rattle.vol_server.specs.Laws.Tasks.{HasSplit, work_of};

use crate::task::{Task, Work};
use cipher_base::UnitCipher;
use hist_lock::Pass;
use io_core::Core;
use io_queue::Volume;
use std::sync::Wait;
use std::thread::Threads;
use vc_outside::Store;

/// Splits a pass for each work, in their order.
pub(crate) fn split_all<R: Threads + Wait + Sync, S: Store, C: UnitCipher, I, O>(
    rt: &R,
    volume: &Volume<S, C>,
    pass: &mut Pass<Core<S, C>>,
    works: Vec<Work<I, O>>,
    tasks: &mut Vec<Task<Core<S, C>, I, O>>,
)
    requires pass { IsPass volume.now.lock.table.shared.table_id volume.now.geometry volume.now.cipher pass.old.seat }
    requires open { NothingOpen (view pass.old.seat) }
    requires empty { tasks.old.items ≡ [] }
    requires room { length works.items ≤ vec_capacity tasks.old }
    ensures pass { IsPass volume.now.lock.table.shared.table_id volume.now.geometry volume.now.cipher pass.new.seat }
    ensures open { NothingOpen (view pass.new.seat) }
    ensures works { map work_of tasks.new.items ≡ works.items }
    ensures split { HasSplit volume.now.lock.table.shared.table_id volume.now.geometry volume.now.cipher
        (view pass.old.seat) (view pass.new.seat) tasks.new.items }
{
    let mut waiting = works.into_iter();
    let count = waiting.len();
    'works: for n in 0..count {
        let next = waiting.next();
        let Some(work) = next else { unreachable!() };
        let task = Task {
            pass: volume.split(rt, pass),
            work,
        };
        tasks.push_reserved(task);
    }
    waiting.destroy_empty();
}
