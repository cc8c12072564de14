//! One pass again.
ghost use Rattle.std.specs.Prelude.{◌≡◌, All, length, map};
ghost use Rattle.hist_lock.specs.Known.{view};
ghost use Rattle.io_queue.specs.Pass.{IsPass, NothingOpen};
ghost use Rattle.vol_server.specs.Laws.Lists.{AreEmpty, AreListed, HaveRoom};
ghost use Rattle.vol_server.specs.Laws.Tasks.{CanJoin, HasJoined, view_in};

use crate::served::Lists;
use crate::task::Task;
use cipher_base::UnitCipher;
use hist_lock::Pass;
use io_core::Core;
use io_queue::Volume;
use vc_outside::Store;

/// Joins the passes of all tasks, in their order, and lists what the clients among them have.
pub(crate) fn join_all<S: Store, C: UnitCipher, I, O>(
    volume: &Volume<S, C>,
    pass: &mut Pass<Core<S, C>>,
    tasks: Vec<Task<Core<S, C>, I, O>>,
    lists: &mut Lists<I, O>,
)
    requires pass { IsPass volume.now.lock.table.shared.table_id volume.now.geometry volume.now.cipher pass.old.seat }
    requires open { NothingOpen (view pass.old.seat) }
    requires tasks { All (CanJoin volume.now.lock.table.shared.table_id volume.now.geometry volume.now.cipher) tasks.items }
    requires empty { AreEmpty lists.old }
    requires room { HaveRoom (length tasks.items) lists.old }
    ensures pass { IsPass volume.now.lock.table.shared.table_id volume.now.geometry volume.now.cipher pass.new.seat }
    ensures open { NothingOpen (view pass.new.seat) }
    ensures joined { HasJoined (view pass.old.seat) (view pass.new.seat) (map view_in tasks.items) }
    ensures listed { AreListed lists.new tasks.items }
{
    let mut ended = tasks.into_iter();
    let count = ended.len();
    'tasks: for n in 0..count {
        let next = ended.next();
        let Some(task) = next else { unreachable!() };
        let Task { pass: own, work } = task;
        lists.list(work, own.number());
        volume.join(pass, own);
    }
    ended.destroy_empty();
}
