//! The memory of a server, all of it taken before the first pass is split.
ghost use Rattle.std.specs.Prelude.{◌≡◌, ◌+◌, ◌<◌, ◌≤◌, [], length, vec_capacity, All, IfOk};
ghost use Rattle.vol_server.specs.Laws.Lists.{AreEmpty, HaveRoom};
ghost use Rattle.vol_server.specs.Laws.Tasks.{IsEmptyBench};

use crate::served::Lists;
use crate::task::{Task, Work};
use frag_pool::{Bench, Helper, Pool};
use hist_lock::Standing;
use std::alloc::{AllocError, Global};

/// What a server needs for its clients and helpers.
pub(crate) struct Room<T: Standing, I, O> {
    pub(crate) lists: Lists<I, O>,
    pub(crate) benches: Vec<Bench>,
    pub(crate) helpers: Vec<Helper>,
    pub(crate) works: Vec<Work<I, O>>,
    pub(crate) tasks: Vec<Task<T, I, O>>,
}

impl<T: Standing, I, O> Room<T, I, O> {
    // Empty benches and new helpers, and empty lists with room for all clients and helpers.
    pub(crate) fn new(
        alloc: Global,
        clients: u32,
        helpers: u32,
    ) -> Result<Room<T, I, O>, AllocError>
        requires some { 0 < clients }
        requires few { clients ≤ 16 }
        requires helpers { helpers ≤ 8 }
        ensures benches { IfOk result (λ r. (length r.benches.items ≡ clients) × All IsEmptyBench r.benches.items) }
        ensures helpers { IfOk result (λ r. length r.helpers.items ≡ helpers) }
        ensures empty { IfOk result (λ r. AreEmpty r.lists × (r.works.items ≡ []) × (r.tasks.items ≡ [])) }
        ensures room { IfOk result (λ r. HaveRoom (clients + helpers) r.lists
            × (clients + helpers ≤ vec_capacity r.works) × (clients + helpers ≤ vec_capacity r.tasks)) }
    {
        let count = clients as usize + helpers as usize;
        let (benches, helpers) = Pool::new(alloc, clients, helpers)?;
        let lists = Lists::with_room(alloc, count)?;
        let Ok(works) = Vec::with_capacity(alloc, count) else {
            lists.destroy_empty();
            return Err(AllocError);
        };
        let Ok(tasks) = Vec::with_capacity(alloc, count) else {
            lists.destroy_empty();
            works.destroy_empty();
            return Err(AllocError);
        };
        Ok(Room {
            lists,
            benches,
            helpers,
            works,
            tasks,
        })
    }
}
