//! All derivations, side by side.
ghost use Rattle.std.specs.Prelude.{◌≡◌, ◌≤◌, ◌<◌, ℕ, length, IfOk, slice_index_or};
ghost use Rattle.kdf_hmac.specs.Pbkdf2.{IsPim};
ghost use Rattle.race_word.specs.Known.{IsRunnerOf};
ghost use Rattle.header_race.specs.declared.task.Task.{Task};
ghost use Rattle.header_race.specs.Laws.Race.{AreReady, HaveRun, HasRun, IsOf, IsReady, IsWon};

use crate::derivation::{EACH, run};
use crate::entrant::{Entrant, MOST, Numbers};
use crate::task::{Outcome, Task};
use header_seal::Opened;
use kdf_hmac::Password;
use race_word::{Least, Runner};
use std::alloc::{AllocError, Global};
use std::snapshot::Snapshot;
use std::thread;
use std::thread::Threads;
use vc_outside::Gate;

/// No candidate has this number.
const LIMIT: u64 = MOST as u64 * EACH;

/// Runs the derivations on that many workers, and returns the first valid candidate.
pub(crate) fn race<R: Threads + Sync, G: Gate>(
    rt: &R,
    alloc: Global,
    numbers: Numbers,
    entrants: &Vec<Entrant>,
    p: &Password,
    workers: usize,
    gate: &G,
) -> Result<Option<Opened>, AllocError>
    requires pim { IsPim numbers.pim }
    requires len { 262656 ≤ numbers.len }
    requires race { IsOf numbers p.now numbers.pim numbers.len }
    requires entrants { numbers.entrants.value ≡ entrants.now }
    requires workers { 0 < workers }
    ensures { IfOk result (IsWon numbers) }
{
    let pim = numbers.pim;
    let len = numbers.len;
    let (least, mut first) = Least::new(alloc, numbers, LIMIT)?;
    let mut tasks = tasks_of(alloc, &least, &mut first, entrants)?;
    run_all(rt, &least, gate, p, pim, len, workers, tasks.as_mut_slice());
    Ok(settle(tasks.as_slice(), &least))
}

// A task for each derivation.
fn tasks_of(
    alloc: Global,
    least: &Least<Numbers>,
    first: &mut Runner<Numbers>,
    entrants: &Vec<Entrant>,
) -> Result<Vec<Task>, AllocError>
    requires few { length entrants.now.items < 5 }
    requires entrants { least.now.key.names.entrants.value ≡ entrants.now }
    requires runner { IsRunnerOf least.now.table.shared.table_id least.now.key first.old.seat }
    ensures { IfOk result (λ tasks. AreReady least.now.table.shared.table_id least.now.key tasks.items) }
{
    let mut tasks = Vec::new(alloc);
    for (i, entrant) in entrants.iter().enumerate() {
        tasks.reserve(1)?;
        let task = Task {
            number: i as u32,
            entrant: *entrant,
            runner: least.runner(first),
            outcome: Outcome::NotRun,
        };
        tasks.push_reserved(task);
    }
    Ok(tasks)
}

// Runs the tasks on that many workers.
fn run_all<R: Threads + Sync, G: Gate>(
    rt: &R,
    least: &Least<Numbers>,
    gate: &G,
    p: &Password,
    pim: u32,
    len: u64,
    workers: usize,
    tasks: &mut [Task],
)
    requires pim { IsPim pim }
    requires len { 262656 ≤ len }
    requires race { IsOf least.now.key.names p.now pim len }
    requires limit { least.now.key.limit ≡ 32 }
    requires workers { 0 < workers }
    requires tasks { AreReady least.now.table.shared.table_id least.now.key tasks.old }
    ensures tasks { HaveRun least.now.key.names tasks.new }
{
    thread::for_each_mut(
        rt,
        tasks,
        workers,
        &|i, task: &mut Task|
            requires { IsPim pim × (262656 ≤ len) × IsOf least.now.key.names p.now pim len × (least.now.key.limit ≡ 32)
                × IsReady least.now.table.shared.table_id least.now.key task.old × (task.old.number ≡ i) }
            ensures { HasRun least.entry.now.key.names task.new × (task.new.number ≡ i) }
        { run(least, gate, p, pim, len, task) },
    );
}

// The first valid candidate, by the outcomes of all derivations. A derivation that stopped names a smaller valid
// candidate, so one before it has one.
fn settle(tasks: &[Task], least: &Least<Numbers>) -> Option<Opened>
    requires { HaveRun least.now.key.names tasks.now }
    ensures { IsWon least.now.key.names result }
{
    for task in tasks {
        match task.outcome {
            Outcome::NoneValid => {}
            Outcome::Valid(algorithm, fields) => {
                return Some(Opened {
                    slot: task.entrant.slot,
                    prf: task.entrant.prf,
                    algorithm,
                    fields,
                });
            }
            Outcome::Stopped(_) => unreachable!(),
            Outcome::NotRun => unreachable!(),
        }
    }
    None
}
