//! One derivation, on one worker.
ghost use Rattle.std.specs.Prelude.{◌≡◌, ◌≤◌, ◌<◌, IfOk, IfErr};
ghost use Rattle.kdf_hmac.specs.Pbkdf2.{IsPim, derived};
ghost use Rattle.vc_header.specs.Header.{salt_of};
ghost use Rattle.race_word.specs.Known.{IsRunnerOf};
ghost use Rattle.header_race.specs.Laws.Race.{HasRun, IsAt, IsOf, IsOutcome, IsReady, IsValidNumber};

use crate::entrant::{Entrant, Numbers};
use crate::task::{Outcome, Task};
use header_try::try_slot;
use kdf_hmac::{Derive, Password, iterations};
use race_word::{Least, Runner};
use vc_header::{HeaderView, MATERIAL, SALT};
use vc_outside::Gate;

/// How many iterations are taken between two looks.
const BATCH: u32 = 1024;

/// How many candidates a derivation has.
pub(crate) const EACH: u64 = 8;

/// The gate point before derivation 0 begins. Those of the others follow.
const BEGINS: u32 = 100_000;

/// The gate point when derivation 0 has looked for the first time. Those of the others follow.
const LOOKED: u32 = 200_000;

/// Runs a task: it ends with its least valid candidate or none, or stops since a smaller number is valid.
pub(crate) fn run<G: Gate>(
    least: &Least<Numbers>,
    gate: &G,
    p: &Password,
    pim: u32,
    len: u64,
    task: &mut Task,
)
    requires pim { IsPim pim }
    requires len { 262656 ≤ len }
    requires race { IsOf least.now.key.names p.now pim len }
    requires limit { least.now.key.limit ≡ 32 }
    requires task { IsReady least.now.table.shared.table_id least.now.key task.old }
    ensures task { HasRun least.now.key.names task.new }
    ensures number { task.new.number ≡ task.old.number }
{
    let entrant = task.entrant;
    gate.pass(BEGINS + task.number);
    let told = least.look(&mut task.runner);
    gate.pass(LOOKED + task.number);
    if told < u64::from(task.number) * EACH {
        task.outcome = Outcome::Stopped(told);
        return;
    }
    task.outcome = outcome_of(least, p, pim, len, &entrant, task.number, &mut task.runner);
}

// How a derivation goes after the first look.
fn outcome_of(
    least: &Least<Numbers>,
    p: &Password,
    pim: u32,
    len: u64,
    entrant: &Entrant,
    number: u32,
    runner: &mut Runner<Numbers>,
) -> Outcome
    requires pim { IsPim pim }
    requires len { 262656 ≤ len }
    requires race { IsOf least.now.key.names p.now pim len }
    requires limit { least.now.key.limit ≡ 32 }
    requires runner { IsRunnerOf least.now.table.shared.table_id least.now.key runner.old.seat }
    requires at { IsAt least.now.key.names number entrant.now }
    ensures outcome { IsOutcome least.now.key.names number entrant.now result }
{
    let first = u64::from(number) * EACH;
    match derive_or_stop(least, p, pim, entrant, first, runner) {
        Err(told) => Outcome::Stopped(told),
        Ok(key) => match try_slot(&key, &entrant.header, entrant.slot, len) {
            None => Outcome::NoneValid,
            Some((algorithm, fields)) => {
                let _ = least.offer(runner, first + u64::from(algorithm.number()));
                Outcome::Valid(algorithm, fields)
            }
        },
    }
}

// The derived key, or a valid number below `first` that was told meanwhile.
#[tactic(auto, unfolding(kdf_hmac::specs::Pbkdf2::derived))]
fn derive_or_stop(
    least: &Least<Numbers>,
    p: &Password,
    pim: u32,
    entrant: &Entrant,
    first: u64,
    runner: &mut Runner<Numbers>,
) -> Result<[u8; MATERIAL], u64>
    requires pim { IsPim pim }
    requires limit { (least.now.key.limit ≡ 32) × (first ≤ 32) }
    requires runner { IsRunnerOf least.now.table.shared.table_id least.now.key runner.old.seat }
    ensures runner { IsRunnerOf least.now.table.shared.table_id least.now.key runner.new.seat }
    ensures key { IfOk result (λ k. k ≡ derived entrant.now.prf p.now pim (salt_of entrant.now.header)) }
    ensures told { IfErr result (λ n. (n < first) × IsValidNumber least.now.key.names n) }
{
    let mut salt = [0u8; SALT];
    salt.copy_from_slice(HeaderView::new(&entrant.header).salt());
    let mut derive = Derive::new(entrant.prf, p, &salt, iterations(pim));
    let mut left = derive.remaining();
    'batches: while left >= u64::from(BATCH) {
        derive.advance(BATCH);
        left -= u64::from(BATCH);
        let told = least.look(runner);
        if told < first {
            return Err(told);
        }
    }
    // what is left is less than a batch
    derive.advance(BATCH);
    Ok(derive.finish())
}
