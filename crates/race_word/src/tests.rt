//! Threads that offer numbers to one word.
ghost use Rattle.race_word.specs.Known.{IsRunnerOf};
ghost use Rattle.std.specs.Prelude.{◌≡◌};

use crate::{Least, Names, Runner};
use std::alloc::{AllocError, Global};
use std::test::Fail;
use std::thread;
use std::thread::Threads;

/// The limit of all words here.
const LIMIT: u64 = 1000;

// Every number may be offered.
#[derive(Clone, Copy, Drop)]
struct Each;

impl Names for Each {
    ghost use Rattle.std.specs.Prelude.{⊤};

    ghost names = { λ _ _. ⊤ };
}

// Offers a number, and returns what the word was and what the other runner then finds.
fn offer_and_look(
    least: &Least<Each>,
    mine: &mut Runner<Each>,
    other: &mut Runner<Each>,
    number: u64,
) -> (u64, u64)
    requires mine { IsRunnerOf least.now.table.shared.table_id least.now.key mine.old.seat }
    requires other { IsRunnerOf least.now.table.shared.table_id least.now.key other.old.seat }
    ensures mine { IsRunnerOf least.now.table.shared.table_id least.now.key mine.new.seat }
    ensures other { IsRunnerOf least.now.table.shared.table_id least.now.key other.new.seat }
{
    if number >= least.key.limit {
        return (0, 0);
    }
    (least.offer(mine, number), least.look(other))
}

#[test]
fn the_word_is_the_least_number_offered(rt: HostRuntime) -> Result<(), Fail> {
    let (least, mut first) = Least::new(rt.alloc(), Each, LIMIT)?;
    let mut second = least.runner(&mut first);
    assert_eq!(rt; least.look(&mut second), LIMIT);
    assert_eq!(rt;
        offer_and_look(&least, &mut first, &mut second, 70),
        (LIMIT, 70)
    );
    assert_eq!(rt;
        offer_and_look(&least, &mut second, &mut first, 90),
        (70, 70)
    );
    assert_eq!(rt;
        offer_and_look(&least, &mut first, &mut second, 20),
        (70, 20)
    );
    assert_eq!(rt;
        offer_and_look(&least, &mut first, &mut second, 20),
        (20, 20)
    );
    assert_eq!(rt; offer_and_look(&least, &mut second, &mut first, 0), (20, 0));
    least.rejoin(&mut first, second);
    assert_eq!(rt; least.look(&mut first), 0);
    Ok(())
}

// A thread offers the numbers from `from` down to `to`, and looks after each.
#[derive(Drop)]
struct Task {
    runner: Runner<Each>,
    from: u64,
    to: u64,
    rises: bool,
}

fn offer_all(least: &Least<Each>, task: &mut Task)
    requires { IsRunnerOf least.now.table.shared.table_id least.now.key task.old.runner.seat }
    ensures { IsRunnerOf least.now.table.shared.table_id least.now.key task.new.runner.seat }
{
    let mut bound = LIMIT;
    for below in 0..LIMIT {
        let number = task.from.saturating_sub(below);
        if number >= task.to && number < least.key.limit {
            let before = least.offer(&mut task.runner, number);
            let after = least.look(&mut task.runner);
            if before > bound || after > before || after > number {
                task.rises = true;
            }
            bound = after;
        }
    }
}

fn offer_by_threads<R: Threads + Sync>(
    rt: &R,
    alloc: Global,
    least: &Least<Each>,
    first: &mut Runner<Each>,
    threads: u64,
) -> Result<bool, AllocError>
    requires { IsRunnerOf least.now.table.shared.table_id least.now.key first.old.seat }
    ensures { IsRunnerOf least.now.table.shared.table_id least.now.key first.new.seat }
{
    let mut tasks = Vec::new(alloc);
    for i in 0..threads {
        tasks.reserve(1)?;
        let task = Task {
            runner: least.runner(first),
            from: LIMIT - 1,
            to: 100u64.saturating_sub(i),
            rises: false,
        };
        tasks.push_reserved(task);
    }
    thread::for_each_mut(
        rt,
        tasks.as_mut_slice(),
        16,
        &|_, task: &mut Task|
            requires { IsRunnerOf least.now.table.shared.table_id least.now.key task.old.runner.seat }
            ensures { IsRunnerOf least.entry.now.table.shared.table_id least.entry.now.key task.new.runner.seat }
        { offer_all(least, task) },
    );
    let mut rises = false;
    while let Some(task) = tasks.pop() {
        let Task {
            runner,
            from: _,
            to: _,
            rises: rose,
        } = task;
        least.rejoin(first, runner);
        rises = rises || rose;
    }
    Ok(rises)
}

#[test]
fn what_a_thread_is_told_never_rises(rt: HostRuntime) -> Result<(), Fail> {
    for threads in [1, 2, 4, 8] {
        let (least, mut first) = Least::new(rt.alloc(), Each, LIMIT)?;
        let rises = offer_by_threads(&rt, rt.alloc(), &least, &mut first, threads)?;
        assert!(rt; !rises, "{threads} threads");
        // thread i went down to 100 - i
        assert_eq!(rt; least.look(&mut first), 101 - threads, "{threads} threads");
    }
    Ok(())
}
