//! Turns by several threads over a value that is its own history.
ghost use Rattle.std.specs.Prelude.{◌≡◌, All, IfOk};
ghost use Rattle.hist_lock.specs.Known.{IsPassOf};

mod log;

use crate::wait::SPINS;
use crate::{HistLock, Pass};
use log::{Line, Log, Write};
use std::alloc::{AllocError, Global};
use std::process::Abort;
use std::sync::Wait;
use std::test::Fail;
use std::thread;
use std::thread::Threads;

// What one thread does: it writes the lines 0, 1, 2 and so on.
#[derive(Drop)]
struct Task {
    pass: Pass<Log>,
    lines: u64,
}

fn write_lines<R: Threads + Wait + Sync>(rt: &R, lock: &HistLock<Log>, task: &mut Task)
    requires { IsPassOf lock.now.table.shared.table_id task.old.pass.seat }
    ensures { IsPassOf lock.now.table.shared.table_id task.new.pass.seat }
{
    for text in 0..task.lines {
        let mut act = Write {
            text,
            written: false,
        };
        lock.turn(rt, &mut task.pass, &mut act);
        let Write {
            text: _,
            written: _,
        } = act;
    }
}

// Splits a pass for each thread, lets them write, and joins them.
fn write_by_threads<R: Threads + Wait + Sync>(
    rt: &R,
    alloc: Global,
    lock: &HistLock<Log>,
    pass: &mut Pass<Log>,
    threads: usize,
    lines: u64,
) -> Result<(), AllocError>
    requires { IsPassOf lock.now.table.shared.table_id pass.old.seat }
    ensures { IsPassOf lock.now.table.shared.table_id pass.new.seat }
{
    let mut tasks = Vec::new(alloc);
    for _ in 0..threads {
        tasks.reserve(1)?;
        let task = Task {
            pass: lock.split(rt, pass),
            lines,
        };
        tasks.push_reserved(task);
    }
    thread::for_each_mut(
        rt,
        tasks.as_mut_slice(),
        24,
        &|_, task: &mut Task|
            requires { IsPassOf lock.now.table.shared.table_id task.old.pass.seat }
            ensures { IsPassOf lock.entry.now.table.shared.table_id task.new.pass.seat }
        { write_lines(rt, lock, task) },
    );
    while let Some(task) = tasks.pop() {
        let Task {
            pass: other,
            lines: _,
        } = task;
        lock.join(pass, other);
    }
    Ok(())
}

// A lock on an empty log.
fn new_log(alloc: Global) -> Result<(HistLock<Log>, Pass<Log>), AllocError>
    ensures { IfOk result (λ r. IsPassOf r.0.table.shared.table_id r.1.seat) }
{
    match HistLock::new(alloc, Log::new(alloc)) {
        Ok(made) => Ok(made),
        Err((error, _log)) => Err(error),
    }
}

// Each caller from 1 on wrote the lines 0, 1, 2 up to `lines`, in this order.
fn is_in_order(log: &[Line], threads: u64, lines: u64) -> bool {
    let mut next = [0u64; 17];
    for line in log {
        let caller = (line.caller % 17) as usize;
        if line.caller > 16 || line.text != next[caller] || line.text >= lines {
            return false;
        }
        next[caller] = line.text + 1;
    }
    log.len() as u64 == threads.wrapping_mul(lines)
}

#[test]
fn the_value_is_what_the_callers_did_in_one_order(rt: HostRuntime) -> Result<(), Fail> {
    // Without a look before they sleep, threads sleep at every chance.
    for (threads, lines, spins) in [
        (2, 400, SPINS),
        (4, 200, SPINS),
        (8, 100, SPINS),
        (2, 400, 0),
        (4, 200, 0),
        (8, 100, 0),
        (16, 50, 0),
    ] {
        let (mut lock, mut pass) = new_log(rt.alloc())?;
        lock.spins = spins;
        write_by_threads(&rt, rt.alloc(), &lock, &mut pass, threads, lines)?;
        let Ok((log, _pass)) = lock.close(pass) else {
            panic!(rt; "{threads} threads: the lock can't be closed")
        };
        assert!(rt;
            is_in_order(log.lines.as_slice(), threads as u64, lines),
            "{threads} threads"
        );
    }
    Ok(())
}

#[test]
fn a_lock_is_closed_once_all_passes_are_joined(rt: HostRuntime) -> Result<(), Fail> {
    let (lock, mut first) = new_log(rt.alloc())?;
    let mut second = lock.split(&rt, &mut first);
    let third = lock.split(&rt, &mut second);
    let numbers = (first.number(), second.number(), third.number());
    assert_eq!(rt; numbers, (0, 1, 2));
    let Err((lock, mut first)) = lock.close(first) else {
        panic!(rt; "two passes are out")
    };
    lock.join(&mut first, second);
    let Err((lock, mut first)) = lock.close(first) else {
        panic!(rt; "a pass is out")
    };
    let Err((lock, third)) = lock.close(third) else {
        panic!(rt; "the first pass is out")
    };
    lock.join(&mut first, third);
    let Ok((log, first)) = lock.close(first) else {
        panic!(rt; "no pass is out")
    };
    assert_eq!(rt; (log.lines.len(), first.number()), (0, 0));
    Ok(())
}

#[test]
fn a_dropped_pass_keeps_the_lock_open(rt: HostRuntime) -> Result<(), Fail> {
    let (lock, mut first) = new_log(rt.alloc())?;
    let second = lock.split(&rt, &mut first);
    drop(second);
    let Err((_lock, _first)) = lock.close(first) else {
        panic!(rt; "the second pass was dropped, not joined")
    };
    Ok(())
}
