//! The measurement.
ghost use Rattle.std.specs.Prelude.{◌<◌};

use crate::journal::Journal;
use crate::turns::{Plan, lock_in_threads, take_in_threads, worked};
use em_turn::Turn;
use std::alloc::{AllocError, Global};
use std::io;
use std::sync::{Mutex, Wait};
use std::thread::Threads;
use std::time::{Clock, Instant};

// How many turns a run has in all.
const TURNS: u32 = 200_000;

// How often each run is made.
const RUNS: u32 = 3;

const ROUNDS: u32 = 10_000_000;

fn nanos_since(clock: &impl Clock, start: Instant) -> io::Result<u64> {
    Ok(u64::try_from(start.elapsed(clock)?.as_nanos()).unwrap_or(u64::MAX))
}

// How many rounds of work take a microsecond.
fn rounds_per_microsecond(clock: &impl Clock) -> io::Result<u32> {
    let start = Instant::now(clock)?;
    let state = worked(1, ROUNDS);
    let nanos = nanos_since(clock, start)?;
    // The state is never 0, so the work is done.
    if state == 0 {
        return Ok(0);
    }
    let rounds = (ROUNDS as u64 * 1000) / nanos.max(1);
    Ok(u32::try_from(rounds).unwrap_or(u32::MAX))
}

fn lock_nanos<R: Clock + Threads + Wait + Sync>(
    rt: &R,
    alloc: Global,
    threads: u8,
    plan: Plan,
) -> io::Result<u64>
    requires { (0 < threads) × (threads < 65) }
{
    let Ok((lock, first)) = Turn::new(alloc, Journal::new(alloc, threads)) else {
        return Err(io::Error::from(AllocError));
    };
    let start = Instant::now(rt)?;
    let first = take_in_threads(rt, &lock, first, 1, threads, plan);
    let nanos = nanos_since(rt, start)?;
    lock.close(first);
    Ok(nanos)
}

fn mutex_nanos<R: Clock + Threads + Wait + Sync>(
    rt: &R,
    alloc: Global,
    threads: u8,
    plan: Plan,
) -> io::Result<u64> {
    let mutex = Mutex::new(Journal::new(alloc, threads));
    let start = Instant::now(rt)?;
    lock_in_threads(rt, alloc, &mutex, threads, plan)?;
    nanos_since(rt, start)
}

/// Prints a line for no work and one for a microsecond of work between two turns of a thread.
pub fn print_turns<R: Alloc<A = Global> + Clock + Print + Threads + Wait + Sync>(
    rt: &R,
    threads: u8,
) -> io::Result<()>
    requires { (0 < threads) × (threads < 65) }
{
    let turns = TURNS / threads as u32;
    for rounds in [0, rounds_per_microsecond(rt)?] {
        let plan = Plan { turns, rounds };
        let mut lock: u64 = 0;
        let mut mutex: u64 = 0;
        for _ in 0..RUNS {
            lock = lock.saturating_add(lock_nanos(rt, rt.alloc(), threads, plan)?);
            mutex = mutex.saturating_add(mutex_nanos(rt, rt.alloc(), threads, plan)?);
        }
        print_line(rt, threads, plan, lock.max(1), mutex.max(1))?;
    }
    Ok(())
}

fn print_line(rt: &impl Print, threads: u8, plan: Plan, lock: u64, mutex: u64) -> io::Result<()>
    requires { (0 < lock) × (0 < mutex) }
{
    let all = (threads as u64 * plan.turns as u64)
        .saturating_mul(RUNS as u64)
        .max(1);
    let rate = |nanos: u64| all.saturating_mul(1_000_000_000) / nanos;
    let ratio = lock.saturating_mul(100) / mutex;
    let work = if plan.rounds == 0 {
        "no work"
    } else {
        "1 us of work"
    };
    println!(rt;
        "{threads:2} threads, {work:12}: {:9} turns/s ({:6} ns a turn), Mutex {:9} turns/s, ratio {}.{:02}",
        rate(lock),
        lock / all,
        rate(mutex),
        ratio / 100,
        ratio % 100
    )
}
