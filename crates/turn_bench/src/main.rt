//! Turns of the lock per second, beside those of std's `Mutex`.
//! `turn_bench` lets four threads add an entry each, `turn_bench measure` measures at 1, 2, 4, 8 and 16 threads, and `turn_bench measure N` at N.
#![tactic(auto)]

mod journal;
mod measure;
mod turns;

use crate::journal::Journal;
use crate::measure::print_turns;
use crate::turns::{Plan, take_in_threads};
use em_turn::Turn;
use std::alloc::{AllocError, Global};
use std::sync::Wait;
use std::thread::Threads;
use std::{env, io};

fn main(rt: HostRuntime) -> io::Result<()> {
    let mut args = env::args(&rt)?.skip(1);
    let Some(word) = args.next() else {
        return print_four_threads(&rt);
    };
    match args.next() {
        _ if word.as_str() != "measure" => println!(rt; "usage: turn_bench [measure [THREADS]]"),
        Some(threads) => print_turns(&rt, threads.parse().unwrap_or(1).clamp(1, 64)),
        None => {
            for threads in [1, 2, 4, 8, 16] {
                print_turns(&rt, threads)?;
            }
            Ok(())
        }
    }
}

// Four threads add an entry each.
fn print_four_threads<R: Alloc<A = Global> + Print + Threads + Wait + Sync>(
    rt: &R,
) -> io::Result<()> {
    let Ok((lock, first)) = Turn::new(rt.alloc(), Journal::new(rt.alloc(), 4)) else {
        return Err(io::Error::from(AllocError));
    };
    let plan = Plan {
        turns: 1,
        rounds: 0,
    };
    let first = take_in_threads(rt, &lock, first, 1, 4, plan);
    let journal = lock.close(first);
    println!(rt; "four threads added {} entries", journal.entries.len())
}
