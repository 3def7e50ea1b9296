//! Runs boot bodies of so many times 256 rounds, and of so many faults that an error body handles: their moves as a table, or,
//! with a number of times, the nanoseconds that moves took.
#![tactic(auto)]

ghost use Rattle.em_log.specs.WellFormed.{IsWellFormed};

mod faults;
mod moves;
mod rounds;

use em_body::BodyRun;
use em_log::{Config, CoreId};
use faults::faulting_graph;
use moves::boot;
use rounds::{counting_graph, empty_graph};
use std::env;
use std::time::Instant;

/// More rounds than these times 256 would take a counting body past the 65,536 steps of a script's.
const MOST: u16 = 255;

/// About how many moves are timed together.
const MOVES: u32 = 1_000_000;

/// How often they are timed; the best counts.
const RUNS: u32 = 7;

/// The nanoseconds of the fastest run, and how many moves it made.
fn timed(rt: &HostRuntime, config: &Config) -> anyhow::Result<(u128, u64)>
    requires { IsWellFormed config.now }
{
    let mut run = BodyRun::new(config, CoreId(0));
    let contexts = 1 + MOVES / (1 + boot(&mut run));
    let mut best = (u128::MAX, 0);
    for _ in 0..RUNS {
        let mut made = 0_u64;
        let start = Instant::now(rt)?;
        for _ in 0..contexts {
            made = made.saturating_add(boot(&mut run) as u64);
        }
        let nanoseconds = start.elapsed(rt)?.as_nanos();
        if nanoseconds < best.0 {
            best = (nanoseconds, made);
        }
    }
    Ok(best)
}

fn print_time(rt: &HostRuntime, name: &str, times: u16, config: &Config) -> anyhow::Result<()>
    requires { IsWellFormed config.now }
{
    let moves = boot(&mut BodyRun::new(config, CoreId(0)));
    let (nanoseconds, made) = timed(rt, config)?;
    println!(rt; "{name} {times} {moves} {nanoseconds} {made}")?;
    Ok(())
}

fn print_times(rt: &HostRuntime, times: u16) -> anyhow::Result<()> {
    if times == 0 || times > MOST {
        println!(rt; "usage: body_bench [1 to {MOST}]")?;
        return Ok(());
    }
    if let Ok(config) = counting_graph(rt.alloc(), times) {
        print_time(rt, "counting", times, &config)?;
    }
    if let Ok(config) = empty_graph(rt.alloc(), times) {
        print_time(rt, "empty", times, &config)?;
    }
    if let Ok(config) = faulting_graph(rt.alloc(), times) {
        print_time(rt, "faulting", times, &config)?;
    }
    Ok(())
}

fn print_moves(rt: &HostRuntime, times: u16) -> anyhow::Result<()> {
    if times == 0 || times > MOST {
        return Ok(());
    }
    let counting = counting_graph(rt.alloc(), times);
    let empty = empty_graph(rt.alloc(), times);
    if let (Ok(counting), Ok(empty)) = (&counting, &empty) {
        let counting = boot(&mut BodyRun::new(counting, CoreId(0)));
        let empty = boot(&mut BodyRun::new(empty, CoreId(0)));
        println!(rt;
            "{times} times 256 rounds: {counting} moves, and {empty} where they are empty"
        )?;
    }
    Ok(())
}

fn print_faults(rt: &HostRuntime, faults: u16) -> anyhow::Result<()> {
    if let Ok(config) = faulting_graph(rt.alloc(), faults) {
        let moves = boot(&mut BodyRun::new(&config, CoreId(0)));
        println!(rt; "{faults} faults that are handled: {moves} moves")?;
    }
    Ok(())
}

fn main(rt: HostRuntime) -> anyhow::Result<()> {
    if let Some(word) = env::args(&rt)?.nth(1) {
        return print_times(&rt, word.as_str().parse::<u16>().unwrap_or(0));
    }
    for times in [1, 16, 64, 255] {
        print_moves(&rt, times)?;
    }
    for faults in [1, 25, 50, 100] {
        print_faults(&rt, faults)?;
    }
    Ok(())
}
