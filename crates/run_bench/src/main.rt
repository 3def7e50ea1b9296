//! Runs a script whose one event is sent again by each receive: what a run of so many receives comes to, or, with a number of
//! receives, the nanoseconds that runs took.
#![tactic(auto)]

ghost use Rattle.std.specs.Prelude.{◌≤◌, IfSome};
ghost use Rattle.em_log.specs.WellFormed.{IsWellFormed};

use em_drive::{Order, is_runnable, solo};
use em_log::{Config, EndKind, Limits, NoGate};
use em_script::parse;
use std::alloc::Global;
use std::env;
use std::time::Instant;

/// Each receive makes an entry each of its take, its start, its send and its end.
const SCRIPT: &str =
    "cores 1\npool p 4 1\neo x running\nqueue q parallel x normal all\nboot\nalloc v0 p 0 7\nsend v0 q\nend\nbody x receive\nsend me q\nend\ndone\n";

/// The most receives of a run.
const MOST: u16 = 10_000;

/// About how many receives are timed together.
const RECEIVES: u32 = 200_000;

/// How often they are timed; the best counts.
const RUNS: u32 = 7;

/// The graph of a script, if it is one.
fn graph_of(alloc: Global, script: &[u8]) -> Option<Config>
    ensures { IfSome result IsWellFormed }
{
    match parse(alloc, script) {
        Ok(graph) => Some(graph),
        Err(_) => None,
    }
}

/// How many entries a run of so many receives has, where it comes to its limit.
fn entries(alloc: Global, graph: &Config, receives: u16) -> Option<usize>
    requires well_formed { IsWellFormed graph.now }
    requires some { 1 ≤ receives }
    requires few { receives ≤ 10000 }
{
    if graph.cores != 1 || !is_runnable(graph) {
        return None;
    }
    let order = Order::of(&[], graph.cores);
    let limits = Limits { receives, burst: 1 };
    match solo(alloc, graph, limits, &order, &NoGate) {
        Ok((desk, EndKind::Limit)) => Some(desk.log().len()),
        _ => None,
    }
}

/// The nanoseconds of the fastest runs, and how many receives they made.
fn timed(rt: &HostRuntime, graph: &Config, receives: u16) -> anyhow::Result<(u128, u64)>
    requires well_formed { IsWellFormed graph.now }
    requires some { 1 ≤ receives }
    requires few { receives ≤ 10000 }
{
    let alloc = rt.alloc();
    let mut best = (u128::MAX, 1);
    for _ in 0..RUNS {
        let mut made = 0_u64;
        let start = Instant::now(rt)?;
        for _ in 0..RECEIVES / receives as u32 {
            if entries(alloc, graph, receives).is_none() {
                return Ok((0, 1));
            }
            made = made.saturating_add(receives as u64);
        }
        let nanoseconds = start.elapsed(rt)?.as_nanos();
        if nanoseconds < best.0 {
            best = (nanoseconds, made);
        }
    }
    Ok(best)
}

fn main(rt: HostRuntime) -> anyhow::Result<()> {
    let alloc = rt.alloc();
    let Some(graph) = graph_of(alloc, SCRIPT.as_bytes()) else {
        println!(rt; "the script is not read")?;
        return Ok(());
    };
    if let Some(word) = env::args(&rt)?.nth(1) {
        let receives = word.as_str().parse::<u16>().unwrap_or(0);
        if receives == 0 || receives > MOST {
            println!(rt; "usage: run_bench [1 to {MOST}]")?;
            return Ok(());
        }
        let (nanoseconds, made) = timed(&rt, &graph, receives)?;
        println!(rt; "{receives} {nanoseconds} {made}")?;
        return Ok(());
    }
    for receives in [1_000, 10_000] {
        match entries(alloc, &graph, receives) {
            Some(count) => println!(rt; "{receives} receives: {count} entries")?,
            None => println!(rt; "{receives} receives: no run to the limit")?,
        }
    }
    Ok(())
}
