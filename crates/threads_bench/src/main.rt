//! What a run costs with a thread for each of four cores, beside the same run in turns on one thread.
//! `threads_bench` makes one run of each; `threads_bench measure` measures.
#![tactic(auto)]

ghost use Rattle.std.specs.Prelude.{IfSome};
ghost use Rattle.em_log.specs.WellFormed.{IsWellFormed};

use em_drive::{Order, is_runnable, solo, threads};
use em_log::{Config, Limits, NoGate, What};
use em_script::parse;
use std::alloc::Global;
use std::env;
use std::sync::Wait;
use std::thread::Threads;
use std::time::{Clock, Instant};

/// Each receive sends its event to its own queue again, after silent work.
const NO_WORK: &str =
    "cores 4\npool p 16 0\neo x running\nqueue q parallel x normal all\nboot\nrepeat 16\nalloc v0 p 0\nsend v0 q\nend\nend\nbody x receive\nsend me q\nend\ndone\n";

/// About two microseconds of it.
const SHORT_WORK: &str =
    "cores 4\npool p 16 0\neo x running\nqueue q parallel x normal all\nboot\nrepeat 16\nalloc v0 p 0\nsend v0 q\nend\nend\nbody x receive\nrepeat 48\nset v0 add v0 1\nend\nsend me q\nend\ndone\n";

/// About fifteen microseconds of it.
const LONG_WORK: &str =
    "cores 4\npool p 16 0\neo x running\nqueue q parallel x normal all\nboot\nrepeat 16\nalloc v0 p 0\nsend v0 q\nend\nend\nbody x receive\nrepeat 2\nrepeat 183\nset v0 add v0 1\nend\nend\nsend me q\nend\ndone\n";

/// How many receives a run makes.
const RECEIVES: u16 = 10_000;

/// How often each form is measured.
const RUNS: u32 = 15;

const LIMITS: Limits = Limits {
    receives: RECEIVES,
    burst: 1,
};

/// The graph of a script, if it is one.
fn graph_of(alloc: Global, script: &str) -> Option<Config>
    ensures { IfSome result IsWellFormed }
{
    match parse(alloc, script.as_bytes()) {
        Ok(graph) => Some(graph),
        Err(_) => None,
    }
}

/// How many receives a run of the graph has made, with threads or in turns: 0 where it does not run.
fn made<R: Threads + Wait + Sync>(
    rt: &R,
    alloc: Global,
    graph: &Config,
    with_threads: bool,
) -> usize
    requires { IsWellFormed graph.now }
{
    if !is_runnable(graph) {
        return 0;
    }
    let ran = if with_threads {
        threads(rt, alloc, graph, LIMITS, &NoGate)
    } else {
        let order = Order::of(&[], graph.cores);
        solo(alloc, graph, LIMITS, &order, &NoGate)
    };
    match ran {
        Ok((desk, _)) => desk
            .log()
            .iter()
            .filter(|entry| matches!(&entry.what, What::Start { .. }))
            .count(),
        Err(_) => 0,
    }
}

/// The nanoseconds of a run.
fn nanos<R: Clock + Threads + Wait + Sync>(
    rt: &R,
    alloc: Global,
    graph: &Config,
    with_threads: bool,
) -> anyhow::Result<u64>
    requires { IsWellFormed graph.now }
{
    let start = Instant::now(rt)?;
    made(rt, alloc, graph, with_threads);
    Ok(u64::try_from(start.elapsed(rt)?.as_nanos()).unwrap_or(u64::MAX))
}

/// The best times of both forms, which take turns.
fn print_line<R: Clock + Print + Threads + Wait + Sync>(
    rt: &R,
    alloc: Global,
    name: &str,
    graph: &Config,
) -> anyhow::Result<()>
    requires { IsWellFormed graph.now }
{
    let mut alone = u64::MAX;
    let mut together = u64::MAX;
    for _ in 0..RUNS {
        alone = alone.min(nanos(rt, alloc, graph, false)?);
        together = together.min(nanos(rt, alloc, graph, true)?);
    }
    let ratio = alone.saturating_mul(100) / together.max(1);
    println!(rt;
        "{name}: in turns {} ns a receive, four threads {} ns, {}.{:02} times the receives a second",
        alone / RECEIVES as u64,
        together / RECEIVES as u64,
        ratio / 100,
        ratio % 100
    )?;
    Ok(())
}

fn main(rt: HostRuntime) -> anyhow::Result<()> {
    let alloc = rt.alloc();
    let measures = env::args(&rt)?.nth(1).is_some();
    for (name, script) in [
        ("no work", NO_WORK),
        ("short work", SHORT_WORK),
        ("long work", LONG_WORK),
    ] {
        let Some(graph) = graph_of(alloc, script) else {
            println!(&rt; "{name}: the script is not read")?;
            continue;
        };
        if measures {
            print_line(&rt, alloc, name, &graph)?;
            continue;
        }
        let alone = made(&rt, alloc, &graph, false);
        let together = made(&rt, alloc, &graph, true);
        println!(&rt; "{name}: {alone} receives in turns, {together} with four threads")?;
    }
    Ok(())
}
