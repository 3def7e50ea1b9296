//! What calls of a board cost, beside those of the desk alone and beside the same desk under std's `Mutex`.
//! `board_bench` makes one run of each; `board_bench board|alone|locked RUNS` makes so many on one core; `board_bench threads` measures.
#![tactic(auto)]

ghost use Rattle.std.specs.Prelude.{◌≤◌};

mod desks;
mod forward;
mod guarded;
mod measure;

use crate::measure::{Form, run_form};
use std::alloc::{AllocError, Global};
use std::sync::Wait;
use std::thread::Threads;
use std::time::{Clock, Instant};
use std::{env, io};

/// How often each form is measured.
const RUNS: u32 = 40;

/// How many receives a run makes.
const RECEIVES: u64 = 10_000;

fn main(rt: HostRuntime) -> io::Result<()> {
    let mut args = env::args(&rt)?.skip(1);
    let Some(word) = args.next() else {
        return print_one(&rt);
    };
    let form = match word.as_str() {
        "alone" => Form::Alone,
        "board" => Form::Board,
        "locked" => Form::Locked,
        _ => return print_threads(&rt),
    };
    let runs = args
        .next()
        .and_then(|word| word.as_str().parse::<u32>().ok());
    for _ in 0..runs.unwrap_or(1) {
        made(&rt, form, 1)?;
    }
    Ok(())
}

/// How many receives a run of this form has made.
fn made<R: Alloc<A = Global> + Threads + Wait + Sync>(
    rt: &R,
    form: Form,
    cores: u8,
) -> io::Result<usize>
    requires some { 1 ≤ cores }
    requires most { cores ≤ 8 }
{
    match run_form(rt, rt.alloc(), form, cores) {
        Ok(receives) => Ok(receives),
        Err(_) => Err(io::Error::from(AllocError)),
    }
}

fn print_one<R: Alloc<A = Global> + Print + Threads + Wait + Sync>(rt: &R) -> io::Result<()> {
    println!(rt; "the desk alone: {} receives", made(rt, Form::Alone, 1)?)?;
    println!(rt;
        "its board, four threads: {} receives",
        made(rt, Form::Board, 4)?
    )?;
    println!(rt;
        "under a Mutex, four threads: {} receives",
        made(rt, Form::Locked, 4)?
    )
}

fn nanos<R: Alloc<A = Global> + Clock + Threads + Wait + Sync>(
    rt: &R,
    form: Form,
    cores: u8,
) -> io::Result<u64>
    requires some { 1 ≤ cores }
    requires most { cores ≤ 8 }
{
    let start = Instant::now(rt)?;
    made(rt, form, cores)?;
    Ok(u64::try_from(start.elapsed(rt)?.as_nanos()).unwrap_or(u64::MAX))
}

/// The time of the best run of this form and of the best run of the board, which take turns.
fn best<R: Alloc<A = Global> + Clock + Threads + Wait + Sync>(
    rt: &R,
    form: Form,
    cores: u8,
) -> io::Result<(u64, u64)>
    requires some { 1 ≤ cores }
    requires most { cores ≤ 8 }
{
    let mut other = u64::MAX;
    let mut board = u64::MAX;
    for _ in 0..RUNS {
        other = other.min(nanos(rt, form, cores)?);
        board = board.min(nanos(rt, Form::Board, cores)?);
    }
    Ok((other.max(1), board))
}

fn print_line<R: Alloc<A = Global> + Clock + Print + Threads + Wait + Sync>(
    rt: &R,
    name: &str,
    form: Form,
    cores: u8,
) -> io::Result<()>
    requires some { 1 ≤ cores }
    requires most { cores ≤ 8 }
{
    let (other, board) = best(rt, form, cores)?;
    let ratio = board.saturating_mul(100) / other.max(1);
    println!(rt;
        "{cores} threads: board {:5} ns a receive, {name} {:5} ns, ratio {}.{:02}",
        board / RECEIVES,
        other / RECEIVES,
        ratio / 100,
        ratio % 100
    )
}

fn print_threads<R: Alloc<A = Global> + Clock + Print + Threads + Wait + Sync>(
    rt: &R,
) -> io::Result<()> {
    print_line(rt, "the desk alone", Form::Alone, 1)?;
    for cores in [1, 2, 4, 8] {
        print_line(rt, "Mutex", Form::Locked, cores)?;
    }
    Ok(())
}
