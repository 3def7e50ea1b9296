//! How long runs of the desk take: alone, behind its board, and under std's `Mutex`.
ghost use Rattle.std.specs.Prelude.{◌≤◌};

use crate::forward::{Locked, forward_all};
use crate::guarded::Guarded;
use em_board_rows::{Plan, receives, run};
use em_log::{CoreId, NoMemory};
use std::alloc::Global;
use std::sync::{Mutex, Wait};
use std::thread::{Threads, map_indices};

/// How many receives a run on the board has made.
fn run_board<R: Threads + Wait + Sync>(rt: &R, alloc: Global, cores: u8) -> Result<usize, NoMemory>
    requires some { 1 ≤ cores }
    requires most { cores ≤ 8 }
{
    let (desk, _) = run(rt, alloc, cores, Plan::Forwards, Plan::Forwards)?;
    Ok(receives(desk.log()))
}

/// The same of the desk alone, on one core.
fn run_alone(alloc: Global) -> Result<usize, NoMemory> {
    let mut desk = Guarded::build(alloc, 1)?;
    forward_all(&mut desk, CoreId(0));
    Ok(desk.receives())
}

/// The same under std's `Mutex`.
fn run_locked<R: Threads + Wait + Sync>(rt: &R, alloc: Global, cores: u8) -> Result<usize, NoMemory>
    requires some { 1 ≤ cores }
    requires most { cores ≤ 8 }
{
    let desk = Mutex::new(Guarded::build(alloc, cores)?);
    let shared = &desk;
    let ran = map_indices(
        rt,
        alloc,
        usize::from(cores),
        &|core| { forward_all(&mut Locked { rt, desk: shared }, CoreId((core % 8) as u8)) },
    );
    if ran.is_err() {
        return Err(NoMemory);
    }
    let receives = desk.lock(rt).receives();
    Ok(receives)
}

/// A form of the desk.
#[derive(Clone, Copy)]
pub enum Form {
    Alone,
    Board,
    Locked,
}

/// How many receives a run of this form has made. The desk alone runs on one core.
pub fn run_form<R: Threads + Wait + Sync>(
    rt: &R,
    alloc: Global,
    form: Form,
    cores: u8,
) -> Result<usize, NoMemory>
    requires some { 1 ≤ cores }
    requires most { cores ≤ 8 }
{
    match form {
        Form::Alone => run_alone(alloc),
        Form::Board => run_board(rt, alloc, cores),
        Form::Locked => run_locked(rt, alloc, cores),
    }
}
