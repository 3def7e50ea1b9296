//! Whole runs of a board.
ghost use Rattle.std.specs.Prelude.{◌≡◌, ◌≤◌, length, map, IfOk};
ghost use Rattle.em_board.specs.Passes.{AreAll};
ghost use Rattle.em_board_rows.specs.Passes.{AreBetween, rights};

use crate::threads::{Plan, Told, last_of, put_last, take_and_serve, work_in_threads};
use em_board::{Board, Passes};
use em_desk::Desk;
use em_desk_rows::graphs::with_queue;
use em_log::{Limits, NoMemory, PoolShape};
use std::alloc::Global;
use std::sync::Wait;
use std::thread::Threads;

/// More events than are sent at a time.
pub const POOL: PoolShape = PoolShape {
    events: 16,
    words: 1,
};

/// A run has as many receives as it may, and takes one event at a time.
pub const LIMITS: Limits = Limits {
    receives: 10_000,
    burst: 1,
};

/// A board over the graph of one queue, with its passes. Err is want of memory.
pub fn build(alloc: Global, cores: u8) -> Result<(Board, Passes), NoMemory>
    requires some { 1 ≤ cores }
    requires most { cores ≤ 8 }
    ensures all { IfOk result (λ r. AreAll r.0 r.1) }
    ensures between { IfOk result (λ r. AreBetween r.0 cores r.1) }
    ensures count { IfOk result (λ r. length r.1 ≡ cores) }
{
    let config = with_queue(alloc, cores, POOL)?;
    Board::build(alloc, &config, LIMITS)
}

/// Whether the last core is told that the run was halted. It makes a whole take for that.
fn is_halted(wait: &impl Wait, board: &Board, mut passes: Passes, cores: u8) -> (Passes, bool)
    requires between { AreBetween board.now cores passes }
    requires room { length passes ≤ cores }
    ensures same { map rights result.0 ≡ map rights passes }
{
    let Some(mut pass) = last_of(board, &mut passes, cores) else {
        return (passes, false);
    };
    let halted = take_and_serve(wait, board, &mut pass, false) == Told::Halted;
    (put_last(board, passes, pass, cores), halted)
}

/// The closed desk of a run whose cores have worked by these plans, each in a thread, and whether it was halted. Err is want of memory.
pub fn run<R: Threads + Wait + Sync>(
    rt: &R,
    alloc: Global,
    cores: u8,
    last: Plan,
    others: Plan,
) -> Result<(Desk, bool), NoMemory>
    requires some { 1 ≤ cores }
    requires most { cores ≤ 8 }
{
    let (board, passes) = build(alloc, cores)?;
    let passes = work_in_threads(rt, &board, passes, cores, last, others);
    let (passes, halted) = is_halted(rt, &board, passes, cores);
    Ok((board.close(passes), halted))
}
