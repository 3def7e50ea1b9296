//! Whole runs with a work for each core.
ghost use Rattle.std.specs.Prelude.{ℕ, ◌≡◌, ◌≤◌, ◌++◌, [], true, length, IfOk};
ghost use Rattle.std.specs.Vec.{vec_capacity};
ghost use Rattle.em_log.specs.WellFormed.{IsWellFormed};
ghost use Rattle.em_desk.specs.Graphs.{AreInRange};
ghost use Rattle.em_drive.specs.Parallel.{AreFit, AreOver, AreReady, IsPlanned, IsWorkedRun, first_passes, weigh};

use crate::starts::drive_in_threads;
use crate::turns::drive_in_turns;
use crate::workers::{Ends, Plan, Worker};
use em_board::{Board, Passes};
use em_core::CoreRun;
use em_desk::{Desk, well_formed_is_in_bounds};
use em_log::{Config, CoreId, EndKind, Gate, Limits, MAX_CORES, NoMemory, Work};
use std::alloc::Global;
use std::snapshot::Snapshot;
use std::sync::Wait;
use std::thread::Threads;

/// A board over the graph, with a worker for each core, the last core first, and the empty list of passes. Err is want of memory.
fn workers<W: Work + Drop>(
    alloc: Global,
    board: &Board,
    plan: &Plan<W>,
    mut passes: Passes,
    mut works: Vec<W>,
) -> Result<(Vec<Worker<W>>, Passes), NoMemory>
    requires plan { IsPlanned W.Work plan.now }
    requires works { works ≡ plan.now.works.value }
    requires passes { passes ≡ first_passes board.now plan.now.config.value plan.now.limits }
    ensures ready { IfOk result (λ r. AreReady W.Work plan.now board.now r.0.items) }
    ensures passes { IfOk result (λ r. r.1 ≡ []) }
{
    let Ok(mut workers) = Vec::with_capacity(alloc, usize::from(MAX_CORES)) else {
        return Err(NoMemory);
    };
    while let Some(work) = works.pop() {
        let Some(pass) = passes.pop() else {
            unreachable!()
        };
        let core = CoreId(works.len() as u8);
        workers.push_reserved(Worker {
            core,
            pass,
            run: CoreRun::new(core, work),
        });
    }
    Ok((workers, passes))
}

/// The last worker, in a list of its own with room for all. Err is want of memory.
fn last_apart<W: Drop>(
    alloc: Global,
    workers: &mut Vec<Worker<W>>,
) -> Result<Vec<Worker<W>>, NoMemory>
    ensures items { IfOk result (λ here. workers.old.items ≡ workers.new.items ++ here.items) }
    ensures room { IfOk result (λ here. 8 ≤ vec_capacity here) }
{
    let Ok(mut here) = Vec::with_capacity(alloc, usize::from(MAX_CORES)) else {
        return Err(NoMemory);
    };
    let Some(last) = workers.pop() else {
        return Ok(here);
    };
    here.push_reserved(last);
    Ok(here)
}

/// The desk of a run whose cores have ended, and how its history has ended. Err is want of memory, which halted the board.
fn closed<W: Work + Drop>(
    board: Board,
    plan: &Plan<W>,
    ends: Ends,
) -> Result<(Desk, EndKind), NoMemory>
    requires plan { IsPlanned W.Work plan.now }
    requires cores { (h : ℕ → ℕ) → weigh h ends.passes ≡ weigh h (first_passes board plan.now.config.value plan.now.limits) }
    requires over { ends.over ≡ true → AreOver W.Work plan.now board ends.passes }
    ensures { IfOk result (λ run. IsWorkedRun W.Work plan.now.config.value plan.now.limits plan.now.works.value.items run.0 run.1) }
{
    let _ = plan;
    if !ends.over {
        return Err(NoMemory);
    }
    let desk = board.close(ends.passes);
    match desk.end_kind() {
        Some(end) => Ok((desk, end)),
        None => unreachable!(),
    }
}

/// Runs the graph to its end with these works, one for each core: core 0 here, and each other core in a thread of its own.
/// Answers the desk, and how its history has ended. A core whose thread cannot be started is run here, in turns with core 0.
/// The gate is told of the start of each receive, and of each answer that there is nothing to do for now. Err is want of memory.
pub fn works<W: Work + Send + Drop, R: Threads + Wait + Sync, G: Gate + Sync>(
    rt: &R,
    alloc: Global,
    config: &Config,
    limits: Limits,
    works: Vec<W>,
    gate: &G,
) -> Result<(Desk, EndKind), NoMemory>
    requires well_formed { IsWellFormed config.now }
    requires limits { AreInRange limits }
    requires burst { limits.burst ≡ 1 }
    requires count { length works.items ≡ config.now.cores }
    requires fit { AreFit W.Work config.now works.items }
    ensures { IfOk result (λ run. IsWorkedRun W.Work config.now limits works.items run.0 run.1) }
{
    well_formed_is_in_bounds();
    let plan = Plan {
        config: Snapshot::of(config),
        limits,
        works: Snapshot::of(&works),
    };
    let (board, passes) = Board::build(alloc, config, limits)?;
    let (mut workers, passes) = workers(alloc, &board, &plan, passes, works)?;
    let here = last_apart(alloc, &mut workers)?;
    let ends = drive_in_threads(rt, &board, &plan, workers, here, Ends::new(passes), gate);
    closed(board, &plan, ends)
}

/// The same without threads: all cores run here, in turns.
pub fn works_in_turns<W: Work + Drop, R: Wait, G: Gate>(
    rt: &R,
    alloc: Global,
    config: &Config,
    limits: Limits,
    works: Vec<W>,
    gate: &G,
) -> Result<(Desk, EndKind), NoMemory>
    requires well_formed { IsWellFormed config.now }
    requires limits { AreInRange limits }
    requires burst { limits.burst ≡ 1 }
    requires count { length works.items ≡ config.now.cores }
    requires fit { AreFit W.Work config.now works.items }
    ensures { IfOk result (λ run. IsWorkedRun W.Work config.now limits works.items run.0 run.1) }
{
    well_formed_is_in_bounds();
    let plan = Plan {
        config: Snapshot::of(config),
        limits,
        works: Snapshot::of(&works),
    };
    let (board, passes) = Board::build(alloc, config, limits)?;
    let (workers, passes) = workers(alloc, &board, &plan, passes, works)?;
    let ends = drive_in_turns(rt, &board, &plan, workers, Ends::new(passes), gate);
    closed(board, &plan, ends)
}
