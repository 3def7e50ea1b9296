//! Runs of a graph over a board.
ghost use Rattle.std.specs.Prelude.{◌≡◌, IfOk};
ghost use Rattle.em_log.specs.WellFormed.{IsWellFormed};
ghost use Rattle.em_desk.specs.Graphs.{AreInRange};
ghost use Rattle.em_drive.specs.Bodies.{AreBodies};
ghost use Rattle.em_drive.specs.Runs.{IsRun};
ghost use Rattle.em_drive.specs.Servable.{IsServable};

use crate::parallel::{works, works_in_turns};
use em_body::BodyRun;
use em_desk::Desk;
use em_log::{Config, CoreId, EndKind, Gate, Limits, NoMemory};
use std::alloc::Global;
use std::sync::Wait;
use std::thread::Threads;

/// The bodies of the graph for each core. Err is want of memory.
fn bodies<'a>(alloc: Global, config: &'a Config) -> Result<Vec<BodyRun<'a>>, NoMemory>
    requires { IsWellFormed config.now }
    ensures { IfOk result (λ bodies. AreBodies config.now config.now.cores bodies.items) }
{
    let mut bodies = Vec::new(alloc);
    for core in 0..config.cores {
        if bodies.push(BodyRun::new(config, CoreId(core))).is_err() {
            return Err(NoMemory);
        }
    }
    Ok(bodies)
}

/// Runs the graph to its end: core 0 here, and each other core in a thread of its own. Answers the desk, and how its history has
/// ended. A core whose thread cannot be started is run here, in turns with core 0. The gate is told of the start of each receive,
/// and of each answer that there is nothing to do for now. Err is want of memory.
pub fn threads<R: Threads + Wait + Sync, G: Gate + Sync>(
    rt: &R,
    alloc: Global,
    config: &Config,
    limits: Limits,
    gate: &G,
) -> Result<(Desk, EndKind), NoMemory>
    requires well_formed { IsWellFormed config.now }
    requires servable { IsServable config.now }
    requires limits { AreInRange limits }
    requires burst { limits.burst ≡ 1 }
    ensures { IfOk result (λ run. IsRun config.now limits run.0 run.1) }
{
    let bodies = bodies(alloc, config)?;
    works(rt, alloc, config, limits, bodies, gate)
}

/// The same without threads: all cores run here, in turns.
pub fn in_turns<R: Wait, G: Gate>(
    rt: &R,
    alloc: Global,
    config: &Config,
    limits: Limits,
    gate: &G,
) -> Result<(Desk, EndKind), NoMemory>
    requires well_formed { IsWellFormed config.now }
    requires servable { IsServable config.now }
    requires limits { AreInRange limits }
    requires burst { limits.burst ≡ 1 }
    ensures { IfOk result (λ run. IsRun config.now limits run.0 run.1) }
{
    let bodies = bodies(alloc, config)?;
    works_in_turns(rt, alloc, config, limits, bodies, gate)
}
