//! What a run with a thread for each core comes to.
ghost use Rattle.std.specs.Prelude.{◌≡◌, ℕ, List, IfOk};
ghost use Rattle.em_log.specs.WellFormed.{IsWellFormed};
ghost use Rattle.em_desk.specs.Graphs.{AreInRange};
ghost use Rattle.em_script.specs.Reading.{script_of};
ghost use Rattle.em_tool.specs.declared.commands.Command.{Command as TheCommand};
ghost use Rattle.em_tool.specs.Outcome.{ComesTo, Due, GraphComesTo, status_of, told_of};
ghost use Rattle.em_main.specs.Words.{IsRun, in_turns, words_in_turns};

use em_drive::{is_runnable, threads};
use em_io::{ReadEnd, Source, read_all};
use em_log::{Config, Gate, Limits, NoMemory};
use em_script::{ScriptEnd, parse};
use em_tool::{MOST_BYTES, Outcome};
use std::alloc::Global;
use std::sync::Wait;
use std::thread::Threads;

/// What running the graph comes to. Err is want of memory.
fn ran<R: Threads + Wait + Sync, G: Gate + Sync>(
    rt: &R,
    alloc: Global,
    graph: &Config,
    limits: Limits,
    gate: &G,
) -> Result<Outcome, NoMemory>
    requires well_formed { IsWellFormed graph.now }
    requires limits { AreInRange limits }
    requires burst { limits.burst ≡ 1 }
    ensures { IfOk result (GraphComesTo graph.now (TheCommand.Solo (in_turns limits))) }
{
    if !is_runnable(graph) {
        return Ok(Outcome::NotRunnable);
    }
    match threads(rt, alloc, graph, limits, gate) {
        Ok((desk, end)) => Ok(Outcome::Ran(desk, end)),
        Err(NoMemory) => Err(NoMemory),
    }
}

/// What the run comes to at these bytes. Err is want of memory.
fn outcome_of<R: Threads + Wait + Sync, G: Gate + Sync>(
    rt: &R,
    alloc: Global,
    bytes: &[u8],
    limits: Limits,
    gate: &G,
) -> Result<Outcome, NoMemory>
    requires limits { AreInRange limits }
    requires burst { limits.burst ≡ 1 }
    ensures { IfOk result (ComesTo (script_of bytes.now) (TheCommand.Solo (in_turns limits))) }
{
    match parse(alloc, bytes) {
        Ok(graph) => ran(rt, alloc, &graph, limits, gate),
        Err(ScriptEnd::Refused { line, rule }) => Ok(Outcome::Refused { line, rule }),
        Err(ScriptEnd::NoMemory) => Err(NoMemory),
    }
}

/// What the input comes to. Err is want of memory.
pub fn outcome<R: Threads + Wait + Sync, S: Source, G: Gate + Sync>(
    rt: &R,
    alloc: Global,
    limits: Limits,
    source: &mut S,
    gate: &G,
) -> Result<Outcome, NoMemory>
    requires known { (texts : List (List ℕ)) × (IsRun texts limits) }
    ensures { IfOk result (λ o. Due (words_in_turns limits)
        (record {
          left = S.left source.old;
          left_after = S.left source.new;
          given = S.given source.old;
          given_after = S.given source.new;
          faults = S.faults source.old;
          faults_after = S.faults source.new;
        })
        (status_of o) (told_of o)) }
{
    match read_all(alloc, source, MOST_BYTES) {
        Ok(bytes) => outcome_of(rt, alloc, bytes.as_slice(), limits, gate),
        Err(ReadEnd::Failed) => Ok(Outcome::ReadFailed),
        Err(ReadEnd::TooLong) => Ok(Outcome::TooLong),
        Err(ReadEnd::NoMemory) => Err(NoMemory),
    }
}
