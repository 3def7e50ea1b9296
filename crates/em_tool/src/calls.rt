//! What a call comes to: its words, its script, and the run or the spelling of its graph.
ghost use Rattle.std.specs.Prelude.{◌≡◌, IfOk, map, string_bytes};
ghost use Rattle.em_log.specs.WellFormed.{IsWellFormed};
ghost use Rattle.em_script.specs.Reading.{script_of};
ghost use Rattle.em_tool.specs.declared.commands.Command.{Command};
ghost use Rattle.em_tool.specs.Words.{IsSomeCommand};
ghost use Rattle.em_tool.specs.Outcome.{ComesTo, Due, GraphComesTo, status_of, told_of};

use crate::commands::{Command, Solo};
use crate::outcome::Outcome;
use crate::words::command;
use em_drive::{Order, is_runnable};
use em_io::{ReadEnd, Source, read_all};
use em_log::{Config, Gate, NoMemory};
use em_script::{ScriptEnd, parse, print};
use std::alloc::Global;

/// The most bytes that a script may have.
pub const MOST_BYTES: usize = 65536;

/// What running the graph comes to. Err is want of memory.
fn run<G: Gate>(alloc: Global, graph: &Config, asked: &Solo, gate: &G) -> Result<Outcome, NoMemory>
    requires well_formed { IsWellFormed graph.now }
    requires known { IsSomeCommand (Command.Solo asked.now) }
    ensures { IfOk result (GraphComesTo graph.now (Command.Solo asked.now)) }
{
    if !is_runnable(graph) {
        return Ok(Outcome::NotRunnable);
    }
    let order = Order::of(asked.order.as_slice(), graph.cores);
    match em_drive::solo(alloc, graph, asked.limits, &order, gate) {
        Ok((desk, end)) => Ok(Outcome::Ran(desk, end)),
        Err(NoMemory) => Err(NoMemory),
    }
}

/// What the command comes to at this graph. Err is want of memory.
fn graph_outcome<G: Gate>(
    alloc: Global,
    graph: &Config,
    asked: &Command,
    gate: &G,
) -> Result<Outcome, NoMemory>
    requires well_formed { IsWellFormed graph.now }
    requires known { IsSomeCommand asked.now }
    ensures { IfOk result (GraphComesTo graph.now asked.now) }
{
    match asked {
        Command::Solo(asked) => run(alloc, graph, asked, gate),
        Command::Check => match print(alloc, graph) {
            Ok(bytes) => Ok(Outcome::Checked(bytes)),
            Err(NoMemory) => Err(NoMemory),
        },
    }
}

/// What the command comes to at these bytes. Err is want of memory.
fn outcome_of<G: Gate>(
    alloc: Global,
    bytes: &[u8],
    asked: &Command,
    gate: &G,
) -> Result<Outcome, NoMemory>
    requires { IsSomeCommand asked.now }
    ensures { IfOk result (ComesTo (script_of bytes.now) asked.now) }
{
    match parse(alloc, bytes) {
        Ok(graph) => graph_outcome(alloc, &graph, asked, gate),
        Err(ScriptEnd::Refused { line, rule }) => Ok(Outcome::Refused { line, rule }),
        Err(ScriptEnd::NoMemory) => Err(NoMemory),
    }
}

/// What the words and the input come to. Nothing is read where the words are no command. Err is want of memory.
pub fn outcome<S: Source, G: Gate>(
    alloc: Global,
    words: &[String],
    source: &mut S,
    gate: &G,
) -> Result<Outcome, NoMemory>
    ensures { IfOk result (λ o. Due (map string_bytes words.now)
        (record {
          left = S.left source.old;
          left_after = S.left source.new;
          given = S.given source.old;
          given_after = S.given source.new;
          faults = S.faults source.old;
          faults_after = S.faults source.new;
        })
        (status_of o) (told_of o)) }
{
    let Some(asked) = command(alloc, words)? else {
        return Ok(Outcome::NotKnown);
    };
    match read_all(alloc, source, MOST_BYTES) {
        Ok(bytes) => outcome_of(alloc, bytes.as_slice(), &asked, gate),
        Err(ReadEnd::Failed) => Ok(Outcome::ReadFailed),
        Err(ReadEnd::TooLong) => Ok(Outcome::TooLong),
        Err(ReadEnd::NoMemory) => Err(NoMemory),
    }
}
