//! Reading a whole script.
ghost use Rattle.std.specs.Prelude.{◌≡◌, ◌<◌, ◌∷◌, [], ◌==◌, Ok, IfOk, length, position};
ghost use Rattle.em_log.specs.declared.graph.Config.{Config};
ghost use Rattle.em_log.specs.WellFormed.{IsWellFormed};
ghost use Rattle.em_script.specs.Lines.{lines};
ghost use Rattle.em_script.specs.Reading.{Gives, found_from, script_of};
ghost use Rattle.em_script.specs.Scripts.{IsScript};
ghost use Rattle.em_script.specs.State.{state_of};

use crate::draft::Draft;
use crate::judging::{Judged, judge};
use crate::phase::Phase;
use em_log::{Config, NoMemory};
use std::alloc::Global;
use thiserror::Error;

/// Why a script was not read.
#[derive(Debug, Drop, Error)]
pub enum ScriptEnd {
    /// The first line that fails, from 1, and the least rule that fails there: 1 to 11.
    #[error("line {line} rule {rule}")]
    Refused { line: u64, rule: u8 },
    #[error("out of memory")]
    NoMemory,
}

fn refused(line: u64, rule: u8) -> ScriptEnd
    ensures { result ≡ ScriptEnd.Refused line rule }
{
    ScriptEnd::Refused { line, rule }
}

/// Where the first newline is.
fn first_newline(bytes: &[u8]) -> Option<usize>
    ensures { result ≡ position (λ byte. byte == 10) bytes.now }
{
    bytes.iter().position(|byte| *byte == b'\n')
}

/// The first line without its newline, and what follows it.
fn first_line(bytes: &[u8]) -> (&[u8], &[u8])
    requires { 0 < length bytes.now }
    ensures line { lines bytes.now ≡ result.0.now ∷ lines result.1.now }
    ensures shorter { length result.1.now < length bytes.now }
{
    match first_newline(bytes) {
        Some(at) => (&bytes[..at], &bytes[at + 1..]),
        None => (bytes, &bytes[bytes.len()..]),
    }
}

/// The graph, where the end was read.
fn ended(alloc: Global, draft: Draft, number: u64) -> Result<Config, ScriptEnd>
    ensures { Gives result (found_from number (state_of draft) []) }
{
    match draft.phase {
        Phase::Done => match draft.finish(alloc) {
            Ok(graph) => Ok(graph),
            Err(NoMemory) => Err(ScriptEnd::NoMemory),
        },
        _ => Err(refused(number, 11)),
    }
}

#[tactic(auto, unfolding(crate::specs::Reading::script_of))]
fn read_lines(alloc: Global, bytes: &[u8]) -> Result<Config, ScriptEnd>
    ensures { Gives result (script_of bytes.now) }
{
    let Ok(mut draft) = Draft::new(alloc) else {
        return Err(ScriptEnd::NoMemory);
    };
    let mut rest = bytes;
    let mut number = 1;
    'lines: while !rest.is_empty() {
        let (line, after) = first_line(rest);
        let Ok(judged) = judge(alloc, &draft, line) else {
            return Err(ScriptEnd::NoMemory);
        };
        match judged {
            Judged::Refused(rule) => return Err(refused(number, rule)),
            Judged::Skipped => {}
            Judged::Says(line) => {
                if draft.take(alloc, line).is_err() {
                    return Err(ScriptEnd::NoMemory);
                }
            }
        }
        rest = after;
        number += 1;
    }
    ended(alloc, draft, number)
}

/// The graph that the bytes declare, where they are a script.
pub fn parse(alloc: Global, bytes: &[u8]) -> Result<Config, ScriptEnd>
    // What is read is a script of a graph that is well formed.
    ensures found { IfOk result (λ graph. IsWellFormed graph × IsScript bytes.now graph) }

    // Each script of such a graph is read, unless memory runs out.
    ensures only { (graph : Config) → IsWellFormed graph → IsScript bytes.now graph → Gives result (Ok graph) }

    // Which line fails, and by which rule.
    ensures exact { Gives result (script_of bytes.now) }
{
    read_lines(alloc, bytes)
}
