//! Reading a whole trace.
ghost use Rattle.std.specs.Prelude.{◌≡◌, ◌∷◌, [], List, Ok, IfOk};
ghost use Rattle.em_log.specs.declared.entry.Entry.{Entry};
ghost use Rattle.em_log.specs.declared.ids.EndKind.{EndKind};
ghost use Rattle.em_trace.specs.Fitting.{AreEntries};
ghost use Rattle.em_trace.specs.Line.{pieces, pieces_of};
ghost use Rattle.em_trace.specs.Text.{text};
ghost use Rattle.em_trace.specs.Reading.{trace_of, found_from, fault_after, end_unless, behind};
ghost use Rattle.em_trace.specs.Traces.{Gives};

use crate::judging::{Line, judge};
use crate::line::{is, split};
use em_log::{EndKind, Entry, List};
use std::alloc::Global;
use thiserror::Error;

/// A history, its oldest entry first, and how it ended.
#[derive(Debug, Drop)]
pub struct Trace {
    pub entries: List<Entry>,
    pub end: EndKind,
}

/// Why a trace was not read.
#[derive(Debug, Drop, Error)]
pub enum TraceEnd {
    /// The first line that fails, from 1, and the least rule that fails there: 1 to 5.
    #[error("line {line} rule {rule}")]
    Refused { line: u64, rule: u8 },
    #[error("out of memory")]
    NoMemory,
}

fn refused(line: u64, rule: u8) -> TraceEnd
    ensures { result ≡ TraceEnd.Refused line rule }
{
    TraceEnd::Refused { line, rule }
}

/// What fails behind the last line, from the line of this number on.
#[tactic(auto, unfolding(crate::specs::Reading::fault_after), using(crate::proofs::Lines::fault_after_more))]
fn fault_after(number: u64, place: u64, bytes: &[u8]) -> Option<(u64, u8)>
    ensures { result ≡ fault_after number place (pieces 10 bytes.now) }
{
    let (line, rest) = split(b'\n', bytes);
    let Some(_) = rest else {
        return if line.is_empty() {
            None
        } else {
            Some((number, 2))
        };
    };
    match judge(place, line) {
        Ok(_) => Some((number, 5)),
        Err(rule) => Some((number, rule)),
    }
}

fn ended(entries: List<Entry>, end: EndKind, fault: Option<(u64, u8)>) -> Result<Trace, TraceEnd>
    ensures { Gives result (behind entries (end_unless end fault)) }
{
    match fault {
        None => Ok(Trace { entries, end }),
        Some((line, rule)) => Err(refused(line, rule)),
    }
}

/// The lines from line 2 on.
fn read_lines(alloc: Global, bytes: &[u8]) -> Result<Trace, TraceEnd>
    ensures { Gives result (found_from 2 0 (pieces 10 bytes.now)) }
{
    let mut entries = List::new(alloc);
    let mut rest = bytes;
    let mut number = 2;
    let mut place = 0;
    'lines: loop {
        let (line, after) = split(b'\n', rest);
        let Some(after) = after else {
            return Err(refused(number, if line.is_empty() { 5 } else { 2 }));
        };
        match judge(place, line) {
            Err(rule) => return Err(refused(number, rule)),
            Ok(Line::End(end)) => {
                let fault = fault_after(number + 1, place, after);
                return ended(entries, end, fault);
            }
            Ok(Line::Entry(entry)) => {
                if entries.push(entry).is_err() {
                    return Err(TraceEnd::NoMemory);
                }
            }
        }
        rest = after;
        number += 1;
        place += 1;
    }
}

#[tactic(auto, unfolding(crate::specs::Reading::trace_of))]
fn read_trace(alloc: Global, bytes: &[u8]) -> Result<Trace, TraceEnd>
    ensures { Gives result (trace_of bytes.now) }
{
    let (head, rest) = split(b'\n', bytes);
    if !is(head, "trace 1") {
        return Err(refused(1, 1));
    }
    match rest {
        Some(rest) => read_lines(alloc, rest),
        None => Err(refused(1, 2)),
    }
}

/// The history and end of which these bytes are the text, or the first line that fails and the least rule that fails there.
pub fn read_history(alloc: Global, bytes: &[u8]) -> Result<Trace, TraceEnd>
    // What is read is the history and end of which the bytes are the text.
    ensures found { IfOk result (λ trace.
        AreEntries trace.entries × (bytes.now ≡ text trace.entries trace.end)) }

    // The text of a history and end is read, unless memory runs out.
    ensures only { (history : List Entry) (end : EndKind) → AreEntries history
        → bytes.now ≡ text history end → Gives result (Ok (history, end)) }

    // Which line fails, and by which rule.
    ensures exact { Gives result (trace_of bytes.now) }
{
    read_trace(alloc, bytes)
}
