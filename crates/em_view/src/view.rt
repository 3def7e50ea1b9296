//! The top call: from a trace to its page.
ghost use Rattle.std.specs.Prelude.{◌≡◌, ◌++◌, IfOk, length, string_bytes};
ghost use Rattle.em_trace.specs.Reading.{trace_of};
ghost use Rattle.em_view.specs.Outcome.{Answers, ComesTo, Due, refused_text, status_of, told_of};

use crate::outcome::Outcome;
use crate::page::page;
use em_io::{ReadEnd, Sink, SinkEnd, Source, read_all};
use em_trace::{TraceEnd, read_history};
use std::alloc::{AllocError, Global};

/// The most bytes that a trace may have.
const MOST_BYTES: usize = 1_048_576;

/// What these bytes come to. Err is want of memory.
#[tactic(auto, using(crate::proofs::Answering::is_drawn, crate::proofs::Answering::is_refused))]
fn outcome_of(alloc: Global, bytes: &[u8]) -> Result<Outcome, AllocError>
    ensures { IfOk result (λ o. ComesTo (trace_of bytes.now) o) }
{
    match read_history(alloc, bytes) {
        Ok(trace) => Ok(Outcome::Drawn(page(alloc, &trace, bytes)?)),
        Err(TraceEnd::Refused { line, rule }) => Ok(Outcome::Refused { line, rule }),
        Err(TraceEnd::NoMemory) => Err(AllocError),
    }
}

/// What the input comes to. Err is want of memory.
fn read_outcome<S: Source>(alloc: Global, source: &mut S) -> Result<Outcome, AllocError>
    ensures { IfOk result (λ o. Due 0
        (record {
          left = S.left source.old;
          left_after = S.left source.new;
          given = S.given source.old;
          given_after = S.given source.new;
          faults = S.faults source.old;
          faults_after = S.faults source.new;
        })
        (status_of o) (told_of o)) }
{
    match read_all(alloc, source, MOST_BYTES) {
        Ok(bytes) => outcome_of(alloc, bytes.as_slice()),
        Err(ReadEnd::Failed) => Ok(Outcome::ReadFailed),
        Err(ReadEnd::TooLong) => Ok(Outcome::TooLong),
        Err(ReadEnd::NoMemory) => Err(AllocError),
    }
}

/// What the words and the input come to. Nothing is read where there are words. Err is want of memory.
fn outcome<S: Source>(
    alloc: Global,
    words: &[String],
    source: &mut S,
) -> Result<Outcome, AllocError>
    ensures { IfOk result (λ o. Due (length words.now)
        (record {
          left = S.left source.old;
          left_after = S.left source.new;
          given = S.given source.old;
          given_after = S.given source.new;
          faults = S.faults source.old;
          faults_after = S.faults source.new;
        })
        (status_of o) (told_of o)) }
{
    if words.is_empty() {
        read_outcome(alloc, source)
    } else {
        Ok(Outcome::NotKnown)
    }
}

fn refusal(alloc: Global, line: u64, rule: u8) -> Result<Vec<u8>, AllocError>
    ensures { IfOk result (λ text. text.items ≡ refused_text line rule) }
{
    let text = format!(in alloc; "trace refused line {line} rule {rule}\n")?;
    text.as_bytes().to_vec(alloc)
}

/// The status that is due, and the text. Err is want of memory.
fn told(alloc: Global, outcome: Outcome) -> Result<(u8, Vec<u8>), AllocError>
    ensures { IfOk result (λ told. (told.0 ≡ status_of outcome) × (told.1.items ≡ told_of outcome)) }
{
    match outcome {
        Outcome::NotKnown => Ok((2, b"words not known\n".to_vec(alloc)?)),
        Outcome::ReadFailed => Ok((5, b"read failed\n".to_vec(alloc)?)),
        Outcome::TooLong => Ok((6, b"input too long\n".to_vec(alloc)?)),
        Outcome::Refused { line, rule } => Ok((4, refusal(alloc, line, rule)?)),
        Outcome::Drawn(page) => Ok((0, page)),
    }
}

/// The status that is due, and the text, for the words and the input. Err is want of memory.
fn due<S: Source>(
    alloc: Global,
    words: &[String],
    source: &mut S,
) -> Result<(u8, Vec<u8>), AllocError>
    ensures { IfOk result (λ told. Due (length words.now)
        (record {
          left = S.left source.old;
          left_after = S.left source.new;
          given = S.given source.old;
          given_after = S.given source.new;
          faults = S.faults source.old;
          faults_after = S.faults source.new;
        })
        told.0 told.1.items) }
{
    told(alloc, outcome(alloc, words, source)?)
}

/// Reads a trace, writes its page in one call, and returns the status: 0 for a page, 1 where writing failed, 2 where there are
/// words, 4 where the input is no trace, 5 where reading failed, 6 where the input is too long, 7 for want of memory.
pub fn em_view<S: Source, K: Sink>(
    alloc: Global,
    words: &[String],
    source: &mut S,
    sink: &mut K,
) -> u8
    // Each status has its cause, and each cause its text, a page where it is drawn.
    ensures { Answers (length words.now)
        (record {
          left = S.left source.old;
          left_after = S.left source.new;
          given = S.given source.old;
          given_after = S.given source.new;
          faults = S.faults source.old;
          faults_after = S.faults source.new;
        })
        (K.written sink.old) (K.written sink.new) (K.faults sink.old) (K.faults sink.new) result }
{
    let Ok((status, text)) = due(alloc, words, source) else {
        return 7;
    };
    match sink.write(text.as_slice()) {
        Ok(()) => status,
        Err(SinkEnd::Failed) => 1,
        Err(SinkEnd::NoMemory) => 7,
    }
}
