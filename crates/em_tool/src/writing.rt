//! Writing what is due, in one call for each line.
ghost use Rattle.std.specs.Prelude.{◌≡◌, ◌<◌, ◌≤◌, ◌+◌, ◌==◌, IfOk, IsErrOf, OnErr, OnOk, length, position, string_bytes};
ghost use Rattle.std.specs.Option.{option_map_or};
ghost use Rattle.std.specs.Io.KnownBytes.{append_known};
ghost use Rattle.em_io.specs.Faults.{HasRisen};
ghost use Rattle.em_io.specs.Sink.{AppendsPrefix};
ghost use Rattle.em_tool.specs.Outcome.{Fits, bytes_of, refused_text, told_of};

use crate::outcome::Outcome;
use em_io::{Sink, SinkEnd};
use em_trace::write_history;
use std::alloc::{AllocError, Global};

/// Writes one line in one call.
fn put<K: Sink>(sink: &mut K, line: &[u8]) -> Result<(), SinkEnd>
    ensures whole { OnOk result (K.written sink.new ≡ append_known (K.written sink.old) line.now) }
    ensures part { OnErr result (AppendsPrefix (K.written sink.old) (K.written sink.new) line.now) }
    ensures failed { IsErrOf result SinkEnd.Failed → HasRisen (K.faults sink.old) (K.faults sink.new) }
    ensures sound { ¬ IsErrOf result SinkEnd.Failed → K.faults sink.new ≡ K.faults sink.old }
{
    sink.write(line)
}

/// Where the first newline is.
fn first_newline(bytes: &[u8]) -> Option<usize>
    ensures { result ≡ position (λ byte. byte == 10) bytes.now }
{
    bytes.iter().position(|byte| *byte == b'\n')
}

/// Where the first line ends, behind its newline.
fn line_end(bytes: &[u8]) -> usize
    requires { 0 < length bytes.now }
    ensures place { result ≡ option_map_or (λ at. at + 1) (position (λ byte. byte == 10) bytes.now) (length bytes.now) }
    ensures some { 0 < result }
    ensures most { result ≤ length bytes.now }
{
    match first_newline(bytes) {
        Some(at) => at + 1,
        None => bytes.len(),
    }
}

/// Writes the bytes line by line. After an answer that is not Ok nothing more is written.
fn put_lines<K: Sink>(sink: &mut K, bytes: &[u8]) -> Result<(), SinkEnd>
    ensures whole { OnOk result (K.written sink.new ≡ append_known (K.written sink.old) bytes.now) }
    ensures part { OnErr result (AppendsPrefix (K.written sink.old) (K.written sink.new) bytes.now) }
    ensures failed { IsErrOf result SinkEnd.Failed → HasRisen (K.faults sink.old) (K.faults sink.new) }
    ensures sound { ¬ IsErrOf result SinkEnd.Failed → K.faults sink.new ≡ K.faults sink.old }
{
    let mut at = 0;
    'lines: while at < bytes.len() {
        let end = at + line_end(&bytes[at..]);
        if let Err(failure) = put(sink, &bytes[at..end]) {
            return Err(failure);
        }
        at = end;
    }
    Ok(())
}

/// The line that tells where a script is refused.
fn refusal(alloc: Global, line: u64, rule: u8) -> Result<String, AllocError>
    ensures { IfOk result (λ text. string_bytes text ≡ refused_text line rule) }
{
    format!(in alloc; "refused line {line} rule {rule}\n")
}

/// Writes where a script is refused.
fn put_refusal<K: Sink>(alloc: Global, sink: &mut K, line: u64, rule: u8) -> Result<(), SinkEnd>
    ensures whole { OnOk result (K.written sink.new ≡ append_known (K.written sink.old) (refused_text line rule)) }
    ensures part { OnErr result (AppendsPrefix (K.written sink.old) (K.written sink.new) (refused_text line rule)) }
    ensures failed { IsErrOf result SinkEnd.Failed → HasRisen (K.faults sink.old) (K.faults sink.new) }
    ensures sound { ¬ IsErrOf result SinkEnd.Failed → K.faults sink.new ≡ K.faults sink.old }
{
    let Ok(text) = refusal(alloc, line, rule) else {
        return Err(SinkEnd::NoMemory);
    };
    put(sink, text.as_bytes())
}

/// Writes the text that is due.
pub fn write<K: Sink>(alloc: Global, sink: &mut K, outcome: &Outcome) -> Result<(), SinkEnd>
    ensures whole { OnOk result (K.written sink.new ≡ append_known (K.written sink.old) (bytes_of (told_of outcome.now))) }
    ensures part { OnErr result (AppendsPrefix (K.written sink.old) (K.written sink.new) (bytes_of (told_of outcome.now))) }
    ensures fits { OnOk result (Fits (told_of outcome.now)) }
    ensures failed { IsErrOf result SinkEnd.Failed → HasRisen (K.faults sink.old) (K.faults sink.new) }
    ensures sound { ¬ IsErrOf result SinkEnd.Failed → K.faults sink.new ≡ K.faults sink.old }
{
    match outcome {
        Outcome::NotKnown => put(sink, b"words not known\n"),
        Outcome::ReadFailed => put(sink, b"read failed\n"),
        Outcome::TooLong => put(sink, b"input too long\n"),
        Outcome::Refused { line, rule } => put_refusal(alloc, sink, *line, *rule),
        Outcome::NotRunnable => put_refusal(alloc, sink, 1, 12),
        Outcome::Ran(desk, end) => write_history(sink, desk.log(), *end),
        Outcome::Checked(bytes) => put_lines(sink, bytes.as_slice()),
    }
}
