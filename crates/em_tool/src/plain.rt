//! The top call of all commands that need no thread.
ghost use Rattle.std.specs.Prelude.{◌≡◌, IfSome, map, string_bytes};
ghost use Rattle.em_log.specs.declared.ids.EndKind.{EndKind};
ghost use Rattle.em_tool.specs.declared.commands.Solo.{Solo};
ghost use Rattle.em_tool.specs.Words.{IsCheck, IsSolo};
ghost use Rattle.em_tool.specs.Outcome.{Answers, status_of, status_of_end};
ghost use Rattle.em_tool.specs.Headline.{CanCheck, CanRun, Checked, Headline, IsChecked, IsRun};

use crate::calls::outcome;
use crate::outcome::Outcome;
use crate::writing::write;
use em_io::{Sink, SinkEnd, Source};
use em_log::{EndKind, Gate};
use em_script::scripts_are_read;
use std::alloc::Global;

/// Does the command that the words are, and returns its status: 0 for a run after which nothing is left to do, or a
/// script that is checked, 1 where writing failed, 2 where the words are no command, 3 for a run that has come to its
/// limit, 4 where the script is refused, 5 where reading failed, 6 where the input is too long, 7 for want of memory.
pub fn em_plain<S: Source, K: Sink, G: Gate>(
    alloc: Global,
    words: &[String],
    source: &mut S,
    sink: &mut K,
    gate: &G,
) -> u8
    // A run with status 0 or 3 writes the text of one legal history of the script, which has ended so.
    ensures headline { (solo : Solo) → (end : EndKind) → IsSolo (map string_bytes words.now) solo → result ≡ status_of_end end
        → IfSome (S.left source.old) (λ bytes. Headline solo bytes end (K.written sink.old) (K.written sink.new)) }

    // A check with status 0 writes the canonical spelling of the script's graph.
    ensures checked { IsCheck (map string_bytes words.now) → result ≡ 0
        → IfSome (S.left source.old) (λ bytes. Checked bytes (K.written sink.old) (K.written sink.new)) }

    // It runs and checks where it can.
    ensures complete { IfSome (S.left source.old) (λ bytes. CanRun (map string_bytes words.now) bytes (S.faults source.old) (S.faults source.new) (K.faults sink.old) (K.faults sink.new) → IsRun result) }
    ensures complete_check { IfSome (S.left source.old) (λ bytes. CanCheck (map string_bytes words.now) bytes (S.faults source.old) (S.faults source.new) (K.faults sink.old) (K.faults sink.new) → IsChecked result) }

    // Each status has its cause, and each cause its text.
    ensures answer { Answers (map string_bytes words.now)
        (record {
          left = S.left source.old;
          left_after = S.left source.new;
          given = S.given source.old;
          given_after = S.given source.new;
          faults = S.faults source.old;
          faults_after = S.faults source.new;
        })
        (K.written sink.old) (K.written sink.new) (K.faults sink.old) (K.faults sink.new) result }
{
    scripts_are_read();
    answer(alloc, words, source, sink, gate)
}

fn answer<S: Source, K: Sink, G: Gate>(
    alloc: Global,
    words: &[String],
    source: &mut S,
    sink: &mut K,
    gate: &G,
) -> u8
    ensures { Answers (map string_bytes words.now)
        (record {
          left = S.left source.old;
          left_after = S.left source.new;
          given = S.given source.old;
          given_after = S.given source.new;
          faults = S.faults source.old;
          faults_after = S.faults source.new;
        })
        (K.written sink.old) (K.written sink.new) (K.faults sink.old) (K.faults sink.new) result }
{
    let Ok(outcome) = outcome(alloc, words, source, gate) else {
        return 7;
    };
    match write(alloc, sink, &outcome) {
        Ok(()) => status(&outcome),
        Err(SinkEnd::Failed) => 1,
        Err(SinkEnd::NoMemory) => 7,
    }
}

/// The status of a run that has ended so.
fn end_status(end: EndKind) -> u8
    ensures { result ≡ status_of_end end }
{
    match end {
        EndKind::Quiet => 0,
        EndKind::Limit => 3,
    }
}

/// The status that is due.
pub fn status(outcome: &Outcome) -> u8
    ensures { result ≡ status_of outcome.now }
{
    match outcome {
        Outcome::NotKnown => 2,
        Outcome::ReadFailed => 5,
        Outcome::TooLong => 6,
        Outcome::Refused { .. } => 4,
        Outcome::NotRunnable => 4,
        Outcome::Ran(_, end) => end_status(*end),
        Outcome::Checked(_) => 0,
    }
}
