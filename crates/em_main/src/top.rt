//! The top call of all commands.
ghost use Rattle.std.specs.Prelude.{◌≡◌, ℕ, List, IfSome, map, string_bytes};
ghost use Rattle.em_log.specs.declared.ids.EndKind.{EndKind};
ghost use Rattle.em_log.specs.declared.ids.Limits.{Limits as TheLimits};
ghost use Rattle.em_tool.specs.declared.commands.Solo.{Solo};
ghost use Rattle.em_tool.specs.Words.{IsCheck, IsSolo};
ghost use Rattle.em_tool.specs.Outcome.{Answers, status_of_end};
ghost use Rattle.em_tool.specs.Headline.{CanCheck, CanRun, Checked, Headline, IsChecked, IsRun as HasRun};
ghost use Rattle.em_main.specs.Words.{IsRun, in_turns, words_in_turns};

use crate::calls::outcome;
use crate::words::run_of;
use em_io::{Sink, SinkEnd, Source};
use em_log::{Gate, Limits};
use em_script::scripts_are_read;
use em_tool::{em_plain, status, write};
use std::alloc::Global;
use std::sync::Wait;
use std::thread::Threads;

/// Does the command that the words are, and returns its status. A run has a thread for each core, and its statuses are those of
/// a run in turns; every other command is that of `em_plain`.
pub fn em_main<R: Threads + Wait + Sync, S: Source, K: Sink, G: Gate + Sync>(
    rt: &R,
    alloc: Global,
    words: &[String],
    source: &mut S,
    sink: &mut K,
    gate: &G,
) -> u8
    // A run with status 0 or 3 writes the text of one legal history of the script, which has ended so.
    ensures headline { (l : TheLimits) (end : EndKind) → IsRun (map string_bytes words.now) l → result ≡ status_of_end end
        → IfSome (S.left source.old) (λ bytes. Headline (in_turns l) bytes end (K.written sink.old) (K.written sink.new)) }

    // So does a run in turns.
    ensures headline_in_turns { (solo : Solo) → (end : EndKind) → IsSolo (map string_bytes words.now) solo → result ≡ status_of_end end
        → IfSome (S.left source.old) (λ bytes. Headline solo bytes end (K.written sink.old) (K.written sink.new)) }

    // A check with status 0 writes the canonical spelling of the script's graph.
    ensures checked { IsCheck (map string_bytes words.now) → result ≡ 0
        → IfSome (S.left source.old) (λ bytes. Checked bytes (K.written sink.old) (K.written sink.new)) }

    // It runs and checks where it can.
    ensures complete { (l : TheLimits) → IsRun (map string_bytes words.now) l
        → IfSome (S.left source.old) (λ bytes. CanRun (words_in_turns l) bytes (S.faults source.old) (S.faults source.new) (K.faults sink.old) (K.faults sink.new) → HasRun result) }
    ensures complete_in_turns { IfSome (S.left source.old) (λ bytes. CanRun (map string_bytes words.now) bytes (S.faults source.old) (S.faults source.new) (K.faults sink.old) (K.faults sink.new) → HasRun result) }
    ensures complete_check { IfSome (S.left source.old) (λ bytes. CanCheck (map string_bytes words.now) bytes (S.faults source.old) (S.faults source.new) (K.faults sink.old) (K.faults sink.new) → IsChecked result) }

    // Each status has its cause, and each cause its text.
    ensures answer { (l : TheLimits) → IsRun (map string_bytes words.now) l → Answers (words_in_turns l)
        (record {
          left = S.left source.old;
          left_after = S.left source.new;
          given = S.given source.old;
          given_after = S.given source.new;
          faults = S.faults source.old;
          faults_after = S.faults source.new;
        })
        (K.written sink.old) (K.written sink.new) (K.faults sink.old) (K.faults sink.new) result }
    ensures answer_of_others { ((l : TheLimits) → ¬ IsRun (map string_bytes words.now) l) → Answers (map string_bytes words.now)
        (record {
          left = S.left source.old;
          left_after = S.left source.new;
          given = S.given source.old;
          given_after = S.given source.new;
          faults = S.faults source.old;
          faults_after = S.faults source.new;
        })
        (K.written sink.old) (K.written sink.new) (K.faults sink.old) (K.faults sink.new) result }
{
    scripts_are_read();
    match run_of(words) {
        Some(limits) => answer(rt, alloc, limits, source, sink, gate),
        None => em_plain(alloc, words, source, sink, gate),
    }
}

/// Does the run with a thread for each core.
fn answer<R: Threads + Wait + Sync, S: Source, K: Sink, G: Gate + Sync>(
    rt: &R,
    alloc: Global,
    limits: Limits,
    source: &mut S,
    sink: &mut K,
    gate: &G,
) -> u8
    requires known { (texts : List (List ℕ)) × (IsRun texts limits) }
    ensures { Answers (words_in_turns limits)
        (record {
          left = S.left source.old;
          left_after = S.left source.new;
          given = S.given source.old;
          given_after = S.given source.new;
          faults = S.faults source.old;
          faults_after = S.faults source.new;
        })
        (K.written sink.old) (K.written sink.new) (K.faults sink.old) (K.faults sink.new) result }
{
    let Ok(outcome) = outcome(rt, alloc, limits, source, gate) else {
        return 7;
    };
    match write(alloc, sink, &outcome) {
        Ok(()) => status(&outcome),
        Err(SinkEnd::Failed) => 1,
        Err(SinkEnd::NoMemory) => 7,
    }
}
