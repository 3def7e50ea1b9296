//! Writing a history.
ghost use Rattle.std.specs.Prelude.{◌≡◌, ◌≤◌, ◌+◌, ◌∷◌, ◌++◌, [], length, decimal, OnOk, OnErr, IsErrOf};
ghost use Rattle.em_trace.specs.Fitting.{WhatFits, EntryFits, AreEntries};
ghost use Rattle.em_trace.specs.Line.{spaced};
ghost use Rattle.em_trace.specs.Forms.{what_tokens, entry_form};
ghost use Rattle.em_trace.specs.Text.{line, text, head_word, end_word};
ghost use Rattle.std.specs.Io.KnownBytes.{append_known};
ghost use Rattle.em_io.specs.Faults.{HasRisen};
ghost use Rattle.em_io.specs.Sink.{AppendsPrefix};

use crate::fields::{
    body, call, cells, content, core, eo, event, event_group, fault, handle, job, notes, op,
    outcome, pool, queue, received, scope, some_cells, stamped, ticket,
};
use crate::text::Text;
use em_io::{Sink, SinkEnd};
use em_log::{EndKind, Entry, What};

#[tactic(auto, using(crate::proofs::Spacing::spaced_append))]
fn what(line: &mut Text, what: &What)
    requires { length line.old ≤ 42 }
    ensures text { line.new ≡ line.old ++ spaced (what_tokens what.now) }
    ensures length { length line.new ≤ 600 }
    ensures fits { WhatFits what.now }
{
    match what {
        What::Enter(about) => {
            line.word("enter");
            body(line, *about);
        }
        What::Take {
            queue: id,
            n,
            ticket: drawn,
        } => {
            line.word("take");
            queue(line, *id);
            line.number(u64::from(*n));
            ticket(line, *drawn);
        }
        What::Start {
            queue: id,
            event: received,
            stamp,
        } => {
            line.word("start");
            queue(line, *id);
            event(line, received);
            stamped(line, *stamp);
        }
        What::Untake { queue: id, n } => {
            line.word("untake");
            queue(line, *id);
            line.number(u64::from(*n));
        }
        What::End { lost, cells: left } => {
            line.word("end");
            line.word("lost");
            line.number(u64::from(*lost));
            some_cells(line, left);
        }
        What::EndAtomic { rest, cells: left } => {
            line.word("endatomic");
            line.word("rest");
            line.number(u64::from(*rest));
            cells(line, left);
        }
        What::EndOrdered => {
            line.word("endordered");
        }
        What::EndGroup => {
            line.word("endgroup");
        }
        What::Alloc {
            pool: id,
            event: made,
        } => {
            line.word("alloc");
            pool(line, *id);
            event(line, made);
        }
        What::Free(id) => {
            line.word("free");
            handle(line, *id);
        }
        What::Send {
            handle: id,
            queue: to,
            ticket: drawn,
            stamp: under,
        } => {
            line.word("send");
            handle(line, *id);
            queue(line, *to);
            ticket(line, *drawn);
            stamped(line, *under);
        }
        What::Keep(id) => {
            line.word("keep");
            handle(line, *id);
        }
        What::Claim(claimed) => {
            line.word("claim");
            received(line, claimed);
        }
        What::Dequeue {
            queue: id,
            event: got,
        } => {
            line.word("dequeue");
            queue(line, *id);
            received(line, got);
        }
        What::Out {
            queue: id,
            kind,
            words,
        } => {
            line.word("out");
            queue(line, *id);
            content(line, *kind, words);
        }
        What::Say(value) => {
            line.word("say");
            line.number(*value);
        }
        What::Enable(id) => {
            line.word("enable");
            queue(line, *id);
        }
        What::Disable(id) => {
            line.word("disable");
            queue(line, *id);
        }
        What::Begin {
            op: id,
            job: begun,
            notes: list,
        } => {
            line.word("begin");
            op(line, *id);
            job(line, *begun);
            notes(line, list.as_slice());
        }
        What::GlobalDone { op: id, ok } => {
            line.word("gdone");
            op(line, *id);
            outcome(line, *ok);
        }
        What::Ack(id) => {
            line.word("ack");
            op(line, *id);
        }
        What::Done { op: id, ok } => {
            line.word("done");
            op(line, *id);
            outcome(line, *ok);
        }
        What::Apply {
            group: id,
            app,
            count,
            notes: list,
        } => {
            line.word("apply");
            event_group(line, *id);
            line.number(u64::from(*app));
            line.number(*count);
            notes(line, list.as_slice());
        }
        What::Increment { group: id, n } => {
            line.word("increment");
            event_group(line, *id);
            line.number(*n);
        }
        What::Abort(id) => {
            line.word("abort");
            event_group(line, *id);
        }
        What::Notify { group: id, app } => {
            line.word("notify");
            event_group(line, *id);
            line.number(u64::from(*app));
        }
        What::Fault {
            call: refused,
            fault: why,
            scope: server,
        } => {
            line.word("fault");
            call(line, *refused);
            fault(line, *why);
            scope(line, *server);
        }
    }
}

/// A line with its newline, at most 640 bytes.
#[tactic(auto, unfolding(crate::specs::Text::line), using(crate::proofs::Spacing::spaced_append))]
fn line_of(place: u64, entry: &Entry) -> Text
    ensures text { result ≡ line place entry.now }
    ensures short { length (line place entry.now) ≤ 640 }
    ensures fits { EntryFits entry.now }
{
    let mut line = Text::new();
    line.digits(place);
    core(&mut line, entry.core);
    what(&mut line, &entry.what);
    line.push(b'\n');
    line
}

/// Writes a piece in one call.
fn put<K: Sink>(sink: &mut K, piece: &[u8]) -> Result<(), SinkEnd>
    ensures whole { OnOk result (K.written sink.new ≡ append_known (K.written sink.old) piece.now) }
    ensures part { OnErr result (AppendsPrefix (K.written sink.old) (K.written sink.new) piece.now) }
    ensures no_memory_none { IsErrOf result SinkEnd.NoMemory → K.written sink.new ≡ K.written sink.old }
    ensures failed { IsErrOf result SinkEnd.Failed → HasRisen (K.faults sink.old) (K.faults sink.new) }
    ensures sound { ¬ IsErrOf result SinkEnd.Failed → K.faults sink.new ≡ K.faults sink.old }
    ensures never_falls { K.faults sink.old ≤ K.faults sink.new }
{
    sink.write(piece)
}

/// Writes the line of an entry at its place, in one call. The answer is the sink's.
pub fn write_entry<K: Sink>(sink: &mut K, place: u64, entry: &Entry) -> Result<(), SinkEnd>
    ensures whole { OnOk result (K.written sink.new ≡ append_known (K.written sink.old) (line place entry.now)) }
    ensures part { OnErr result (AppendsPrefix (K.written sink.old) (K.written sink.new) (line place entry.now)) }
    ensures no_memory_none { IsErrOf result SinkEnd.NoMemory → K.written sink.new ≡ K.written sink.old }
    ensures short { length (line place entry.now) ≤ 640 }
    ensures fits { EntryFits entry.now }

    ensures failed { IsErrOf result SinkEnd.Failed → HasRisen (K.faults sink.old) (K.faults sink.new) }
    ensures sound { ¬ IsErrOf result SinkEnd.Failed → K.faults sink.new ≡ K.faults sink.old }
    ensures never_falls { K.faults sink.old ≤ K.faults sink.new }
{
    let line = line_of(place, entry);
    put(sink, line.as_slice())
}

fn end_line(end: EndKind) -> &'static str
    ensures { result.now ≡ end_word end ++ 10 ∷ [] }
{
    match end {
        EndKind::Quiet => "quiet\n",
        EndKind::Limit => "limit\n",
    }
}

/// Writes the text of a history, its oldest entry first, and its end. After an answer that is not Ok nothing more is written.
pub fn write_history<K: Sink>(sink: &mut K, log: &[Entry], end: EndKind) -> Result<(), SinkEnd>
    ensures whole { OnOk result (K.written sink.new ≡ append_known (K.written sink.old) (text log.now end)) }

    // The numbers of what is written whole fit their types, so that no other such history has the text.
    ensures fits { OnOk result (AreEntries log.now) }

    // A prefix of the text: its whole lines are those of the first entries.
    ensures part { OnErr result (AppendsPrefix (K.written sink.old) (K.written sink.new) (text log.now end)) }

    ensures failed { IsErrOf result SinkEnd.Failed → HasRisen (K.faults sink.old) (K.faults sink.new) }
    ensures sound { ¬ IsErrOf result SinkEnd.Failed → K.faults sink.new ≡ K.faults sink.old }
    ensures never_falls { K.faults sink.old ≤ K.faults sink.new }
{
    if let Err(end) = put(sink, b"trace 1\n") {
        return Err(end);
    }
    for (place, entry) in log.iter().enumerate() {
        if let Err(end) = write_entry(sink, place as u64, entry) {
            return Err(end);
        }
    }
    put(sink, end_line(end).as_bytes())
}
