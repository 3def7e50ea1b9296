//! The fields of a line, written from left to right, each token after a space.
ghost use Rattle.std.specs.Prelude.{◌≡◌, ◌≤◌, ◌+◌, ◌*◌, ◌∷◌, ◌++◌, [], length, take, decimal, codes, flat_map};
ghost use Rattle.std.specs.List.{AllByRecursion};
ghost use Rattle.em_trace.specs.Fitting.{IsU8, IsU16, IsU32, IsU64, AreWords, EventFits, StampFits, NoteFits, AreNotes, CellsFit, BodyFits, JobFits, FaultFits, OptionFits};
ghost use Rattle.em_trace.specs.Line.{spaced};
ghost use Rattle.em_trace.specs.Forms.{word_of_call, core_form, group_form, body_form, queue_form, pool_form, handle_form, egroup_form, eo_form, op_form, event_form, received_form, content_form, words_form, stamp_form, stamped_form, ticket_form, notes_form, note_form, cells_form, some_cells_form, eight_form, outcome_form, job_form, scope_form, fault_form, call_form, u64_form, numbers_of_fault, number_of_kind, number_of_state};

use crate::text::Text;
use em_log::{
    Begun, Body, Call, Cells, CoreId, EoId, EoState, Event, EventGroupId, Fault, GroupId, Handle,
    Kind, Note, OpId, PoolId, QueueId, Stamp, Words,
};

pub(crate) fn core(line: &mut Text, id: CoreId)
    requires { length line.old + 22 ≤ 640 }
    ensures text { line.new ≡ line.old ++ spaced (core_form.write id) }
    ensures length { length line.new ≤ length line.old + 22 }
    ensures fits { IsU8 id.0 }
{
    line.marked(b'c', u64::from(id.0));
}

pub(crate) fn queue(line: &mut Text, id: QueueId)
    requires { length line.old + 22 ≤ 640 }
    ensures text { line.new ≡ line.old ++ spaced (queue_form.write id) }
    ensures length { length line.new ≤ length line.old + 22 }
    ensures fits { IsU16 id.0 }
{
    line.marked(b'q', u64::from(id.0));
}

pub(crate) fn pool(line: &mut Text, id: PoolId)
    requires { length line.old + 22 ≤ 640 }
    ensures text { line.new ≡ line.old ++ spaced (pool_form.write id) }
    ensures length { length line.new ≤ length line.old + 22 }
    ensures fits { IsU8 id.0 }
{
    line.marked(b'p', u64::from(id.0));
}

pub(crate) fn event_group(line: &mut Text, id: EventGroupId)
    requires { length line.old + 22 ≤ 640 }
    ensures text { line.new ≡ line.old ++ spaced (egroup_form.write id) }
    ensures length { length line.new ≤ length line.old + 22 }
    ensures fits { IsU8 id.0 }
{
    line.marked(b'e', u64::from(id.0));
}

pub(crate) fn eo(line: &mut Text, id: EoId)
    requires { length line.old + 22 ≤ 640 }
    ensures text { line.new ≡ line.old ++ spaced (eo_form.write id) }
    ensures length { length line.new ≤ length line.old + 22 }
    ensures fits { IsU8 id.0 }
{
    line.marked(b'o', u64::from(id.0));
}

pub(crate) fn group(line: &mut Text, id: GroupId)
    requires { length line.old + 22 ≤ 640 }
    ensures text { line.new ≡ line.old ++ spaced (group_form.write id) }
    ensures length { length line.new ≤ length line.old + 22 }
    ensures fits { IsU8 id.0 }
{
    line.marked(b'g', u64::from(id.0));
}

pub(crate) fn op(line: &mut Text, id: OpId)
    requires { length line.old + 22 ≤ 640 }
    ensures text { line.new ≡ line.old ++ spaced (op_form.write id) }
    ensures length { length line.new ≤ length line.old + 22 }
    ensures fits { IsU16 id.0 }
{
    line.number(u64::from(id.0));
}

pub(crate) fn handle(line: &mut Text, id: Handle)
    requires { length line.old + 22 ≤ 640 }
    ensures text { line.new ≡ line.old ++ spaced (handle_form.write id) }
    ensures length { length line.new ≤ length line.old + 22 }
    ensures fits { IsU64 id.0 }
{
    line.number(id.0);
}

pub(crate) fn ticket(line: &mut Text, ticket: Option<u32>)
    requires { length line.old + 34 ≤ 640 }
    ensures text { line.new ≡ line.old ++ spaced (ticket_form.write ticket) }
    ensures length { length line.new ≤ length line.old + 34 }
    ensures fits { OptionFits IsU32 ticket }
{
    if let Some(ticket) = ticket {
        line.word("ticket");
        line.number(u64::from(ticket));
    }
}

fn stamp(line: &mut Text, stamp: Stamp)
    requires { length line.old + 44 ≤ 640 }
    ensures text { line.new ≡ line.old ++ spaced (stamp_form.write stamp) }
    ensures length { length line.new ≤ length line.old + 44 }
    ensures fits { StampFits stamp }
{
    event_group(line, stamp.group);
    line.number(u64::from(stamp.app));
}

pub(crate) fn stamped(line: &mut Text, stamped: Option<Stamp>)
    requires { length line.old + 56 ≤ 640 }
    ensures text { line.new ≡ line.old ++ spaced (stamped_form.write stamped) }
    ensures length { length line.new ≤ length line.old + 56 }
    ensures fits { OptionFits StampFits stamped }
{
    if let Some(under) = stamped {
        line.word("stamp");
        stamp(line, under);
    }
}

fn numbers(line: &mut Text, numbers: &[u64])
    requires { length line.old + 22 * length numbers.now ≤ 640 }
    ensures text { line.new ≡ line.old ++ spaced (flat_map u64_form.write numbers.now) }
    ensures length { length line.new ≤ length line.old + 22 * length numbers.now }
    ensures fits { AllByRecursion IsU64 numbers.now }
{
    for number in numbers {
        line.number(*number);
    }
}

fn words(line: &mut Text, words: &[u64])
    requires few { length words.now ≤ 16 }
    requires room { length line.old + 386 ≤ 640 }
    ensures text { line.new ≡ line.old ++ spaced (words_form.write words.now) }
    ensures length { length line.new ≤ length line.old + 386 }
    ensures fits { AreWords words.now }
{
    line.word("words");
    line.number(words.len() as u64);
    numbers(line, words);
}

pub(crate) fn content(line: &mut Text, kind: u32, words: &Words)
    requires { length line.old + 420 ≤ 640 }
    ensures text { line.new ≡ line.old ++ spaced (content_form.write (kind, words.now)) }
    ensures length { length line.new ≤ length line.old + 420 }
    ensures fits { IsU32 kind × AreWords words.now }
{
    line.word("kind");
    line.number(u64::from(kind));
    self::words(line, words.as_slice());
}

pub(crate) fn event(line: &mut Text, event: &Event)
    requires { length line.old + 442 ≤ 640 }
    ensures text { line.new ≡ line.old ++ spaced (event_form.write event.now) }
    ensures length { length line.new ≤ length line.old + 442 }
    ensures fits { EventFits event.now }
{
    handle(line, event.handle);
    content(line, event.kind, &event.words);
}

pub(crate) fn received(line: &mut Text, received: &Option<Event>)
    requires { length line.old + 442 ≤ 640 }
    ensures text { line.new ≡ line.old ++ spaced (received_form.write received.now) }
    ensures length { length line.new ≤ length line.old + 442 }
    ensures fits { OptionFits EventFits received.now }
{
    match received {
        None => line.word("none"),
        Some(received) => event(line, received),
    }
}

fn note(line: &mut Text, note: Note)
    requires { length line.old + 44 ≤ 640 }
    ensures text { line.new ≡ line.old ++ spaced (note_form.write note) }
    ensures length { length line.new ≤ length line.old + 44 }
    ensures fits { NoteFits note }
{
    line.number(note.word);
    queue(line, note.queue);
}

fn each_note(line: &mut Text, notes: &[Note])
    requires { length line.old + 44 * length notes.now ≤ 640 }
    ensures text { line.new ≡ line.old ++ spaced (flat_map note_form.write notes.now) }
    ensures length { length line.new ≤ length line.old + 44 * length notes.now }
    ensures fits { AllByRecursion NoteFits notes.now }
{
    for each in notes {
        note(line, *each);
    }
}

pub(crate) fn notes(line: &mut Text, notes: &[Note])
    requires few { length notes.now ≤ 8 }
    requires room { length line.old + 386 ≤ 640 }
    ensures text { line.new ≡ line.old ++ spaced (notes_form.write notes.now) }
    ensures length { length line.new ≤ length line.old + 386 }
    ensures fits { AreNotes notes.now }
{
    line.word("notes");
    line.number(notes.len() as u64);
    each_note(line, notes);
}

fn eight(line: &mut Text, cells: &Cells)
    requires { length line.old + 176 ≤ 640 }
    ensures text { line.new ≡ line.old ++ spaced (eight_form.write cells.now) }
    ensures length { length line.new ≤ length line.old + 176 }
    ensures fits { CellsFit cells.now }
{
    numbers(line, &cells.0);
}

pub(crate) fn cells(line: &mut Text, cells: &Cells)
    requires { length line.old + 188 ≤ 640 }
    ensures text { line.new ≡ line.old ++ spaced (cells_form.write cells.now) }
    ensures length { length line.new ≤ length line.old + 188 }
    ensures fits { CellsFit cells.now }
{
    line.word("cells");
    eight(line, cells);
}

pub(crate) fn some_cells(line: &mut Text, cells: &Option<Cells>)
    requires { length line.old + 188 ≤ 640 }
    ensures text { line.new ≡ line.old ++ spaced (some_cells_form.write cells.now) }
    ensures length { length line.new ≤ length line.old + 188 }
    ensures fits { OptionFits CellsFit cells.now }
{
    if let Some(cells) = cells {
        line.word("cells");
        eight(line, cells);
    }
}

pub(crate) fn outcome(line: &mut Text, ok: bool)
    requires { length line.old + 12 ≤ 640 }
    ensures text { line.new ≡ line.old ++ spaced (outcome_form.write ok) }
    ensures length { length line.new ≤ length line.old + 12 }
{
    line.word(if ok { "ok" } else { "failed" });
}

pub(crate) fn body(line: &mut Text, body: Body)
    requires { length line.old + 34 ≤ 640 }
    ensures text { line.new ≡ line.old ++ spaced (body_form.write body) }
    ensures length { length line.new ≤ length line.old + 34 }
    ensures fits { BodyFits body }
{
    match body {
        Body::Boot => line.word("boot"),
        Body::GlobalStart(id) => {
            line.word("gstart");
            op(line, id);
        }
        Body::LocalStart(id) => {
            line.word("lstart");
            op(line, id);
        }
        Body::LocalStop(id) => {
            line.word("lstop");
            op(line, id);
        }
        Body::GlobalStop(id) => {
            line.word("gstop");
            op(line, id);
        }
    }
}

pub(crate) fn job(line: &mut Text, job: Begun)
    requires { length line.old + 56 ≤ 640 }
    ensures text { line.new ≡ line.old ++ spaced (job_form.write job) }
    ensures length { length line.new ≤ length line.old + 56 }
    ensures fits { JobFits job }
{
    match job {
        Begun::Start(id) => {
            line.word("start");
            eo(line, id);
        }
        Begun::Stop(id) => {
            line.word("stop");
            eo(line, id);
        }
        Begun::Modify(id, mask) => {
            line.word("modify");
            group(line, id);
            line.number(mask);
        }
    }
}

pub(crate) fn scope(line: &mut Text, scope: Option<EoId>)
    requires { length line.old + 22 ≤ 640 }
    ensures text { line.new ≡ line.old ++ spaced (scope_form.write scope) }
    ensures length { length line.new ≤ length line.old + 22 }
    ensures fits { OptionFits (λ eo. IsU8 eo.0) scope }
{
    match scope {
        None => line.word("global"),
        Some(id) => eo(line, id),
    }
}

fn word_of(call: Call) -> &'static str
    ensures word { result.now ≡ word_of_call call }
    ensures short { length result.now ≤ 11 }
{
    match call {
        Call::Alloc => "alloc",
        Call::Free => "free",
        Call::Send => "send",
        Call::Keep => "keep",
        Call::Dequeue => "dequeue",
        Call::Enable => "enable",
        Call::Disable => "disable",
        Call::EndAtomic => "endatomic",
        Call::EndOrdered => "endordered",
        Call::EndGroup => "endgroup",
        Call::Cell => "cell",
        Call::Apply => "apply",
        Call::Increment => "increment",
        Call::Abort => "abort",
        Call::Start => "start",
        Call::Stop => "stop",
        Call::Modify => "modify",
        Call::Fail => "fail",
        Call::Note => "note",
    }
}

pub(crate) fn call(line: &mut Text, call: Call)
    requires { length line.old + 12 ≤ 640 }
    ensures text { line.new ≡ line.old ++ spaced (call_form.write call) }
    ensures length { length line.new ≤ length line.old + 12 }
{
    line.word(word_of(call));
}

fn number_of_kind(kind: Kind) -> u64
    ensures { result ≡ number_of_kind kind }
{
    match kind {
        Kind::Atomic => 0,
        Kind::Parallel => 1,
        Kind::Ordered => 2,
        Kind::Local => 3,
        Kind::Unscheduled => 4,
        Kind::Output => 5,
    }
}

fn number_of_state(state: EoState) -> u64
    ensures { result ≡ number_of_state state }
{
    match state {
        EoState::Created => 0,
        EoState::Starting => 1,
        EoState::Running => 2,
        EoState::Stopping => 3,
    }
}

/// The number of a fault and its detail.
fn numbers_of(fault: Fault) -> (u64, u64)
    ensures { result ≡ numbers_of_fault fault }
{
    match fault {
        Fault::NeverMinted(word) => (1, word),
        Fault::SpentBySend(place) => (2, place),
        Fault::SpentByFree(place) => (3, place),
        Fault::HeldElsewhere(core) => (4, u64::from(core.0)),
        Fault::QueueClosed(state) => (5, u64::from(state)),
        Fault::WrongKind(kind) => (6, number_of_kind(kind)),
        Fault::NotAtomic => (7, 0),
        Fault::NotOrdered => (8, 0),
        Fault::NoGroup => (9, 0),
        Fault::GroupBusy(left) => (10, u64::from(left)),
        Fault::GroupIdle(group) => (11, u64::from(group.0)),
        Fault::OpPending(op) => (12, u64::from(op.0)),
        Fault::EoState(state) => (13, number_of_state(state)),
        Fault::BadMask(mask) => (14, mask),
        Fault::PoolEmpty(live) => (15, u64::from(live)),
        Fault::BadSize(words) => (16, u64::from(words)),
        Fault::NoteLost(queue) => (17, u64::from(queue.0)),
        Fault::BadCount(total) => (18, u64::from(total)),
        Fault::StartFailed(op) => (19, u64::from(op.0)),
        Fault::OpsSpent(begun) => (20, u64::from(begun)),
    }
}

pub(crate) fn fault(line: &mut Text, fault: Fault)
    requires { length line.old + 44 ≤ 640 }
    ensures text { line.new ≡ line.old ++ spaced (fault_form.write fault) }
    ensures length { length line.new ≤ length line.old + 44 }
    ensures fits { FaultFits fault }
{
    let (number, detail) = numbers_of(fault);
    line.number(number);
    line.number(detail);
}
