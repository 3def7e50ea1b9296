//! The entries, each behind the word of its kind.
ghost use Rattle.std.specs.Prelude.{◌≡◌};
ghost use Rattle.em_trace.specs.Form.{Reads, lookup, given};
ghost use Rattle.em_trace.specs.Forms.{what_behind, what_form, entry_form, call_form, call_words, kind_form, kind_words, fault_form, fault_of_numbers, kind_of_number, state_of_number};

use crate::kind::EntryKind;
use crate::line::{Line, is};
use crate::reading::{
    body, cells, content, core, eo, event, event_group, handle, job, notes, op, outcome, pool,
    queue, received, scope, some_cells, stamped, ticket, u8_number, u32_number, u64_number,
};
use em_log::{Call, CoreId, Entry, EoState, EventGroupId, Fault, Kind, OpId, QueueId, What};

fn call_of(token: &[u8]) -> Option<Call>
    ensures { result ≡ lookup token.now call_words }
{
    if is(token, "alloc") {
        return Some(Call::Alloc);
    }
    if is(token, "free") {
        return Some(Call::Free);
    }
    if is(token, "send") {
        return Some(Call::Send);
    }
    if is(token, "keep") {
        return Some(Call::Keep);
    }
    if is(token, "dequeue") {
        return Some(Call::Dequeue);
    }
    if is(token, "enable") {
        return Some(Call::Enable);
    }
    if is(token, "disable") {
        return Some(Call::Disable);
    }
    if is(token, "endatomic") {
        return Some(Call::EndAtomic);
    }
    if is(token, "endordered") {
        return Some(Call::EndOrdered);
    }
    if is(token, "endgroup") {
        return Some(Call::EndGroup);
    }
    if is(token, "cell") {
        return Some(Call::Cell);
    }
    if is(token, "apply") {
        return Some(Call::Apply);
    }
    if is(token, "increment") {
        return Some(Call::Increment);
    }
    if is(token, "abort") {
        return Some(Call::Abort);
    }
    if is(token, "start") {
        return Some(Call::Start);
    }
    if is(token, "stop") {
        return Some(Call::Stop);
    }
    if is(token, "modify") {
        return Some(Call::Modify);
    }
    if is(token, "fail") {
        return Some(Call::Fail);
    }
    if is(token, "note") {
        return Some(Call::Note);
    }
    None
}

fn kind_of(token: &[u8]) -> Option<EntryKind>
    ensures { result ≡ lookup token.now kind_words }
{
    if is(token, "enter") {
        return Some(EntryKind::Enter);
    }
    if is(token, "take") {
        return Some(EntryKind::Take);
    }
    if is(token, "start") {
        return Some(EntryKind::Start);
    }
    if is(token, "untake") {
        return Some(EntryKind::Untake);
    }
    if is(token, "end") {
        return Some(EntryKind::End);
    }
    if is(token, "endatomic") {
        return Some(EntryKind::EndAtomic);
    }
    if is(token, "endordered") {
        return Some(EntryKind::EndOrdered);
    }
    if is(token, "endgroup") {
        return Some(EntryKind::EndGroup);
    }
    if is(token, "alloc") {
        return Some(EntryKind::Alloc);
    }
    if is(token, "free") {
        return Some(EntryKind::Free);
    }
    if is(token, "send") {
        return Some(EntryKind::Send);
    }
    if is(token, "keep") {
        return Some(EntryKind::Keep);
    }
    if is(token, "claim") {
        return Some(EntryKind::Claim);
    }
    if is(token, "dequeue") {
        return Some(EntryKind::Dequeue);
    }
    if is(token, "out") {
        return Some(EntryKind::Out);
    }
    if is(token, "say") {
        return Some(EntryKind::Say);
    }
    if is(token, "enable") {
        return Some(EntryKind::Enable);
    }
    if is(token, "disable") {
        return Some(EntryKind::Disable);
    }
    if is(token, "begin") {
        return Some(EntryKind::Begin);
    }
    if is(token, "gdone") {
        return Some(EntryKind::GlobalDone);
    }
    if is(token, "ack") {
        return Some(EntryKind::Ack);
    }
    if is(token, "done") {
        return Some(EntryKind::Done);
    }
    if is(token, "apply") {
        return Some(EntryKind::Apply);
    }
    if is(token, "increment") {
        return Some(EntryKind::Increment);
    }
    if is(token, "abort") {
        return Some(EntryKind::Abort);
    }
    if is(token, "notify") {
        return Some(EntryKind::Notify);
    }
    if is(token, "fault") {
        return Some(EntryKind::Fault);
    }
    None
}

fn call(line: &mut Line) -> Option<Call>
    ensures { Reads result line.new (call_form.read line.old) }
{
    let token = line.token()?;
    call_of(token)
}

fn kind(line: &mut Line) -> Option<EntryKind>
    ensures { Reads result line.new (kind_form.read line.old) }
{
    let token = line.token()?;
    kind_of(token)
}

fn queue_kind(number: u64) -> Option<Kind>
    ensures { result ≡ kind_of_number number }
{
    match number {
        0 => Some(Kind::Atomic),
        1 => Some(Kind::Parallel),
        2 => Some(Kind::Ordered),
        3 => Some(Kind::Local),
        4 => Some(Kind::Unscheduled),
        5 => Some(Kind::Output),
        _ => None,
    }
}

fn state(number: u64) -> Option<EoState>
    ensures { result ≡ state_of_number number }
{
    match number {
        0 => Some(EoState::Created),
        1 => Some(EoState::Starting),
        2 => Some(EoState::Running),
        3 => Some(EoState::Stopping),
        _ => None,
    }
}

/// The fault of this number with this detail.
fn fault_of(number: u64, detail: u64) -> Option<Fault>
    ensures { result ≡ fault_of_numbers (number, detail) }
{
    match number {
        1 => Some(Fault::NeverMinted(detail)),
        2 => Some(Fault::SpentBySend(detail)),
        3 => Some(Fault::SpentByFree(detail)),
        4 if detail <= 255 => Some(Fault::HeldElsewhere(CoreId(detail as u8))),
        5 if detail <= 255 => Some(Fault::QueueClosed(detail as u8)),
        6 => Some(Fault::WrongKind(queue_kind(detail)?)),
        7 if detail == 0 => Some(Fault::NotAtomic),
        8 if detail == 0 => Some(Fault::NotOrdered),
        9 if detail == 0 => Some(Fault::NoGroup),
        10 if detail <= 4_294_967_295 => Some(Fault::GroupBusy(detail as u32)),
        11 if detail <= 255 => Some(Fault::GroupIdle(EventGroupId(detail as u8))),
        12 if detail <= 65535 => Some(Fault::OpPending(OpId(detail as u16))),
        13 => Some(Fault::EoState(state(detail)?)),
        14 => Some(Fault::BadMask(detail)),
        15 if detail <= 4_294_967_295 => Some(Fault::PoolEmpty(detail as u32)),
        16 if detail <= 255 => Some(Fault::BadSize(detail as u8)),
        17 if detail <= 65535 => Some(Fault::NoteLost(QueueId(detail as u16))),
        18 if detail <= 4_294_967_295 => Some(Fault::BadCount(detail as u32)),
        19 if detail <= 65535 => Some(Fault::StartFailed(OpId(detail as u16))),
        20 if detail <= 65535 => Some(Fault::OpsSpent(detail as u16)),
        _ => None,
    }
}

fn fault(line: &mut Line) -> Option<Fault>
    ensures { Reads result line.new (fault_form.read line.old) }
{
    let number = u64_number(line)?;
    let detail = u64_number(line)?;
    let fault = fault_of(number, detail);
    line.judge(fault.is_some());
    Some(fault.unwrap_or(Fault::NotAtomic))
}

#[tactic(auto, unfolding(crate::specs::Forms::what_behind))]
fn enter(line: &mut Line) -> Option<What>
    ensures { Reads result line.new (what_behind EntryKind.Enter line.old) }
{
    let body = body(line)?;
    if line.is_over() {
        Some(What::Enter(body))
    } else {
        None
    }
}

#[tactic(auto, unfolding(crate::specs::Forms::what_behind))]
fn take(line: &mut Line) -> Option<What>
    ensures { Reads result line.new (what_behind EntryKind.Take line.old) }
{
    let queue = queue(line)?;
    let n = u8_number(line)?;
    let ticket = ticket(line)?;
    if line.is_over() {
        Some(What::Take { queue, n, ticket })
    } else {
        None
    }
}

#[tactic(auto, unfolding(crate::specs::Forms::what_behind))]
fn start(line: &mut Line) -> Option<What>
    ensures { Reads result line.new (what_behind EntryKind.Start line.old) }
{
    let queue = queue(line)?;
    let event = event(line)?;
    let stamp = stamped(line)?;
    if line.is_over() {
        Some(What::Start {
            queue,
            event,
            stamp,
        })
    } else {
        None
    }
}

#[tactic(auto, unfolding(crate::specs::Forms::what_behind))]
fn untake(line: &mut Line) -> Option<What>
    ensures { Reads result line.new (what_behind EntryKind.Untake line.old) }
{
    let queue = queue(line)?;
    let n = u8_number(line)?;
    if line.is_over() {
        Some(What::Untake { queue, n })
    } else {
        None
    }
}

#[tactic(auto, unfolding(crate::specs::Forms::what_behind))]
fn end(line: &mut Line) -> Option<What>
    ensures { Reads result line.new (what_behind EntryKind.End line.old) }
{
    if !line.word("lost") {
        return None;
    }
    let lost = u32_number(line)?;
    let cells = some_cells(line)?;
    if line.is_over() {
        Some(What::End { lost, cells })
    } else {
        None
    }
}

#[tactic(auto, unfolding(crate::specs::Forms::what_behind))]
fn end_atomic(line: &mut Line) -> Option<What>
    ensures { Reads result line.new (what_behind EntryKind.EndAtomic line.old) }
{
    if !line.word("rest") {
        return None;
    }
    let rest = u8_number(line)?;
    let cells = cells(line)?;
    if line.is_over() {
        Some(What::EndAtomic { rest, cells })
    } else {
        None
    }
}

#[tactic(auto, unfolding(crate::specs::Forms::what_behind))]
fn end_ordered(line: &mut Line) -> Option<What>
    ensures { Reads result line.new (what_behind EntryKind.EndOrdered line.old) }
{
    if line.is_over() {
        Some(What::EndOrdered)
    } else {
        None
    }
}

#[tactic(auto, unfolding(crate::specs::Forms::what_behind))]
fn end_group(line: &mut Line) -> Option<What>
    ensures { Reads result line.new (what_behind EntryKind.EndGroup line.old) }
{
    if line.is_over() {
        Some(What::EndGroup)
    } else {
        None
    }
}

#[tactic(auto, unfolding(crate::specs::Forms::what_behind))]
fn alloc(line: &mut Line) -> Option<What>
    ensures { Reads result line.new (what_behind EntryKind.Alloc line.old) }
{
    let pool = pool(line)?;
    let event = event(line)?;
    if line.is_over() {
        Some(What::Alloc { pool, event })
    } else {
        None
    }
}

#[tactic(auto, unfolding(crate::specs::Forms::what_behind))]
fn free(line: &mut Line) -> Option<What>
    ensures { Reads result line.new (what_behind EntryKind.Free line.old) }
{
    let handle = handle(line)?;
    if line.is_over() {
        Some(What::Free(handle))
    } else {
        None
    }
}

#[tactic(auto, unfolding(crate::specs::Forms::what_behind))]
fn send(line: &mut Line) -> Option<What>
    ensures { Reads result line.new (what_behind EntryKind.Send line.old) }
{
    let handle = handle(line)?;
    let queue = queue(line)?;
    let ticket = ticket(line)?;
    let stamp = stamped(line)?;
    if line.is_over() {
        Some(What::Send {
            handle,
            queue,
            ticket,
            stamp,
        })
    } else {
        None
    }
}

#[tactic(auto, unfolding(crate::specs::Forms::what_behind))]
fn keep(line: &mut Line) -> Option<What>
    ensures { Reads result line.new (what_behind EntryKind.Keep line.old) }
{
    let handle = handle(line)?;
    if line.is_over() {
        Some(What::Keep(handle))
    } else {
        None
    }
}

#[tactic(auto, unfolding(crate::specs::Forms::what_behind))]
fn claim(line: &mut Line) -> Option<What>
    ensures { Reads result line.new (what_behind EntryKind.Claim line.old) }
{
    let event = received(line)?;
    if line.is_over() {
        Some(What::Claim(event))
    } else {
        None
    }
}

#[tactic(auto, unfolding(crate::specs::Forms::what_behind))]
fn dequeue(line: &mut Line) -> Option<What>
    ensures { Reads result line.new (what_behind EntryKind.Dequeue line.old) }
{
    let queue = queue(line)?;
    let event = received(line)?;
    if line.is_over() {
        Some(What::Dequeue { queue, event })
    } else {
        None
    }
}

#[tactic(auto, unfolding(crate::specs::Forms::what_behind))]
fn out(line: &mut Line) -> Option<What>
    ensures { Reads result line.new (what_behind EntryKind.Out line.old) }
{
    let queue = queue(line)?;
    let (kind, words) = content(line)?;
    if line.is_over() {
        Some(What::Out { queue, kind, words })
    } else {
        None
    }
}

#[tactic(auto, unfolding(crate::specs::Forms::what_behind))]
fn say(line: &mut Line) -> Option<What>
    ensures { Reads result line.new (what_behind EntryKind.Say line.old) }
{
    let value = u64_number(line)?;
    if line.is_over() {
        Some(What::Say(value))
    } else {
        None
    }
}

#[tactic(auto, unfolding(crate::specs::Forms::what_behind))]
fn enable(line: &mut Line) -> Option<What>
    ensures { Reads result line.new (what_behind EntryKind.Enable line.old) }
{
    let queue = queue(line)?;
    if line.is_over() {
        Some(What::Enable(queue))
    } else {
        None
    }
}

#[tactic(auto, unfolding(crate::specs::Forms::what_behind))]
fn disable(line: &mut Line) -> Option<What>
    ensures { Reads result line.new (what_behind EntryKind.Disable line.old) }
{
    let queue = queue(line)?;
    if line.is_over() {
        Some(What::Disable(queue))
    } else {
        None
    }
}

#[tactic(auto, unfolding(crate::specs::Forms::what_behind))]
fn begin(line: &mut Line) -> Option<What>
    ensures { Reads result line.new (what_behind EntryKind.Begin line.old) }
{
    let op = op(line)?;
    let job = job(line)?;
    let notes = notes(line)?;
    if line.is_over() {
        Some(What::Begin { op, job, notes })
    } else {
        None
    }
}

#[tactic(auto, unfolding(crate::specs::Forms::what_behind))]
fn global_done(line: &mut Line) -> Option<What>
    ensures { Reads result line.new (what_behind EntryKind.GlobalDone line.old) }
{
    let op = op(line)?;
    let ok = outcome(line)?;
    if line.is_over() {
        Some(What::GlobalDone { op, ok })
    } else {
        None
    }
}

#[tactic(auto, unfolding(crate::specs::Forms::what_behind))]
fn ack(line: &mut Line) -> Option<What>
    ensures { Reads result line.new (what_behind EntryKind.Ack line.old) }
{
    let op = op(line)?;
    if line.is_over() {
        Some(What::Ack(op))
    } else {
        None
    }
}

#[tactic(auto, unfolding(crate::specs::Forms::what_behind))]
fn done(line: &mut Line) -> Option<What>
    ensures { Reads result line.new (what_behind EntryKind.Done line.old) }
{
    let op = op(line)?;
    let ok = outcome(line)?;
    if line.is_over() {
        Some(What::Done { op, ok })
    } else {
        None
    }
}

#[tactic(auto, unfolding(crate::specs::Forms::what_behind))]
fn apply(line: &mut Line) -> Option<What>
    ensures { Reads result line.new (what_behind EntryKind.Apply line.old) }
{
    let group = event_group(line)?;
    let app = u32_number(line)?;
    let count = u64_number(line)?;
    let notes = notes(line)?;
    if line.is_over() {
        Some(What::Apply {
            group,
            app,
            count,
            notes,
        })
    } else {
        None
    }
}

#[tactic(auto, unfolding(crate::specs::Forms::what_behind))]
fn increment(line: &mut Line) -> Option<What>
    ensures { Reads result line.new (what_behind EntryKind.Increment line.old) }
{
    let group = event_group(line)?;
    let n = u64_number(line)?;
    if line.is_over() {
        Some(What::Increment { group, n })
    } else {
        None
    }
}

#[tactic(auto, unfolding(crate::specs::Forms::what_behind))]
fn abort(line: &mut Line) -> Option<What>
    ensures { Reads result line.new (what_behind EntryKind.Abort line.old) }
{
    let group = event_group(line)?;
    if line.is_over() {
        Some(What::Abort(group))
    } else {
        None
    }
}

#[tactic(auto, unfolding(crate::specs::Forms::what_behind))]
fn notify(line: &mut Line) -> Option<What>
    ensures { Reads result line.new (what_behind EntryKind.Notify line.old) }
{
    let group = event_group(line)?;
    let app = u32_number(line)?;
    if line.is_over() {
        Some(What::Notify { group, app })
    } else {
        None
    }
}

#[tactic(auto, unfolding(crate::specs::Forms::what_behind))]
fn refusal(line: &mut Line) -> Option<What>
    ensures { Reads result line.new (what_behind EntryKind.Fault line.old) }
{
    let call = call(line)?;
    let fault = fault(line)?;
    let scope = scope(line)?;
    if line.is_over() {
        Some(What::Fault { call, fault, scope })
    } else {
        None
    }
}

/// What stands behind the word of a kind, to the end of the line.
fn behind(kind: EntryKind, line: &mut Line) -> Option<What>
    ensures { Reads result line.new (what_behind kind line.old) }
{
    match kind {
        EntryKind::Enter => enter(line),
        EntryKind::Take => take(line),
        EntryKind::Start => start(line),
        EntryKind::Untake => untake(line),
        EntryKind::End => end(line),
        EntryKind::EndAtomic => end_atomic(line),
        EntryKind::EndOrdered => end_ordered(line),
        EntryKind::EndGroup => end_group(line),
        EntryKind::Alloc => alloc(line),
        EntryKind::Free => free(line),
        EntryKind::Send => send(line),
        EntryKind::Keep => keep(line),
        EntryKind::Claim => claim(line),
        EntryKind::Dequeue => dequeue(line),
        EntryKind::Out => out(line),
        EntryKind::Say => say(line),
        EntryKind::Enable => enable(line),
        EntryKind::Disable => disable(line),
        EntryKind::Begin => begin(line),
        EntryKind::GlobalDone => global_done(line),
        EntryKind::Ack => ack(line),
        EntryKind::Done => done(line),
        EntryKind::Apply => apply(line),
        EntryKind::Increment => increment(line),
        EntryKind::Abort => abort(line),
        EntryKind::Notify => notify(line),
        EntryKind::Fault => refusal(line),
    }
}

#[tactic(auto, unfolding(crate::specs::Forms::read_what))]
fn what(line: &mut Line) -> Option<What>
    ensures { Reads result line.new (what_form.read line.old) }
{
    let kind = kind(line)?;
    behind(kind, line)
}

/// A core and what happened, to the end of the line.
pub(crate) fn entry(line: &mut Line) -> Option<Entry>
    ensures { Reads result line.new (entry_form.read line.old) }
{
    let core = core(line)?;
    let what = what(line)?;
    Some(Entry { core, what })
}
