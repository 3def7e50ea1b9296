//! The fields of a line, read from left to right. None where the tokens do not have the form.
ghost use Rattle.std.specs.Prelude.{◌≡◌, ◌≤◌, ℕ, List, []};
ghost use Rattle.em_trace.specs.Form.{Reads, Skips, given, items};
ghost use Rattle.em_trace.specs.Forms.{core_form, group_form, eo_form, egroup_form, pool_form, queue_form, op_form, handle_form, u8_form, u32_form, u64_form, words_form, content_form, event_form, received_form, stamp_form, ticket_form, stamped_form, note_form, notes_form, cells_form, some_cells_form, eight_form, outcome_form, body_form, job_form, scope_form};

use crate::line::Line;
use em_log::{
    Begun, Body, Cells, CoreId, EoId, Event, EventGroupId, GroupId, Handle, Note, Notes, OpId,
    PoolId, QueueId, Stamp, Words,
};

pub(crate) fn u8_number(line: &mut Line) -> Option<u8>
    ensures { Reads result line.new (u8_form.read line.old) }
{
    Some(line.number(255)? as u8)
}

pub(crate) fn u32_number(line: &mut Line) -> Option<u32>
    ensures { Reads result line.new (u32_form.read line.old) }
{
    Some(line.number(4_294_967_295)? as u32)
}

pub(crate) fn u64_number(line: &mut Line) -> Option<u64>
    ensures { Reads result line.new (u64_form.read line.old) }
{
    line.number(u64::MAX)
}

pub(crate) fn core(line: &mut Line) -> Option<CoreId>
    ensures { Reads result line.new (core_form.read line.old) }
{
    Some(CoreId(line.marked(b'c', 255)? as u8))
}

pub(crate) fn group(line: &mut Line) -> Option<GroupId>
    ensures { Reads result line.new (group_form.read line.old) }
{
    Some(GroupId(line.marked(b'g', 255)? as u8))
}

pub(crate) fn eo(line: &mut Line) -> Option<EoId>
    ensures { Reads result line.new (eo_form.read line.old) }
{
    Some(EoId(line.marked(b'o', 255)? as u8))
}

pub(crate) fn event_group(line: &mut Line) -> Option<EventGroupId>
    ensures { Reads result line.new (egroup_form.read line.old) }
{
    Some(EventGroupId(line.marked(b'e', 255)? as u8))
}

pub(crate) fn pool(line: &mut Line) -> Option<PoolId>
    ensures { Reads result line.new (pool_form.read line.old) }
{
    Some(PoolId(line.marked(b'p', 255)? as u8))
}

pub(crate) fn queue(line: &mut Line) -> Option<QueueId>
    ensures { Reads result line.new (queue_form.read line.old) }
{
    Some(QueueId(line.marked(b'q', 65535)? as u16))
}

pub(crate) fn op(line: &mut Line) -> Option<OpId>
    ensures { Reads result line.new (op_form.read line.old) }
{
    Some(OpId(line.number(65535)? as u16))
}

pub(crate) fn handle(line: &mut Line) -> Option<Handle>
    ensures { Reads result line.new (handle_form.read line.old) }
{
    Some(Handle(line.number(u64::MAX)?))
}

pub(crate) fn ticket(line: &mut Line) -> Option<Option<u32>>
    ensures { Reads result line.new (ticket_form.read line.old) }
{
    if line.word("ticket") {
        return Some(Some(u32_number(line)?));
    }
    Some(None)
}

fn stamp(line: &mut Line) -> Option<Stamp>
    ensures { Reads result line.new (stamp_form.read line.old) }
{
    let group = event_group(line)?;
    let app = u32_number(line)?;
    Some(Stamp { group, app })
}

pub(crate) fn stamped(line: &mut Line) -> Option<Option<Stamp>>
    ensures { Reads result line.new (stamped_form.read line.old) }
{
    if line.word("stamp") {
        return Some(Some(stamp(line)?));
    }
    Some(None)
}

/// So many numbers.
fn numbers(line: &mut Line, count: u64) -> Option<Words>
    requires { count ≤ 16 }
    ensures { Reads result line.new (items u64_form count line.old) }
{
    let mut words = Words::new();
    for _ in 0..count {
        let Some(word) = u64_number(line) else {
            return None;
        };
        words.push(word);
    }
    Some(words)
}

/// Passes over so many numbers.
fn skip_numbers(line: &mut Line, count: u64) -> Option<()>
    ensures { Skips result line.new (items u64_form count line.old) }
{
    for _ in 0..count {
        let Some(_) = u64_number(line) else {
            return None;
        };
    }
    Some(())
}

fn words(line: &mut Line) -> Option<Words>
    ensures { Reads result line.new (words_form.read line.old) }
{
    if !line.word("words") {
        return None;
    }
    let Some(count) = line.count(16) else {
        return None;
    };
    if count <= 16 {
        return numbers(line, count);
    }
    skip_numbers(line, count)?;
    Some(Words::new())
}

/// A kind and words.
pub(crate) fn content(line: &mut Line) -> Option<(u32, Words)>
    ensures { Reads result line.new (content_form.read line.old) }
{
    if !line.word("kind") {
        return None;
    }
    let kind = u32_number(line)?;
    let words = words(line)?;
    Some((kind, words))
}

pub(crate) fn event(line: &mut Line) -> Option<Event>
    ensures { Reads result line.new (event_form.read line.old) }
{
    let handle = handle(line)?;
    let (kind, words) = content(line)?;
    Some(Event {
        handle,
        kind,
        words,
    })
}

pub(crate) fn received(line: &mut Line) -> Option<Option<Event>>
    ensures { Reads result line.new (received_form.read line.old) }
{
    if line.word("none") {
        return Some(None);
    }
    Some(Some(event(line)?))
}

fn note(line: &mut Line) -> Option<Note>
    ensures { Reads result line.new (note_form.read line.old) }
{
    let word = u64_number(line)?;
    let queue = queue(line)?;
    Some(Note { word, queue })
}

/// So many notes.
fn note_list(line: &mut Line, count: u64) -> Option<Notes>
    requires { count ≤ 8 }
    ensures { Reads result line.new (items note_form count line.old) }
{
    let mut notes = Notes::new();
    for _ in 0..count {
        let Some(note) = note(line) else {
            return None;
        };
        notes.push(note);
    }
    Some(notes)
}

/// Passes over so many notes.
fn skip_notes(line: &mut Line, count: u64) -> Option<()>
    ensures { Skips result line.new (items note_form count line.old) }
{
    for _ in 0..count {
        let Some(_) = note(line) else {
            return None;
        };
    }
    Some(())
}

pub(crate) fn notes(line: &mut Line) -> Option<Notes>
    ensures { Reads result line.new (notes_form.read line.old) }
{
    if !line.word("notes") {
        return None;
    }
    let Some(count) = line.count(8) else {
        return None;
    };
    if count <= 8 {
        return note_list(line, count);
    }
    skip_notes(line, count)?;
    Some(Notes::new())
}

#[tactic(auto, unfolding(crate::specs::Form::items))]
fn eight(line: &mut Line) -> Option<Cells>
    ensures { Reads result line.new (eight_form.read line.old) }
{
    let a = u64_number(line)?;
    let b = u64_number(line)?;
    let c = u64_number(line)?;
    let d = u64_number(line)?;
    let e = u64_number(line)?;
    let f = u64_number(line)?;
    let g = u64_number(line)?;
    let h = u64_number(line)?;
    Some(Cells([a, b, c, d, e, f, g, h]))
}

pub(crate) fn cells(line: &mut Line) -> Option<Cells>
    ensures { Reads result line.new (cells_form.read line.old) }
{
    if !line.word("cells") {
        return None;
    }
    eight(line)
}

pub(crate) fn some_cells(line: &mut Line) -> Option<Option<Cells>>
    ensures { Reads result line.new (some_cells_form.read line.old) }
{
    if line.word("cells") {
        return Some(Some(eight(line)?));
    }
    Some(None)
}

/// How an operation ended.
pub(crate) fn outcome(line: &mut Line) -> Option<bool>
    ensures { Reads result line.new (outcome_form.read line.old) }
{
    if line.word("ok") {
        return Some(true);
    }
    if line.word("failed") {
        return Some(false);
    }
    None
}

pub(crate) fn body(line: &mut Line) -> Option<Body>
    ensures { Reads result line.new (body_form.read line.old) }
{
    if line.word("boot") {
        return Some(Body::Boot);
    }
    if line.word("gstart") {
        return Some(Body::GlobalStart(op(line)?));
    }
    if line.word("lstart") {
        return Some(Body::LocalStart(op(line)?));
    }
    if line.word("lstop") {
        return Some(Body::LocalStop(op(line)?));
    }
    if line.word("gstop") {
        return Some(Body::GlobalStop(op(line)?));
    }
    None
}

pub(crate) fn job(line: &mut Line) -> Option<Begun>
    ensures { Reads result line.new (job_form.read line.old) }
{
    if line.word("start") {
        return Some(Begun::Start(eo(line)?));
    }
    if line.word("stop") {
        return Some(Begun::Stop(eo(line)?));
    }
    if !line.word("modify") {
        return None;
    }
    let group = group(line)?;
    let mask = u64_number(line)?;
    Some(Begun::Modify(group, mask))
}

pub(crate) fn scope(line: &mut Line) -> Option<Option<EoId>>
    ensures { Reads result line.new (scope_form.read line.old) }
{
    if line.word("global") {
        return Some(None);
    }
    Some(Some(eo(line)?))
}
