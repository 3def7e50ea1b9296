//! The lines in a body, each behind its first word.
ghost use Rattle.std.specs.Prelude.{◌≡◌, Bool};
ghost use Rattle.em_script.specs.Form.{Reads, limited, several};
ghost use Rattle.em_script.specs.Names.{Naming, reading};
ghost use Rattle.em_script.specs.Expressions.{expression};
ghost use Rattle.em_script.specs.Statements.{note, notes, body_line_behind, read_body_line};

use crate::expressions::expression;
use crate::line::Line;
use crate::names::Names;
use crate::numbers::{number, variable};
use crate::slots::{egroup, eo, group, pool, queue};
use crate::tokens::{Stop, Tokens};
use crate::words::{BodyWord, body_word};
use em_log::{Expr, List, QueueId, Stmt};
use std::alloc::Global;

/// A note, behind its word.
fn note(alloc: Global, line: &mut Tokens, names: &Names) -> Result<(Expr, QueueId), Stop>
    ensures { Reads result line.new ((note (reading names.now)).read line.old) }
{
    if !line.word("note") {
        return Err(Stop::NoForm);
    }
    let word = expression(alloc, line)?;
    let queue = queue(line, names)?;
    Ok((word, queue))
}

/// The notes up to the end of the line.
fn each_note(alloc: Global, line: &mut Tokens, names: &Names) -> Result<List<(Expr, QueueId)>, Stop>
    ensures { Reads result line.new ((several (note (reading names.now))).read line.old) }
{
    let mut notes = List::new(alloc);
    'notes: while !line.is_over() {
        notes.push(note(alloc, line, names)?)?;
    }
    Ok(notes)
}

/// At most eight notes, up to the end of the line.
fn notes(alloc: Global, line: &mut Tokens, names: &Names) -> Result<List<(Expr, QueueId)>, Stop>
    ensures { Reads result line.new ((notes (reading names.now)).read line.old) }
{
    let notes = each_note(alloc, line, names)?;
    line.judge(10, notes.as_slice().len() <= 8);
    Ok(notes)
}

/// The expressions up to the end of the line.
fn each_expression(alloc: Global, line: &mut Tokens) -> Result<List<Expr>, Stop>
    ensures { Reads result line.new ((several expression).read line.old) }
{
    let mut expressions = List::new(alloc);
    'expressions: while !line.is_over() {
        expressions.push(expression(alloc, line)?)?;
    }
    Ok(expressions)
}

/// At most 16 expressions, up to the end of the line.
fn event_words(alloc: Global, line: &mut Tokens) -> Result<List<Expr>, Stop>
    ensures { Reads result line.new ((limited 16 (several expression)).read line.old) }
{
    let words = each_expression(alloc, line)?;
    line.judge(10, words.as_slice().len() <= 16);
    Ok(words)
}

#[tactic(auto, unfolding(crate::specs::Statements::body_line_behind))]
fn set(alloc: Global, line: &mut Tokens) -> Result<Line, Stop>
    ensures { (names : Naming) (may_else : Bool) → Reads result line.new (body_line_behind names may_else BodyWord.Set line.old) }
{
    let v = variable(line)?;
    let value = expression(alloc, line)?;
    line.end()?;
    Ok(Line::Statement(Stmt::Set { v, value }))
}

#[tactic(auto, unfolding(crate::specs::Statements::body_line_behind))]
fn test(alloc: Global, line: &mut Tokens) -> Result<Line, Stop>
    ensures { (names : Naming) (may_else : Bool) → Reads result line.new (body_line_behind names may_else BodyWord.If line.old) }
{
    let test = expression(alloc, line)?;
    line.end()?;
    Ok(Line::If(test))
}

#[tactic(auto, unfolding(crate::specs::Statements::body_line_behind))]
fn end(line: &mut Tokens) -> Result<Line, Stop>
    ensures { (names : Naming) (may_else : Bool) → Reads result line.new (body_line_behind names may_else BodyWord.End line.old) }
{
    line.end()?;
    Ok(Line::End)
}

#[tactic(auto, unfolding(crate::specs::Statements::body_line_behind))]
fn repeat(line: &mut Tokens) -> Result<Line, Stop>
    ensures { (names : Naming) (may_else : Bool) → Reads result line.new (body_line_behind names may_else BodyWord.Repeat line.old) }
{
    let times = number(line, 1, 256)?;
    line.end()?;
    Ok(Line::Repeat(times as u16))
}

#[tactic(auto, unfolding(crate::specs::Statements::body_line_behind))]
fn cell(alloc: Global, line: &mut Tokens) -> Result<Line, Stop>
    ensures { (names : Naming) (may_else : Bool) → Reads result line.new (body_line_behind names may_else BodyWord.Cell line.old) }
{
    let cell = expression(alloc, line)?;
    let value = expression(alloc, line)?;
    line.end()?;
    Ok(Line::Statement(Stmt::CellWrite { cell, value }))
}

#[tactic(auto, unfolding(crate::specs::Statements::body_line_behind))]
fn say(alloc: Global, line: &mut Tokens) -> Result<Line, Stop>
    ensures { (names : Naming) (may_else : Bool) → Reads result line.new (body_line_behind names may_else BodyWord.Say line.old) }
{
    let value = expression(alloc, line)?;
    line.end()?;
    Ok(Line::Statement(Stmt::Say(value)))
}

#[tactic(auto, unfolding(crate::specs::Statements::body_line_behind))]
fn alloc_event(alloc: Global, line: &mut Tokens, names: &Names) -> Result<Line, Stop>
    ensures { (may_else : Bool) → Reads result line.new (body_line_behind (reading names.now) may_else BodyWord.Alloc line.old) }
{
    let v = variable(line)?;
    let pool = pool(line, names)?;
    let kind = expression(alloc, line)?;
    let words = event_words(alloc, line)?;
    Ok(Line::Statement(Stmt::Alloc {
        v,
        pool,
        kind,
        words,
    }))
}

#[tactic(auto, unfolding(crate::specs::Statements::body_line_behind))]
fn free(alloc: Global, line: &mut Tokens) -> Result<Line, Stop>
    ensures { (names : Naming) (may_else : Bool) → Reads result line.new (body_line_behind names may_else BodyWord.Free line.old) }
{
    let word = expression(alloc, line)?;
    line.end()?;
    Ok(Line::Statement(Stmt::Free(word)))
}

#[tactic(auto, unfolding(crate::specs::Statements::body_line_behind))]
fn keep(alloc: Global, line: &mut Tokens) -> Result<Line, Stop>
    ensures { (names : Naming) (may_else : Bool) → Reads result line.new (body_line_behind names may_else BodyWord.Keep line.old) }
{
    let word = expression(alloc, line)?;
    line.end()?;
    Ok(Line::Statement(Stmt::Keep(word)))
}

#[tactic(auto, unfolding(crate::specs::Statements::body_line_behind))]
fn send(alloc: Global, line: &mut Tokens, names: &Names) -> Result<Line, Stop>
    ensures { (may_else : Bool) → Reads result line.new (body_line_behind (reading names.now) may_else BodyWord.Send line.old) }
{
    let word = expression(alloc, line)?;
    let queue = queue(line, names)?;
    line.end()?;
    Ok(Line::Statement(Stmt::Send { word, queue }))
}

#[tactic(auto, unfolding(crate::specs::Statements::body_line_behind))]
fn send_in_group(alloc: Global, line: &mut Tokens, names: &Names) -> Result<Line, Stop>
    ensures { (may_else : Bool) → Reads result line.new (body_line_behind (reading names.now) may_else BodyWord.SendG line.old) }
{
    let word = expression(alloc, line)?;
    let queue = queue(line, names)?;
    let group = egroup(line, names)?;
    line.end()?;
    Ok(Line::Statement(Stmt::SendG { word, queue, group }))
}

#[tactic(auto, unfolding(crate::specs::Statements::body_line_behind))]
fn claim(line: &mut Tokens) -> Result<Line, Stop>
    ensures { (names : Naming) (may_else : Bool) → Reads result line.new (body_line_behind names may_else BodyWord.Claim line.old) }
{
    let v = variable(line)?;
    line.end()?;
    Ok(Line::Statement(Stmt::Claim { v }))
}

#[tactic(auto, unfolding(crate::specs::Statements::body_line_behind))]
fn dequeue(line: &mut Tokens, names: &Names) -> Result<Line, Stop>
    ensures { (may_else : Bool) → Reads result line.new (body_line_behind (reading names.now) may_else BodyWord.Dequeue line.old) }
{
    let v = variable(line)?;
    let queue = queue(line, names)?;
    line.end()?;
    Ok(Line::Statement(Stmt::Dequeue { v, queue }))
}

#[tactic(auto, unfolding(crate::specs::Statements::body_line_behind))]
fn enable(line: &mut Tokens, names: &Names) -> Result<Line, Stop>
    ensures { (may_else : Bool) → Reads result line.new (body_line_behind (reading names.now) may_else BodyWord.Enable line.old) }
{
    let queue = queue(line, names)?;
    line.end()?;
    Ok(Line::Statement(Stmt::Enable(queue)))
}

#[tactic(auto, unfolding(crate::specs::Statements::body_line_behind))]
fn disable(line: &mut Tokens, names: &Names) -> Result<Line, Stop>
    ensures { (may_else : Bool) → Reads result line.new (body_line_behind (reading names.now) may_else BodyWord.Disable line.old) }
{
    let queue = queue(line, names)?;
    line.end()?;
    Ok(Line::Statement(Stmt::Disable(queue)))
}

#[tactic(auto, unfolding(crate::specs::Statements::body_line_behind))]
fn end_atomic(line: &mut Tokens) -> Result<Line, Stop>
    ensures { (names : Naming) (may_else : Bool) → Reads result line.new (body_line_behind names may_else BodyWord.EndAtomic line.old) }
{
    line.end()?;
    Ok(Line::Statement(Stmt::EndAtomic))
}

#[tactic(auto, unfolding(crate::specs::Statements::body_line_behind))]
fn end_ordered(line: &mut Tokens) -> Result<Line, Stop>
    ensures { (names : Naming) (may_else : Bool) → Reads result line.new (body_line_behind names may_else BodyWord.EndOrdered line.old) }
{
    line.end()?;
    Ok(Line::Statement(Stmt::EndOrdered))
}

#[tactic(auto, unfolding(crate::specs::Statements::body_line_behind))]
fn end_group(line: &mut Tokens) -> Result<Line, Stop>
    ensures { (names : Naming) (may_else : Bool) → Reads result line.new (body_line_behind names may_else BodyWord.EndGroup line.old) }
{
    line.end()?;
    Ok(Line::Statement(Stmt::EndGroup))
}

#[tactic(auto, unfolding(crate::specs::Statements::body_line_behind))]
fn apply(alloc: Global, line: &mut Tokens, names: &Names) -> Result<Line, Stop>
    ensures { (may_else : Bool) → Reads result line.new (body_line_behind (reading names.now) may_else BodyWord.Apply line.old) }
{
    let group = egroup(line, names)?;
    let count = expression(alloc, line)?;
    let notes = notes(alloc, line, names)?;
    Ok(Line::Statement(Stmt::Apply {
        group,
        count,
        notes,
    }))
}

#[tactic(auto, unfolding(crate::specs::Statements::body_line_behind))]
fn increment(alloc: Global, line: &mut Tokens) -> Result<Line, Stop>
    ensures { (names : Naming) (may_else : Bool) → Reads result line.new (body_line_behind names may_else BodyWord.Increment line.old) }
{
    let n = expression(alloc, line)?;
    line.end()?;
    Ok(Line::Statement(Stmt::Increment(n)))
}

#[tactic(auto, unfolding(crate::specs::Statements::body_line_behind))]
fn abort(line: &mut Tokens, names: &Names) -> Result<Line, Stop>
    ensures { (may_else : Bool) → Reads result line.new (body_line_behind (reading names.now) may_else BodyWord.Abort line.old) }
{
    let group = egroup(line, names)?;
    line.end()?;
    Ok(Line::Statement(Stmt::Abort(group)))
}

#[tactic(auto, unfolding(crate::specs::Statements::body_line_behind))]
fn start(alloc: Global, line: &mut Tokens, names: &Names) -> Result<Line, Stop>
    ensures { (may_else : Bool) → Reads result line.new (body_line_behind (reading names.now) may_else BodyWord.Start line.old) }
{
    let eo = eo(line, names)?;
    let notes = notes(alloc, line, names)?;
    Ok(Line::Statement(Stmt::Start { eo, notes }))
}

#[tactic(auto, unfolding(crate::specs::Statements::body_line_behind))]
fn stop(alloc: Global, line: &mut Tokens, names: &Names) -> Result<Line, Stop>
    ensures { (may_else : Bool) → Reads result line.new (body_line_behind (reading names.now) may_else BodyWord.Stop line.old) }
{
    let eo = eo(line, names)?;
    let notes = notes(alloc, line, names)?;
    Ok(Line::Statement(Stmt::Stop { eo, notes }))
}

#[tactic(auto, unfolding(crate::specs::Statements::body_line_behind))]
fn modify(alloc: Global, line: &mut Tokens, names: &Names) -> Result<Line, Stop>
    ensures { (may_else : Bool) → Reads result line.new (body_line_behind (reading names.now) may_else BodyWord.Modify line.old) }
{
    let group = group(line, names)?;
    let mask = expression(alloc, line)?;
    let notes = notes(alloc, line, names)?;
    Ok(Line::Statement(Stmt::Modify { group, mask, notes }))
}

#[tactic(auto, unfolding(crate::specs::Statements::body_line_behind))]
fn fail(line: &mut Tokens) -> Result<Line, Stop>
    ensures { (names : Naming) (may_else : Bool) → Reads result line.new (body_line_behind names may_else BodyWord.Fail line.old) }
{
    line.end()?;
    Ok(Line::Statement(Stmt::Fail))
}

#[tactic(auto, unfolding(crate::specs::Statements::body_line_behind))]
fn otherwise(line: &mut Tokens, may_else: bool) -> Result<Line, Stop>
    ensures { (names : Naming) → Reads result line.new (body_line_behind names may_else BodyWord.Else line.old) }
{
    if !may_else {
        return Err(Stop::NoForm);
    }
    line.end()?;
    Ok(Line::Else)
}

/// What a line in a body says behind its first word.
fn behind(
    alloc: Global,
    line: &mut Tokens,
    names: &Names,
    may_else: bool,
    word: BodyWord,
) -> Result<Line, Stop>
    ensures { Reads result line.new (body_line_behind (reading names.now) may_else word line.old) }
{
    match word {
        BodyWord::Set => set(alloc, line),
        BodyWord::If => test(alloc, line),
        BodyWord::Else => otherwise(line, may_else),
        BodyWord::End => end(line),
        BodyWord::Repeat => repeat(line),
        BodyWord::Cell => cell(alloc, line),
        BodyWord::Say => say(alloc, line),
        BodyWord::Alloc => alloc_event(alloc, line, names),
        BodyWord::Free => free(alloc, line),
        BodyWord::Keep => keep(alloc, line),
        BodyWord::Send => send(alloc, line, names),
        BodyWord::SendG => send_in_group(alloc, line, names),
        BodyWord::Claim => claim(line),
        BodyWord::Dequeue => dequeue(line, names),
        BodyWord::Enable => enable(line, names),
        BodyWord::Disable => disable(line, names),
        BodyWord::EndAtomic => end_atomic(line),
        BodyWord::EndOrdered => end_ordered(line),
        BodyWord::EndGroup => end_group(line),
        BodyWord::Apply => apply(alloc, line, names),
        BodyWord::Increment => increment(alloc, line),
        BodyWord::Abort => abort(line, names),
        BodyWord::Start => start(alloc, line, names),
        BodyWord::Stop => stop(alloc, line, names),
        BodyWord::Modify => modify(alloc, line, names),
        BodyWord::Fail => fail(line),
    }
}

/// What a line in a body says; whether an `else` may stand there.
#[tactic(auto, unfolding(crate::specs::Statements::read_body_line))]
pub(crate) fn body_line(
    alloc: Global,
    line: &mut Tokens,
    names: &Names,
    may_else: bool,
) -> Result<Line, Stop>
    ensures { Reads result line.new (read_body_line (reading names.now) may_else line.old) }
{
    let word = body_word(line)?;
    behind(alloc, line, names, may_else, word)
}
