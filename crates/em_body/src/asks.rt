//! The asks of statements.
ghost use Rattle.std.specs.Prelude.{◌≡◌, ◌≤◌, length, IsTrue};
ghost use Rattle.em_body.specs.Environments.{env_of};
ghost use Rattle.em_body.specs.Standings.{is_small};
ghost use Rattle.em_log.specs.Expressions.{values};
ghost use Rattle.em_log.specs.Bodies.{ask_of as ask_by, notes_in, zeros_or};

use crate::environment::Environment;
use crate::values::value;
use em_log::ask::Ask;
use em_log::body::{Expr, Stmt};
use em_log::ids::{Cells, Note, QueueId};
use em_log::lists::{Notes, Words};

fn words_of(words: &[Expr], v: &Environment) -> Words
    requires { length words.now ≤ 16 }
    ensures { result ≡ values words.now (env_of v.now) }
{
    let mut all = Words::new();
    for word in words {
        all.push(value(word, v));
    }
    all
}

fn notes_of(notes: &[(Expr, QueueId)], v: &Environment) -> Notes
    requires { length notes.now ≤ 8 }
    ensures { result ≡ notes_in notes.now (env_of v.now) }
{
    let mut all = Notes::new();
    for note in notes {
        all.push(Note {
            word: value(&note.0, v),
            queue: note.1,
        });
    }
    all
}

fn cells_of(v: &Environment) -> Cells
    ensures { result ≡ zeros_or (env_of v.now).cells }
{
    match v.cells {
        Some(cells) => cells,
        None => Cells([0; 8]),
    }
}

/// The ask that a statement makes, where it makes one.
pub fn ask_of(s: &Stmt, v: &Environment) -> Ask
    requires { IsTrue (is_small s.now) }
    ensures { result ≡ ask_by s.now (env_of v.now) }
{
    match s {
        Stmt::Say(e) => Ask::Say(value(e, v)),
        Stmt::Alloc {
            pool,
            kind,
            words,
            ..
        } => Ask::Alloc {
            pool: *pool,
            kind: (value(kind, v) % 0x1_0000_0000) as u32,
            words: words_of(words.as_slice(), v),
        },
        Stmt::Free(e) => Ask::Free(value(e, v)),
        Stmt::Keep(e) => Ask::Keep(value(e, v)),
        Stmt::Send { word, queue } => Ask::Send {
            word: value(word, v),
            queue: *queue,
            group: None,
        },
        Stmt::SendG { word, queue, group } => Ask::Send {
            word: value(word, v),
            queue: *queue,
            group: Some(*group),
        },
        Stmt::Claim { .. } => Ask::Claim,
        Stmt::Dequeue { queue, .. } => Ask::Dequeue(*queue),
        Stmt::Enable(queue) => Ask::Enable(*queue),
        Stmt::Disable(queue) => Ask::Disable(*queue),
        Stmt::EndAtomic => Ask::EndAtomic(cells_of(v)),
        Stmt::EndOrdered => Ask::EndOrdered,
        Stmt::EndGroup => Ask::EndGroup,
        Stmt::Apply {
            group,
            count,
            notes,
        } => Ask::Apply {
            group: *group,
            count: value(count, v),
            notes: notes_of(notes.as_slice(), v),
        },
        Stmt::Increment(e) => Ask::Increment(value(e, v)),
        Stmt::Abort(group) => Ask::Abort(*group),
        Stmt::Start { eo, notes } => Ask::Start {
            eo: *eo,
            notes: notes_of(notes.as_slice(), v),
        },
        Stmt::Stop { eo, notes } => Ask::Stop {
            eo: *eo,
            notes: notes_of(notes.as_slice(), v),
        },
        Stmt::Modify { group, mask, notes } => Ask::Modify {
            group: *group,
            mask: value(mask, v),
            notes: notes_of(notes.as_slice(), v),
        },
        Stmt::Fail => Ask::Fail,
        Stmt::Set { .. } | Stmt::If { .. } | Stmt::Repeat { .. } | Stmt::CellWrite { .. } =>
            Ask::Cell,
    }
}
