//! Contexts followed move by move.
ghost use Rattle.std.specs.Prelude.{◌≡◌, ◌≤◌, None, length};
ghost use Rattle.em_log.specs.WellFormed.{IsWellFormed};
ghost use Rattle.em_log.specs.Works.{fits as fits_by};
ghost use Rattle.em_body.specs.Standings.{unanswered};

mod everywhere;
mod operations;
mod scopes;
mod variables;

use em_body::BodyRun;
use em_log::{
    Answer, Ask, Cells, Config, Context, CoreId, EoId, Event, Fault, Handle, Move, OpId, QueueId,
    Receive, Rest, Words, Work,
};
use em_script::parse;
use std::alloc::Global;
use std::process::Abort;
use std::test::*;

/// How a move's ask is answered: a fault, an event with its words, no event, or done; moves that ask nothing are not.
#[derive(Clone, Copy)]
enum Reply {
    Refused(Fault),
    Minted(u64, u32, &'static [u64]),
    Nothing,
    Done,
}

/// A move, and how its ask is answered.
type Row = (&'static str, Reply);

const ZEROS: Cells = Cells([0; 8]);

fn event(handle: u64, kind: u32, words: &[u64]) -> Event {
    let mut kept = Words::new();
    for word in words {
        if kept.as_slice().len() < 16 {
            kept.push(*word);
        }
    }
    Event {
        handle: Handle(handle),
        kind,
        words: kept,
    }
}

fn answer_of(reply: Reply) -> Answer {
    match reply {
        Reply::Refused(fault) => Answer::Refused(fault),
        Reply::Minted(handle, kind, words) => Answer::Minted(event(handle, kind, words)),
        Reply::Nothing => Answer::Nothing,
        Reply::Done => Answer::Done,
    }
}

fn may_answer(ask: &Ask, answer: &Answer) -> bool
    ensures { result ≡ fits_by ask.now answer.now }
{
    match answer {
        Answer::Refused(_) => !matches!(ask, Ask::Claim | Ask::Say(_) | Ask::End(_)),
        Answer::Minted(_) => matches!(ask, Ask::Alloc { .. } | Ask::Claim | Ask::Dequeue(_)),
        Answer::Nothing => matches!(ask, Ask::Claim | Ask::Dequeue(_)),
        Answer::Done => !matches!(
            ask,
            Ask::Alloc { .. } | Ask::Claim | Ask::Dequeue(_) | Ask::Cell | Ask::Fail
        ),
        _ => false,
    }
}

/// A receive of this event by this object, from the queue of the same number.
fn received(eo: u8, event: Event, cells: Option<Cells>) -> Context {
    Context::Receive(Receive {
        queue: QueueId(eo as u16),
        eo: EoId(eo),
        event,
        stamp: None,
        ticket: None,
        cells,
        rest: Rest::new(),
    })
}

/// The graph of a script.
fn graph_of(rt: &impl Abort, alloc: Global, script: &str) -> Config
    ensures { IsWellFormed result }
{
    match parse(alloc, script.as_bytes()) {
        Ok(graph) => graph,
        Err(end) => panic!(rt; "no script: {end:?}"),
    }
}

/// The next move, whose ask is answered so.
fn exchange(rt: &impl Abort, run: &mut BodyRun<'_>, answer: &Answer) -> Move
    requires { unanswered run.old.standing ≡ None }
    ensures { unanswered run.new.standing ≡ None }
{
    let made = run.next();
    if let Move::Ask(ask) = &made {
        assert!(rt; may_answer(ask, answer));
        run.answer(answer);
    }
    made
}

/// Compares the next move, and answers its ask.
fn follow(
    rt: &impl Abort,
    alloc: Global,
    run: &mut BodyRun<'_>,
    want: &str,
    reply: Reply,
) -> Result<(), Fail>
    requires { unanswered run.old.standing ≡ None }
    ensures { unanswered run.new.standing ≡ None }
{
    let made = exchange(rt, run, &answer_of(reply));
    let text = format!(in alloc; "{made:?}")?;
    assert_eq!(rt; text.as_str(), want);
    Ok(())
}

/// Compares the next moves.
fn follow_all(
    rt: &impl Abort,
    alloc: Global,
    run: &mut BodyRun<'_>,
    rows: &[Row],
) -> Result<(), Fail>
    requires { unanswered run.old.standing ≡ None }
    ensures { unanswered run.new.standing ≡ None }
{
    for row in rows {
        follow(rt, alloc, run, row.0, row.1)?;
    }
    Ok(())
}

/// Compares all moves of a context, and the cells at its end.
fn compare(
    rt: &impl Abort,
    alloc: Global,
    run: &mut BodyRun<'_>,
    context: &Context,
    rows: &[Row],
    cells: Option<Cells>,
) -> Result<(), Fail> {
    run.begin(context);
    follow_all(rt, alloc, run, rows)?;
    follow(rt, alloc, run, "End", Reply::Done)?;
    assert_eq!(rt; run.cells(), cells);
    Ok(())
}

/// The fault of a word that was never minted.
fn never(word: u64) -> Reply {
    Reply::Refused(Fault::NeverMinted(word))
}
