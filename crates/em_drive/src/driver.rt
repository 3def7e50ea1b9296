//! One core that runs a work over its pass of the board.
ghost use Rattle.std.specs.Prelude.{◌≡◌, None, Some};
ghost use Rattle.em_log.specs.declared.graph.Config.{Config as TheConfig};
ghost use Rattle.em_log.specs.declared.ids.Limits.{Limits as TheLimits};
ghost use Rattle.em_core.specs.declared.core_run.Step.{Step as TheStep};
ghost use Rattle.em_core.specs.Steps.{unreplied, over};
ghost use Rattle.em_board.specs.Passes.{PassView};
ghost use Rattle.em_drive.specs.Driven.{HasEnded, IsAfterTurn, IsDriven, IsSamePass, turned_by};
ghost use Rattle.em_drive.specs.Going.{IsForDesk};

use crate::idle::Idle;
use crate::run::tell;
use em_board::{Board, Pass};
use em_core::{CoreRun, Step};
use em_log::{Answer, Ask, CoreId, EndKind, Gate, Work};
use em_replies::Replies;
use std::sync::Wait;

/// How the run of a core has ended: as the history has, since the board was halted, or for want of memory.
#[derive(Clone, Copy, Debug, PartialEq, Eq)]
pub enum CoreEnd {
    Over(EndKind),
    Halted,
    NoMemory,
}

/// What a turn of a core came to: it goes on, it goes on and found nothing to do for now, or it has ended.
#[derive(Clone, Copy, Debug, PartialEq, Eq)]
pub enum Turned {
    On,
    Idle,
    Ended(CoreEnd),
}

/// The next step of the run that is for the board: silent ones are carried out, and there may be ever more of them.
fn next_step<W: Work, R: Wait>(rt: &R, run: &mut CoreRun<W>) -> Step
    requires unreplied { unreplied W.Work run.old ≡ None }
    requires over { over run.old ≡ None }
    ensures for_board { IsForDesk result }
    ensures driven { (f : W.Fixed) (g : TheConfig) (l : TheLimits) (p : PassView) → IsDriven W.Work None f g l p run.old → IsDriven W.Work (Some result) f g l p run.new }
{
    for _ in rt.forever() {
        match run.next() {
            Step::Silent => {}
            step => return step,
        }
    }
    unreachable!()
}

/// What the answer to a take makes of a turn.
fn comes_to(answer: &Answer) -> Turned
    ensures { result ≡ turned_by answer.now }
{
    match answer {
        Answer::Idle => Turned::Idle,
        Answer::Quiet => Turned::Ended(CoreEnd::Over(EndKind::Quiet)),
        Answer::Limit => Turned::Ended(CoreEnd::Over(EndKind::Limit)),
        Answer::Halted => Turned::Ended(CoreEnd::Halted),
        _ => Turned::On,
    }
}

/// The core takes. Where there is no memory for that it halts the board.
fn take<W: Work, R: Wait, G: Gate>(
    rt: &R,
    board: &Board,
    pass: &mut Pass,
    run: &mut CoreRun<W>,
    core: CoreId,
    gate: &G,
    replies: &mut Replies,
) -> Turned
    requires here { (pass.old.board ≡ board.now) × (pass.old.core ≡ core.0) }
    requires driven { (f : W.Fixed) × (g : TheConfig) × (l : TheLimits) × (IsDriven W.Work (Some TheStep.Take) f g l pass.old run.old) }
    ensures after { (f : W.Fixed) (g : TheConfig) (l : TheLimits) → IsDriven W.Work (Some TheStep.Take) f g l pass.old run.old → IsAfterTurn W.Work f g l pass.new run.new result }
    ensures pass { IsSamePass pass.old pass.new }
{
    let Ok(brief) = board.take_brief(rt, pass, run.locals()) else {
        board.halt(rt, pass);
        return Turned::Ended(CoreEnd::NoMemory);
    };
    replies.put(brief);
    let reply = replies.last();
    tell(gate, core, &reply.answer);
    run.told(reply);
    comes_to(&reply.answer)
}

/// The core asks.
fn ask<W: Work, R: Wait>(
    rt: &R,
    board: &Board,
    pass: &mut Pass,
    run: &mut CoreRun<W>,
    ask: Ask,
    replies: &mut Replies,
)
    requires here { pass.old.board ≡ board.now }
    requires driven { (f : W.Fixed) × (g : TheConfig) × (l : TheLimits) × (IsDriven W.Work (Some (TheStep.Ask ask)) f g l pass.old run.old) }
    ensures after { (f : W.Fixed) (g : TheConfig) (l : TheLimits) → IsDriven W.Work (Some (TheStep.Ask ask)) f g l pass.old run.old → IsDriven W.Work None f g l pass.new run.new }
    ensures pass { IsSamePass pass.old pass.new }
{
    ask.is_typed();
    replies.put(board.ask_brief(rt, pass, ask, run.locals()));
    run.told(replies.last());
}

/// One turn of the core: it makes one ask.
pub fn turn<W: Work, R: Wait, G: Gate>(
    rt: &R,
    board: &Board,
    pass: &mut Pass,
    run: &mut CoreRun<W>,
    core: CoreId,
    gate: &G,
    replies: &mut Replies,
) -> Turned
    requires here { (pass.old.board ≡ board.now) × (pass.old.core ≡ core.0) }
    requires driven { (f : W.Fixed) × (g : TheConfig) × (l : TheLimits) × (IsDriven W.Work None f g l pass.old run.old) }
    ensures after { (f : W.Fixed) (g : TheConfig) (l : TheLimits) → IsDriven W.Work None f g l pass.old run.old → IsAfterTurn W.Work f g l pass.new run.new result }
    ensures pass { IsSamePass pass.old pass.new }
{
    match next_step(rt, run) {
        Step::Take => take(rt, board, pass, run, core, gate, replies),
        Step::Ask(next) => {
            ask(rt, board, pass, run, next, replies);
            Turned::On
        }
        _ => unreachable!(),
    }
}

/// Runs the core until its run has ended.
pub fn drive<W: Work, R: Wait, G: Gate>(
    rt: &R,
    board: &Board,
    pass: &mut Pass,
    run: &mut CoreRun<W>,
    core: CoreId,
    gate: &G,
) -> CoreEnd
    requires here { (pass.old.board ≡ board.now) × (pass.old.core ≡ core.0) }
    requires driven { (f : W.Fixed) × (g : TheConfig) × (l : TheLimits) × (IsDriven W.Work None f g l pass.old run.old) }
    ensures ended { (f : W.Fixed) (g : TheConfig) (l : TheLimits) → IsDriven W.Work None f g l pass.old run.old → HasEnded W.Work f g l pass.new result }
    ensures pass { IsSamePass pass.old pass.new }
{
    let mut idle = Idle::new();
    let mut replies = Replies::new();
    for _ in rt.forever() {
        match turn(rt, board, pass, run, core, gate, &mut replies) {
            Turned::On => idle.end(),
            Turned::Idle => idle.wait(rt),
            Turned::Ended(end) => return end,
        }
    }
    unreachable!()
}
