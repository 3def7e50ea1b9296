//! The run of a graph on one thread.
ghost use Rattle.std.specs.Prelude.{◌≡◌, ◌<◌, ◌≤◌, ℕ, None, Some, IfOk, IfSome, length};
ghost use Rattle.em_log.specs.declared.graph.Config.{Config as TheConfig};
ghost use Rattle.em_log.specs.declared.ids.Limits.{Limits as TheLimits};
ghost use Rattle.em_log.specs.Lawful.{Lawful};
ghost use Rattle.em_log.specs.WellFormed.{IsWellFormed};
ghost use Rattle.em_bounds.specs.Bound.{history_limit};
ghost use Rattle.em_core.specs.declared.core_run.Step.{Step as TheStep};
ghost use Rattle.em_core.specs.Steps.{unreplied, awaited, over};
ghost use Rattle.em_body.specs.contracts.run.BodyRunWork.TheImpl.{ghosts};
ghost use Rattle.em_desk.specs.Graphs.{AreInRange};
ghost use Rattle.em_desk.specs.State.{DeskState};
ghost use Rattle.em_drive.specs.Going.{AreGoing, HasTurned, IsAwaiting, IsForDesk, IsAfter, IsGrownBy, end_in};
ghost use Rattle.em_drive.specs.Orders.{IsOrderOf};
ghost use Rattle.em_drive.specs.Runs.{AreNew, IsRun};
ghost use Rattle.em_drive.specs.Servable.{IsServable};

use crate::order::Order;
use em_body::{BodyRun, steps_run_out};
use em_core::{CoreRun, Step};
use em_desk::{Desk, well_formed_is_in_bounds};
use em_log::{Answer, Ask, Config, Context, CoreId, EndKind, Gate, Limits, NoMemory};
use em_replies::Replies;
use std::alloc::Global;

/// Does nothing: its clauses say what the runs need of a desk's history.
fn history_is_lawful(desk: &Desk)
    ensures lawful { Lawful desk.now.declarations desk.now.limits desk.now.past }
    ensures few { length desk.now.past ≤ history_limit desk.now.declarations desk.now.limits }
{
    let _log = desk.log();
}

/// The next step of the run that is for the desk: silent ones are carried out.
fn next_step<'a>(run: &mut CoreRun<BodyRun<'a>>) -> Step
    requires unreplied { unreplied ghosts run.old ≡ None }
    requires over { over run.old ≡ None }
    ensures for_desk { IsForDesk result }
    ensures awaited { (g : TheConfig) (l : TheLimits) (desk : DeskState) (c : ℕ) → IsAwaiting None g l desk c run.old → IsAwaiting (Some result) g l desk c run.new }
{
    steps_run_out();
    loop {
        match run.next() {
            Step::Silent => {}
            step => return step,
        }
    }
}

/// Tells the gate what the core's take was answered.
pub(crate) fn tell<G: Gate>(gate: &G, core: CoreId, answer: &Answer) {
    match answer {
        Answer::Context(Context::Receive(receive)) => {
            gate.at_start(core, receive.queue, receive.event.handle.0);
        }
        Answer::Idle => gate.at_idle(core),
        _ => {}
    }
}

/// How a take's answer ends the run, if it does.
fn end_by(answer: &Answer) -> Option<EndKind>
    ensures { result ≡ end_in answer.now }
{
    match answer {
        Answer::Quiet => Some(EndKind::Quiet),
        Answer::Limit => Some(EndKind::Limit),
        _ => None,
    }
}

/// The core takes. Err is want of memory.
fn take<'a, G: Gate>(
    desk: &mut Desk,
    run: &mut CoreRun<BodyRun<'a>>,
    core: CoreId,
    gate: &G,
    replies: &mut Replies,
) -> Result<Option<EndKind>, NoMemory>
    requires { (g : TheConfig) × (l : TheLimits) × (IsAwaiting (Some TheStep.Take) g l desk.old core.0 run.old) }
    ensures after { (g : TheConfig) (l : TheLimits) → IsAwaiting (Some TheStep.Take) g l desk.old core.0 run.old → IfOk result (IsAfter g l desk.new core.0 run.new) }
    ensures grown { IfOk result (λ end. IsGrownBy core.0 desk.old.past desk.new.past) }
    ensures turned { (g : TheConfig) (l : TheLimits) → IsAwaiting (Some TheStep.Take) g l desk.old core.0 run.old → IfOk result (λ end. end ≡ None → HasTurned g l desk.old.past core.0 desk.new.past) }
{
    history_is_lawful(desk);
    let brief = desk.take_brief(core, run.locals())?;
    history_is_lawful(desk);
    replies.put(brief);
    let reply = replies.last();
    tell(gate, core, &reply.answer);
    run.told(reply);
    Ok(end_by(&reply.answer))
}

/// The core asks.
fn ask<'a>(
    desk: &mut Desk,
    run: &mut CoreRun<BodyRun<'a>>,
    core: CoreId,
    ask: Ask,
    replies: &mut Replies,
)
    requires { (g : TheConfig) × (l : TheLimits) × (IsAwaiting (Some (TheStep.Ask ask)) g l desk.old core.0 run.old) }
    ensures after { (g : TheConfig) (l : TheLimits) → IsAwaiting (Some (TheStep.Ask ask)) g l desk.old core.0 run.old → IsAwaiting None g l desk.new core.0 run.new }
    ensures grown { IsGrownBy core.0 desk.old.past desk.new.past }
    ensures turned { length desk.old.past < length desk.new.past }
{
    history_is_lawful(desk);
    ask.is_typed();
    replies.put(desk.ask_brief(core, ask, run.locals()));
    history_is_lawful(desk);
    run.told(replies.last());
}

/// One turn of the core: it makes one ask. Answers how the run has ended, if it has. Err is want of memory.
fn turn<'a, G: Gate>(
    desk: &mut Desk,
    run: &mut CoreRun<BodyRun<'a>>,
    core: CoreId,
    gate: &G,
    replies: &mut Replies,
) -> Result<Option<EndKind>, NoMemory>
    requires { (g : TheConfig) × (l : TheLimits) × (IsAwaiting None g l desk.old core.0 run.old) }
    ensures after { (g : TheConfig) (l : TheLimits) → IsAwaiting None g l desk.old core.0 run.old → IfOk result (IsAfter g l desk.new core.0 run.new) }
    ensures grown { IfOk result (λ end. IsGrownBy core.0 desk.old.past desk.new.past) }
    ensures turned { (g : TheConfig) (l : TheLimits) → IsAwaiting None g l desk.old core.0 run.old → IfOk result (λ end. end ≡ None → HasTurned g l desk.old.past core.0 desk.new.past) }
{
    match next_step(run) {
        Step::Take => take(desk, run, core, gate, replies),
        Step::Ask(next) => {
            ask(desk, run, core, next, replies);
            Ok(None)
        }
        _ => unreachable!(),
    }
}

/// One turn of this core of the graph. Answers how the run has ended, if it has. Err is want of memory.
fn turn_of<'a, G: Gate>(
    desk: &mut Desk,
    runs: &mut [CoreRun<BodyRun<'a>>],
    core: CoreId,
    gate: &G,
    replies: &mut Replies,
) -> Result<Option<EndKind>, NoMemory>
    requires core { core.0 < length runs.old }
    requires going { (g : TheConfig) × (l : TheLimits) × (AreGoing g l desk.old runs.old) }
    ensures going { (g : TheConfig) (l : TheLimits) → AreGoing g l desk.old runs.old → IfOk result (λ end. end ≡ None → AreGoing g l desk.new runs.new) }
    ensures ended { (g : TheConfig) (l : TheLimits) → AreGoing g l desk.old runs.old → IfOk result (λ end. IfSome end (λ kind. IsRun g l desk.new kind)) }
    ensures turned { (g : TheConfig) (l : TheLimits) → AreGoing g l desk.old runs.old → IfOk result (λ end. end ≡ None → HasTurned g l desk.old.past core.0 desk.new.past) }
{
    let end = turn(desk, &mut runs[usize::from(core.0)], core, gate, replies)?;
    history_is_lawful(desk);
    Ok(end)
}

/// A run for each core of the graph, which has done nothing yet. Err is want of memory.
fn new_runs<'a>(alloc: Global, config: &'a Config) -> Result<Vec<CoreRun<BodyRun<'a>>>, NoMemory>
    requires { IsWellFormed config.now }
    ensures { IfOk result (λ runs. AreNew config.now config.now.cores runs.items) }
{
    let mut runs = Vec::new(alloc);
    for core in 0..config.cores {
        let core = CoreId(core);
        if runs
            .push(CoreRun::new(core, BodyRun::new(config, core)))
            .is_err()
        {
            return Err(NoMemory);
        }
    }
    Ok(runs)
}

/// Runs the graph to its end, and answers the desk and how its history has ended. Rounds follow each other: in each the
/// cores take turns in this order, and in its turn a core makes one ask. The gate is told of the start of each receive, and
/// of each answer that there is nothing to do for now. Err is want of memory.
pub fn solo<G: Gate>(
    alloc: Global,
    config: &Config,
    limits: Limits,
    order: &Order,
    gate: &G,
) -> Result<(Desk, EndKind), NoMemory>
    requires well_formed { IsWellFormed config.now }
    requires servable { IsServable config.now }
    requires limits { AreInRange limits }
    requires burst { limits.burst ≡ 1 }
    requires order { IsOrderOf config.now.cores order.now }
    ensures { IfOk result (λ run. IsRun config.now limits run.0 run.1) }
{
    well_formed_is_in_bounds();
    let mut desk = Desk::build(alloc, config, limits)?;
    let mut runs = new_runs(alloc, config)?;
    let mut replies = Replies::new();
    loop {
        history_is_lawful(&desk);
        for core in order.as_slice() {
            if let Some(end) = turn_of(
                &mut desk,
                runs.as_mut_slice(),
                CoreId(*core),
                gate,
                &mut replies,
            )? {
                return Ok((desk, end));
            }
        }
    }
}
