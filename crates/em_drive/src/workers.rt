//! Cores with a work each, before they run, on their way and after.
ghost use Rattle.std.specs.Prelude.{◌≡◌, ◌<◌, ◌++◌, ◌∷◌, ◌&&◌, [], true, length};
ghost use Rattle.em_drive.specs.Parallel.{AreOver, IsAtWork, IsEnded, IsTurned, is_over};

use crate::driver::{CoreEnd, Turned, drive, turn};
use em_board::{Board, Pass, Passes};
use em_core::CoreRun;
use em_log::{Config, CoreId, Gate, Limits, Work};
use em_replies::Replies;
use std::snapshot::Snapshot;
use std::sync::Wait;

/// What a run is of: the graph, the limits, and the works in the order of their cores.
#[derive(Drop)]
pub(crate) struct Plan<W> {
    pub config: Snapshot<Config>,
    pub limits: Limits,
    pub works: Snapshot<Vec<W>>,
}

/// A core with its pass, and the run of its work.
#[derive(Drop)]
pub(crate) struct Worker<W> {
    pub core: CoreId,
    pub pass: Pass,
    pub run: CoreRun<W>,
}

/// What has come of a worker: its core has ended so, or it was not begun.
#[derive(Drop)]
pub(crate) enum Came<W> {
    Ended(Pass, CoreEnd),
    Untouched(Worker<W>),
}

/// The passes of the cores that have ended, and whether each has ended as the history has.
#[derive(Drop)]
pub(crate) struct Ends {
    pub passes: Passes,
    pub over: bool,
}

/// Whether the cores have ended as the history has, with one that has ended so.
fn over_after(over: bool, end: &CoreEnd) -> bool
    ensures { result ≡ (over && is_over end.now) }
{
    over && matches!(end, CoreEnd::Over(_))
}

impl<W: Work + Drop> Worker<W> {
    /// One turn of the core: it makes one ask.
    pub fn turn<R: Wait, G: Gate>(
        &mut self,
        rt: &R,
        board: &Board,
        plan: &Plan<W>,
        gate: &G,
        replies: &mut Replies,
    ) -> Turned
        requires at_work { IsAtWork W.Work plan.now board.now self.old }
        ensures after { IsTurned W.Work plan.now board.now self.new result }
        ensures core { (self.new.core ≡ self.old.core) × (self.new.pass.core ≡ self.old.core.0) }
    {
        let _ = plan;
        turn(
            rt,
            board,
            &mut self.pass,
            &mut self.run,
            self.core,
            gate,
            replies,
        )
    }

    /// Runs the core until its run has ended.
    pub fn drive<R: Wait, G: Gate>(
        self,
        rt: &R,
        board: &Board,
        plan: &Plan<W>,
        gate: &G,
    ) -> (Pass, CoreEnd)
        requires at_work { IsAtWork W.Work plan.now board.now self }
        ensures ended { IsEnded W.Work plan.now board.now result.0 result.1 }
        ensures core { result.0.core ≡ self.core.0 }
    {
        let _ = plan;
        let Worker {
            core,
            mut pass,
            mut run,
        } = self;
        let end = drive(rt, board, &mut pass, &mut run, core, gate);
        (pass, end)
    }
}

impl Ends {
    /// Of no core.
    pub fn new(passes: Passes) -> Ends
        ensures { result ≡ record { passes = passes; over = true } }
    {
        Ends { passes, over: true }
    }

    /// The core of this pass has ended so, too.
    pub fn add<W: Work>(&mut self, board: &Board, plan: &Plan<W>, pass: Pass, end: CoreEnd)
        requires room { length self.old.passes < plan.now.config.value.cores }
        requires ended { IsEnded W.Work plan.now board.now pass end }
        ensures over { (self.old.over ≡ true → AreOver W.Work plan.now board.now self.old.passes) → self.new.over ≡ true → AreOver W.Work plan.now board.now self.new.passes }
        ensures passes { self.new.passes ≡ self.old.passes ++ pass ∷ [] }
    {
        let _ = board;
        let _ = plan;
        self.over = over_after(self.over, &end);
        self.passes.push(pass);
    }
}
