//! Several cores that one thread drives, in turns.
ghost use Rattle.em_drive.specs.Parallel.{CanRun, HaveRun};

use crate::driver::Turned;
use crate::idle::Idle;
use crate::workers::{Ends, Plan, Worker};
use em_board::Board;
use em_log::{Gate, Work};
use em_replies::Replies;
use std::sync::Wait;

/// Runs the cores, each to its end before the next one.
fn drive_each<W: Work + Drop, R: Wait, G: Gate>(
    rt: &R,
    board: &Board,
    plan: &Plan<W>,
    mut workers: Vec<Worker<W>>,
    mut ends: Ends,
    gate: &G,
) -> Ends
    requires { CanRun W.Work plan.now board.now workers.items ends }
    ensures { HaveRun W.Work plan.now board.now workers.items ends result }
{
    while let Some(worker) = workers.pop() {
        let (pass, end) = worker.drive(rt, board, plan, gate);
        ends.add(board, plan, pass, end);
    }
    ends
}

/// Runs the cores in turns, until each has ended. In its turn a core makes one ask.
pub(crate) fn drive_in_turns<W: Work + Drop, R: Wait, G: Gate>(
    rt: &R,
    board: &Board,
    plan: &Plan<W>,
    mut workers: Vec<Worker<W>>,
    mut ends: Ends,
    gate: &G,
) -> Ends
    requires { CanRun W.Work plan.now board.now workers.items ends }
    ensures { HaveRun W.Work plan.now board.now workers.items ends result }
{
    let mut idle = Idle::new();
    let mut replies = Replies::new();
    // How many more turns in a row may find nothing to do before the thread waits.
    let mut idlers = workers.len();
    for _ in rt.forever() {
        if workers.len() < 2 {
            return drive_each(rt, board, plan, workers, ends, gate);
        }
        let mut worker = workers.remove(0);
        let turned = worker.turn(rt, board, plan, gate, &mut replies);
        match turned {
            Turned::Ended(end) => {
                let Worker { pass, .. } = worker;
                ends.add(board, plan, pass, end);
                continue;
            }
            Turned::On => {
                idle.end();
                idlers = workers.len();
            }
            Turned::Idle if idlers > 0 => idlers -= 1,
            Turned::Idle => {
                idle.wait(rt);
                idlers = workers.len();
            }
        }
        workers.push_reserved(worker);
    }
    unreachable!()
}
