//! Cores that run each in a thread of its own.
ghost use Rattle.std.specs.Prelude.{ℕ, ◌≡◌, ◌+◌, ◌<◌, ◌≤◌, ◌++◌, ◌∷◌, [], length};
ghost use Rattle.std.specs.Vec.{vec_capacity, vec_len};
ghost use Rattle.em_drive.specs.Parallel.{CanRun, HaveRun, IsAtWork, IsCame, IsSetAside, IsSettled};
ghost use denote.Param.Send.{IsSync};

use crate::turns::drive_in_turns;
use crate::workers::{Came, Ends, Plan, Worker};
use em_board::Board;
use em_log::{CoreId, Gate, Work};
use std::snapshot::Snapshot;
use std::sync::Wait;
use std::sync::atomic::{AtomicBool, Ordering};
use std::thread;
use std::thread::{Promise, SpawnError, Threads};

/// What the thread of a core hands on.
#[derive(Drop)]
struct Promised<W> {
    plan: Snapshot<Plan<W>>,
    board: Snapshot<Board>,
    core: CoreId,
}

impl<W: Work> Promise<Came<W>> for Promised<W> {
    ghost kept_by = { λ p r. IsCame W.Work p.plan.value p.board.value p.core.0 r };
}

/// Runs the worker, but hands it back where its core is flagged as not started.
fn begin<W: Work + Drop, R: Wait, G: Gate>(
    rt: &R,
    board: &Board,
    plan: &Plan<W>,
    worker: Worker<W>,
    refused: &AtomicBool,
    gate: &G,
) -> Came<W>
    requires at_work { IsAtWork W.Work plan.now board.now worker }
    ensures { IsCame W.Work plan.now board.now worker.core.0 result }
{
    if refused.load(Ordering::SeqCst) {
        return Came::Untouched(worker);
    }
    let (pass, end) = worker.drive(rt, board, plan, gate);
    Came::Ended(pass, end)
}

/// Takes in what the thread of a core has handed on. Where that did not run the worker, it runs now.
fn settle<W: Work + Drop, R: Wait, G: Gate>(
    rt: &R,
    board: &Board,
    plan: &Plan<W>,
    came: Came<W>,
    ends: &mut Ends,
    gate: &G,
)
    requires came { (c : ℕ) × (IsCame W.Work plan.now board.now c came) }
    requires room { length ends.old.passes < plan.now.config.value.cores }
    ensures { (c : ℕ) → IsCame W.Work plan.now board.now c came → IsSettled W.Work plan.now board.now c ends.old ends.new }
{
    match came {
        Came::Ended(pass, end) => ends.add(board, plan, pass, end),
        Came::Untouched(worker) => {
            let (pass, end) = worker.drive(rt, board, plan, gate);
            ends.add(board, plan, pass, end);
        }
    }
}

/// Takes in what a call in place of the thread of a core has handed on: the worker is to run here.
fn set_aside<W: Work + Drop>(
    board: &Board,
    plan: &Plan<W>,
    came: Came<W>,
    here: &mut Vec<Worker<W>>,
    ends: &mut Ends,
)
    requires came { (c : ℕ) × (IsCame W.Work plan.now board.now c came) }
    requires can { CanRun W.Work plan.now board.now here.old.items ends.old }
    requires room { length here.old.items + length ends.old.passes < plan.now.config.value.cores }
    requires space { vec_len here.old < vec_capacity here.old }
    ensures aside { (c : ℕ) → IsCame W.Work plan.now board.now c came → IsSetAside W.Work plan.now board.now c here.old.items here.new.items ends.old ends.new }
    ensures capacity { vec_capacity here.new ≡ vec_capacity here.old }
{
    match came {
        Came::Ended(pass, end) => ends.add(board, plan, pass, end),
        Came::Untouched(worker) => here.push_reserved(worker),
    }
}

/// Calls it in place of the thread that could not be started.
fn call<T, F: FnOnce() -> T>(unstarted: SpawnError<F>) -> T
    requires { F.pre unstarted.value }
    ensures { F.post unstarted.value result }
{
    (unstarted.value)()
}

/// Runs these workers each in a thread of its own, and the others here, in turns, with those whose thread could not be started.
pub(crate) fn drive_in_threads<W: Work + Send + Drop, R: Threads + Wait + Sync, G: Gate + Sync>(
    rt: &R,
    board: &Board,
    plan: &Plan<W>,
    mut workers: Vec<Worker<W>>,
    here: Vec<Worker<W>>,
    ends: Ends,
    gate: &G,
) -> Ends
    requires can { CanRun W.Work plan.now board.now (workers.items ++ here.items) ends }
    requires space { plan.now.config.value.cores ≤ vec_capacity here }
    ensures { HaveRun W.Work plan.now board.now (workers.items ++ here.items) ends result }
{
    let Some(worker) = workers.pop() else {
        return drive_in_turns(rt, board, plan, here, ends, gate);
    };
    let flag = AtomicBool::new(false);
    let refused = &flag;
    thread::scope(
        thread::scope_env(),
        rt,
        move |scope| -> Ends
            requires { IsSync R.row × IsSync G.row × (CanRun W.Work plan.now board.now ((workers.items ++ worker ∷ []) ++ here.items) ends)
                × (plan.now.config.value.cores ≤ vec_capacity here) }
            ensures { HaveRun W.Work plan.entry.now board.entry.now ((workers.items ++ worker ∷ []) ++ here.items) ends result }
        {
            let promise = Promised {
                plan: Snapshot::of(plan),
                board: Snapshot::of(board),
                core: worker.core,
            };
            let started = scope.spawn_with(
                promise,
                move || -> Came<W>
                    requires { IsAtWork W.Work plan.now board.now worker }
                    ensures { IsCame W.Work plan.entry.now board.entry.now worker.core.0 result }
                { begin(rt, board, plan, worker, refused, gate) },
            );
            match started {
                Ok(child) => {
                    let mut ends = drive_in_threads(rt, board, plan, workers, here, ends, gate);
                    settle(rt, board, plan, child.join(rt), &mut ends, gate);
                    ends
                }
                Err(unstarted) => {
                    refused.store(true, Ordering::SeqCst);
                    let came = call(unstarted);
                    let mut here = here;
                    let mut ends = ends;
                    set_aside(board, plan, came, &mut here, &mut ends);
                    drive_in_threads(rt, board, plan, workers, here, ends, gate)
                }
            }
        },
    )
}
