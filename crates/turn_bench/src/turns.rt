//! Threads that take turns at a journal, under the lock and under std's `Mutex`.
ghost use Rattle.std.specs.Prelude.{◌≡◌, ◌+◌, ◌≤◌, false, [], ◌∷◌};
ghost use denote.Param.Send.{IsSync};

use crate::journal::Journal;
use em_log::CoreId;
use em_turn::{Turn, TurnSeat};
use std::alloc::{AllocError, Global};
use std::sync::{Mutex, Wait};
use std::thread;
use std::thread::{Threads, join};

/// How many turns each thread takes, and how many rounds of work it does between two turns.
#[derive(Clone, Copy)]
pub struct Plan {
    pub turns: u32,
    pub rounds: u32,
}

/// The state of a random number generator after so many rounds.
pub fn worked(state: u64, rounds: u32) -> u64 {
    let mut state = state;
    for _ in 0..rounds {
        state ^= state << 13;
        state ^= state >> 7;
        state ^= state << 17;
    }
    state
}

fn take_turn<R: Wait>(
    rt: &R,
    lock: &Turn<Journal>,
    seat: &mut TurnSeat<Journal>,
    core: CoreId,
    word: u64,
)
    requires here { (seat.old.turn ≡ lock.now) × (seat.old.inside ≡ false) }
    requires mine { seat.old.numbers ≡ core.0 ∷ [] }
    ensures { (seat.new.turn ≡ seat.old.turn) × (seat.new.inside ≡ false) × (seat.new.numbers ≡ seat.old.numbers) × (seat.new.spare ≡ seat.old.spare) }
{
    let mut journal = lock.enter(rt, seat);
    let _ = journal.add(core, word);
    lock.leave(seat, journal);
}

fn take_turns<R: Wait>(
    rt: &R,
    lock: &Turn<Journal>,
    mut seat: TurnSeat<Journal>,
    core: CoreId,
    plan: Plan,
) -> TurnSeat<Journal>
    requires here { (seat.turn ≡ lock.now) × (seat.inside ≡ false) }
    requires mine { seat.numbers ≡ core.0 ∷ [] }
    ensures { (result.turn ≡ lock.now) × (result.inside ≡ false) × (result.spare ≡ seat.spare) }
{
    let mut state = core.0 as u64 + 1;
    for _ in 0..plan.turns {
        state = worked(state, plan.rounds);
        take_turn(rt, lock, &mut seat, core, state);
    }
    seat
}

/// The first seat and one of each number from `next` on take their turns, each in a thread of its own where one can be made.
pub fn take_in_threads<R: Threads + Wait + Sync>(
    rt: &R,
    lock: &Turn<Journal>,
    mut first: TurnSeat<Journal>,
    next: u8,
    threads: u8,
    plan: Plan,
) -> TurnSeat<Journal>
    requires here { (first.turn ≡ lock.now) × (first.inside ≡ false) × (first.numbers ≡ 0 ∷ []) }
    requires next { (first.spare + next ≡ 64) × (next ≤ threads) × (threads ≤ 64) }
    ensures { (result.turn ≡ lock.now) × (result.inside ≡ false) × (result.spare ≡ first.spare) }
{
    if next == threads {
        return take_turns(rt, lock, first, CoreId(0), plan);
    }
    let other = lock.split(&mut first);
    let (mut first, other) = join(
        rt,
        move || -> TurnSeat<Journal>
            requires { IsSync R.row × (first.turn ≡ lock.now) × (first.inside ≡ false) × (first.numbers ≡ 0 ∷ []) × (first.spare + next + 1 ≡ 64) × (next + 1 ≤ threads) × (threads ≤ 64) }
            ensures { (result.turn ≡ lock.entry.now) × (result.inside ≡ false) × (result.spare ≡ first.spare) }
        { take_in_threads(rt, lock, first, next + 1, threads, plan) },
        move || -> TurnSeat<Journal>
            requires { (other.turn ≡ lock.now) × (other.inside ≡ false) × (other.numbers ≡ next ∷ []) }
            ensures { (result.turn ≡ lock.entry.now) × (result.inside ≡ false) × (result.spare ≡ other.spare) }
        { take_turns(rt, lock, other, CoreId(next), plan) },
    );
    lock.join(&mut first, other);
    first
}

fn lock_often<R: Wait>(rt: &R, mutex: &Mutex<Journal>, core: CoreId, plan: Plan) {
    let mut state = core.0 as u64 + 1;
    for _ in 0..plan.turns {
        state = worked(state, plan.rounds);
        let _ = mutex.lock(rt).add(core, state);
    }
}

/// The same under std's `Mutex`.
pub fn lock_in_threads<R: Threads + Wait + Sync>(
    rt: &R,
    alloc: Global,
    mutex: &Mutex<Journal>,
    threads: u8,
    plan: Plan,
) -> Result<(), AllocError> {
    thread::map_indices(
        rt,
        alloc,
        threads as usize,
        &|i| { lock_often(rt, mutex, CoreId((i % 64) as u8), plan) },
    )?;
    Ok(())
}
