//! Threads that take turns at one journal.
ghost use Rattle.std.specs.Prelude.{◌≡◌, ◌+◌, ◌≤◌, false, [], ◌∷◌};
ghost use Rattle.std.specs.Prelude.{map};
ghost use Rattle.em_log.specs.Items.{Logged};
ghost use denote.Param.Send.{IsSync};

use crate::turn::{Turn, TurnSeat};
use crate::view::Listed;
use em_log::{CoreId, Declarations, Entry, Limits, List, What};
use std::alloc::Global;
use std::sync::Wait;
use std::test::Fail;
use std::thread::{Threads, join};

const TURNS: u64 = 1000;

#[derive(Drop)]
struct Journal {
    declarations: Declarations,
    limits: Limits,
    entries: Vec<Entry>,
}

impl Listed for Journal {
    ghost fixed = { λ j. record { declarations = j.declarations; limits = j.limits } };

    ghost items = { λ j. map Logged j.entries.items };
}

fn empty_journal(alloc: Global, cores: u8) -> Journal
    ensures { result.entries.items ≡ [] }
{
    Journal {
        declarations: Declarations {
            cores,
            pools: List::new(alloc),
            groups: List::new(alloc),
            running: List::new(alloc),
            agroups: List::new(alloc),
            queues: List::new(alloc),
            egroups: 0,
        },
        limits: Limits {
            receives: 1,
            burst: 1,
        },
        entries: Vec::new(alloc),
    }
}

// One turn, in which an entry is added if there is memory.
fn add<R: Wait>(rt: &R, lock: &Turn<Journal>, seat: &mut TurnSeat<Journal>, core: CoreId, word: u64)
    requires here { (seat.old.turn ≡ lock.now) × (seat.old.inside ≡ false) }
    requires mine { seat.old.numbers ≡ core.0 ∷ [] }
    ensures { (seat.new.turn ≡ seat.old.turn) × (seat.new.inside ≡ false) × (seat.new.numbers ≡ seat.old.numbers) × (seat.new.spare ≡ seat.old.spare) }
{
    let mut journal = lock.enter(rt, seat);
    let what = What::Say(word);
    let _ = journal.entries.push(Entry { core, what });
    lock.leave(seat, journal);
}

fn add_all<R: Wait>(
    rt: &R,
    lock: &Turn<Journal>,
    mut seat: TurnSeat<Journal>,
    core: CoreId,
) -> TurnSeat<Journal>
    requires here { (seat.turn ≡ lock.now) × (seat.inside ≡ false) }
    requires mine { seat.numbers ≡ core.0 ∷ [] }
    ensures { (result.turn ≡ lock.now) × (result.inside ≡ false) × (result.spare ≡ seat.spare) }
{
    for word in 0..TURNS {
        add(rt, lock, &mut seat, core, word);
    }
    seat
}

// The first seat and each of those from `next` on, in a thread of its own, take their turns. All are joined again.
fn add_in_threads<R: Threads + Wait + Sync>(
    rt: &R,
    lock: &Turn<Journal>,
    mut first: TurnSeat<Journal>,
    next: u8,
    threads: u8,
) -> TurnSeat<Journal>
    requires here { (first.turn ≡ lock.now) × (first.inside ≡ false) × (first.numbers ≡ 0 ∷ []) }
    requires next { (first.spare + next ≡ 64) × (next ≤ threads) × (threads ≤ 64) }
    ensures { (result.turn ≡ lock.now) × (result.inside ≡ false) × (result.spare ≡ first.spare) }
{
    if next == threads {
        return add_all(rt, lock, first, CoreId(0));
    }
    let other = lock.split(&mut first);
    let (mut first, other) = join(
        rt,
        move || -> TurnSeat<Journal>
            requires { IsSync R.row × (first.turn ≡ lock.now) × (first.inside ≡ false) × (first.numbers ≡ 0 ∷ []) × (first.spare + next + 1 ≡ 64) × (next + 1 ≤ threads) × (threads ≤ 64) }
            ensures { (result.turn ≡ lock.entry.now) × (result.inside ≡ false) × (result.spare ≡ first.spare) }
        { add_in_threads(rt, lock, first, next + 1, threads) },
        move || -> TurnSeat<Journal>
            requires { (other.turn ≡ lock.now) × (other.inside ≡ false) × (other.numbers ≡ next ∷ []) }
            ensures { (result.turn ≡ lock.entry.now) × (result.inside ≡ false) × (result.spare ≡ other.spare) }
        { add_all(rt, lock, other, CoreId(next)) },
    );
    lock.join(&mut first, other);
    first
}

#[test]
fn each_thread_adds_its_items_once_and_in_order(rt: HostRuntime) -> Result<(), Fail> {
    for threads in [2, 4, 16] {
        let journal = empty_journal(rt.alloc(), threads);
        let Ok((lock, first)) = Turn::new(rt.alloc(), journal) else {
            panic!(rt; "memory")
        };
        let first = add_in_threads(&rt, &lock, first, 1, threads);
        let journal = lock.close(first);
        let mut counts = [0; 16];
        for entry in journal.entries.as_slice() {
            let count = &mut counts[entry.core.0 as usize % 16];
            assert!(rt; matches!(entry.what, What::Say(word) if word == *count));
            *count = count.wrapping_add(1);
        }
        for core in 0..16 {
            let expected = if core < threads as usize { TURNS } else { 0 };
            assert!(rt; counts[core] == expected);
        }
    }
    Ok(())
}
