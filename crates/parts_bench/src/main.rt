//! Calls of the parts, over and over: how many had something to do, or, with a part and its sizes, how long they took.
#![tactic(auto)]

ghost use Rattle.std.specs.Prelude.{◌≡◌, ◌<◌, ◌≤◌, IfOk, length};
ghost use Rattle.em_queues.specs.State.{shape};

mod acks;
mod atomics;
mod egroups;
mod graphs;
mod groups;
mod objects;
mod orders;
mod queues;
mod runs;

use crate::queues::{Call, each};
use crate::runs::{Rounds, acknowledged, applied, atomic, grouped, moved, ordered};
use em_log::{Kind, NoMemory, Priority, QueueId};
use em_parts_rows::graph;
use em_queues::{Allowed, Queues};
use std::alloc::{AllocError, Global};
use std::env;
use std::time::Instant;

/// About how many calls of each kind are timed together.
const CALLS: u32 = 65_536;

/// As many queues as there can be, of a kind.
const PARALLEL: [(Kind, Option<Priority>); 256] = [(Kind::Parallel, Some(Priority::Normal)); 256];

const LOCAL: [(Kind, Option<Priority>); 256] = [(Kind::Local, Some(Priority::Normal)); 256];

const UNSCHEDULED: [(Kind, Option<Priority>); 256] = [(Kind::Unscheduled, None); 256];

fn built(alloc: Global, kinds: &[(Kind, Option<Priority>)], events: u16) -> Result<Queues, NoMemory>
    requires queues { length kinds.now ≤ 256 }
    requires events { events ≤ 4096 }
    ensures { IfOk result (λ q. shape q ≡ record { cores = 4; queues = length kinds.now; events = events }) }
{
    Queues::build(alloc, &graph(alloc, 4, events, kinds)?)
}

fn all_of(count: u16) -> Allowed
    requires { count ≤ 256 }
{
    let mut may = Allowed::none();
    for queue in 0..count {
        may.add(QueueId(queue));
    }
    may
}

/// A call that is timed: its name, the nanoseconds of all rounds, and how often there was something to do.
#[derive(Clone, Copy)]
struct Measured {
    name: &'static str,
    call: Call,
    nanoseconds: u128,
    done: u64,
}

fn unmeasured(name: &'static str, call: Call) -> Measured {
    Measured {
        name,
        call,
        nanoseconds: 0,
        done: 0,
    }
}

fn served() -> [Measured; 7] {
    [
        unmeasured("arrive", Call::Arrive),
        unmeasured("is_listed", Call::IsListed),
        unmeasured("waiting", Call::Waiting),
        unmeasured("best", Call::Best),
        unmeasured("taken_at", Call::TakenAt),
        unmeasured("untake", Call::Untake),
        unmeasured("serve", Call::Serve),
    ]
}

fn dequeued() -> [Measured; 2] {
    [
        unmeasured("arrive", Call::Arrive),
        unmeasured("dequeue", Call::Dequeue),
    ]
}

/// Makes the calls of a round, in which all events arrive and all are served or dequeued, over and over, and prints for each
/// what it took.
fn timed(
    rt: &HostRuntime,
    kinds: &[(Kind, Option<Priority>)],
    calls: &mut [Measured],
    events: u16,
) -> anyhow::Result<()>
    requires some { 0 < length kinds.now }
    requires queues { length kinds.now ≤ 256 }
    requires one { 1 ≤ events }
    requires events { events ≤ 4096 }
{
    let Ok(mut queues) = built(rt.alloc(), kinds, events) else {
        return Err(AllocError.into());
    };
    let count = kinds.len() as u16;
    let may = all_of(count);
    for _ in 0..CALLS / u32::from(events) {
        for timed in calls.iter_mut() {
            let start = Instant::now(rt)?;
            let done = each(&mut queues, &may, timed.call, count, events);
            let nanoseconds = start.elapsed(rt)?.as_nanos();
            timed.nanoseconds = timed.nanoseconds.saturating_add(nanoseconds);
            timed.done = timed.done.saturating_add(done);
        }
    }
    for timed in calls.iter() {
        println!(rt; "{} {} {}", timed.name, timed.nanoseconds, timed.done)?;
    }
    Ok(())
}

/// Prints how often each call was made, as so many times in each round, and how often there was something to do.
fn counted(
    rt: &HostRuntime,
    rounds: Result<Rounds, NoMemory>,
    calls: &[(&'static str, u32)],
) -> anyhow::Result<()> {
    let Ok(rounds) = rounds else {
        return Err(AllocError.into());
    };
    for (name, times) in calls {
        println!(rt; "{name} {}", u64::from(*times) * u64::from(rounds.count))?;
    }
    println!(rt; "done {}", rounds.done)?;
    Ok(())
}

/// The rounds of the part of this name: of so many queues, groups, objects or operations.
fn part(rt: &HostRuntime, name: &str, count: u16, events: u16) -> anyhow::Result<()>
    requires one { 1 ≤ count }
    requires queues { count ≤ 256 }
    requires some { 1 ≤ events }
    requires events { events ≤ 4096 }
{
    let alloc = rt.alloc();
    let few = count.min(64) as u8;
    match name {
        "ordered" => counted(
            rt,
            ordered(alloc, count, events),
            &orders::calls(u32::from(events)),
        ),
        "atomic" => counted(rt, atomic(alloc, count), &atomics::CALLS),
        "groups" => counted(rt, grouped(alloc, few), &groups::CALLS),
        "objects" => counted(rt, moved(alloc, few), &objects::CALLS),
        "event_groups" => counted(rt, applied(alloc, few), &egroups::CALLS),
        "operations" => counted(rt, acknowledged(alloc, few), &acks::calls(u32::from(few))),
        _ => {
            println!(rt;
                "usage: parts_bench parallel|local|unscheduled|ordered|atomic|groups|objects|event_groups|operations COUNT EVENTS"
            )?;
            Ok(())
        }
    }
}

fn main(rt: HostRuntime) -> anyhow::Result<()> {
    let words: Vec<String> = env::args(&rt)?.skip(1).collect(rt.alloc())?;
    let number = |place: usize| words
        .get(place)
        .and_then(|word| word.as_str().parse::<u16>().ok())
        .unwrap_or(1);
    let count = usize::from(number(1)).clamp(1, 256);
    let events = number(2).clamp(1, 4096);
    match words.first().map(|word| word.as_str()) {
        Some("parallel") => timed(&rt, &PARALLEL[..count], &mut served(), events),
        Some("local") => timed(&rt, &LOCAL[..count], &mut served(), events),
        Some("unscheduled") => timed(&rt, &UNSCHEDULED[..count], &mut dequeued(), events),
        Some(name) => part(&rt, name, count as u16, events),
        None => part(&rt, "", 1, 1),
    }
}
