//! Rounds of calls of each part but the queues, and how often each call was made.
ghost use Rattle.std.specs.Prelude.{◌<◌, ◌≤◌, length};

use crate::graphs::{with_atomic_queues, with_event_groups, with_groups, with_objects};
use crate::{acks, atomics, egroups, groups, objects, orders};
use em_acks::Acks;
use em_atomic::Atomics;
use em_egroups::EventGroups;
use em_groups::Groups;
use em_log::{
    AtomicId, EoId, EventGroupId, GroupId, Kind, MAX_OPERATIONS, NoMemory, Priority, QueueId,
};
use em_objects::Objects;
use em_order::Orders;
use em_parts_rows::graph;
use std::alloc::Global;

/// About how many calls of each kind are made.
const CALLS: u32 = 65_536;

const ORDERED: [(Kind, Option<Priority>); 256] = [(Kind::Ordered, Some(Priority::Normal)); 256];

/// What some rounds did: how many there were, and how often there was something to do.
#[derive(Clone, Copy)]
pub struct Rounds {
    pub count: u32,
    pub done: u64,
}

pub fn ordered(alloc: Global, count: u16, events: u16) -> Result<Rounds, NoMemory>
    requires one { 1 ≤ count }
    requires queues { count ≤ 256 }
    requires some { 1 ≤ events }
    requires events { events ≤ 4096 }
{
    let queues = &ORDERED[..usize::from(count)];
    let mut orders = Orders::build(alloc, &graph(alloc, 4, events, queues)?)?;
    let mut done = 0_u64;
    let rounds = CALLS / u32::from(events);
    for n in 0..rounds {
        let queue = QueueId((n % u32::from(count)) as u16);
        done = done.saturating_add(orders::round(&mut orders, queue, events));
    }
    Ok(Rounds {
        count: rounds,
        done,
    })
}

pub fn atomic(alloc: Global, count: u16) -> Result<Rounds, NoMemory>
    requires { 1 ≤ count }
{
    let mut atomics = Atomics::build(alloc, &with_atomic_queues(alloc, count)?)?;
    let mut done = 0_u64;
    for n in 0..CALLS {
        let atomic = AtomicId((n % u32::from(count)) as u16);
        done = done.saturating_add(u64::from(atomics::round(&mut atomics, atomic)));
    }
    Ok(Rounds { count: CALLS, done })
}

pub fn grouped(alloc: Global, count: u8) -> Result<Rounds, NoMemory>
    requires { 1 ≤ count }
{
    let mut groups = Groups::build(alloc, &with_groups(alloc, count)?)?;
    let mut done = 0_u64;
    for n in 0..CALLS {
        let group = GroupId((n % u32::from(count)) as u8);
        let mask = u64::from(1 + n % 3);
        done = done.saturating_add(u64::from(groups::round(&mut groups, group, mask)));
    }
    Ok(Rounds { count: CALLS, done })
}

pub fn moved(alloc: Global, count: u8) -> Result<Rounds, NoMemory>
    requires { 1 ≤ count }
{
    let mut objects = Objects::build(alloc, &with_objects(alloc, count)?)?;
    let mut done = 0_u64;
    for n in 0..CALLS {
        let number = n % u32::from(count);
        let (eo, queue) = (EoId(number as u8), QueueId(number as u16));
        done = done.saturating_add(u64::from(objects::round(&mut objects, eo, queue)));
    }
    Ok(Rounds { count: CALLS, done })
}

pub fn applied(alloc: Global, count: u8) -> Result<Rounds, NoMemory>
    requires { 1 ≤ count }
{
    let mut groups = EventGroups::build(alloc, &with_event_groups(alloc, count)?)?;
    let mut done = 0_u64;
    for n in 0..CALLS {
        let group = EventGroupId((n % u32::from(count)) as u8);
        done = done.saturating_add(u64::from(egroups::round(&mut groups, group, 2 * n)));
    }
    Ok(Rounds { count: CALLS, done })
}

/// Of so many operations that are pending at a time. A run has no more than 256 operations, so there are many runs.
pub fn acknowledged(alloc: Global, count: u8) -> Result<Rounds, NoMemory>
    requires { 1 ≤ count }
{
    let runs = CALLS / u32::from(MAX_OPERATIONS);
    let rounds = MAX_OPERATIONS / u16::from(count);
    let mut done = 0_u64;
    for _ in 0..runs {
        done = done.saturating_add(run(alloc, count, rounds)?);
    }
    Ok(Rounds {
        count: runs * u32::from(rounds),
        done,
    })
}

/// So many rounds of one run.
fn run(alloc: Global, count: u8, rounds: u16) -> Result<u64, NoMemory> {
    let mut acks = Acks::build(alloc, &graph(alloc, 2, 1, &[])?)?;
    let mut done = 0_u64;
    for _ in 0..rounds {
        done = done.saturating_add(acks::round(&mut acks, count));
    }
    Ok(done)
}
