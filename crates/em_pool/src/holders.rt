//! Which events each core holds: a set of their indices for each core of the graph, so that an end looks at no other event.
ghost use Rattle.std.specs.Prelude.{◌≡◌, ◌<◌, ◌≤◌, ◌^◌, [], false, length, map, count_by, replicate, slice_index_or, IfOk};
ghost use Rattle.em_pool.specs.State.{is_slot_held_by};
ghost use Rattle.em_pool.specs.Changes.{lost_slot};
ghost use Rattle.em_pool.specs.Whole.{put_held as held_after_put};

use crate::indices::IndexSet;
use crate::slot::{Slot, lose};
use em_log::{CoreId, NoMemory};
use std::alloc::Global;

/// An empty set for each of so many cores.
pub fn nothing_held(alloc: Global, cores: u8, events: u16) -> Result<Vec<IndexSet>, NoMemory>
    requires { events ≤ 4096 }
    ensures { IfOk result (λ held. held.items ≡ replicate cores (replicate events false)) }
{
    let mut held = Vec::new(alloc);
    if held.reserve(usize::from(cores)).is_err() {
        return Err(NoMemory);
    }
    for _ in 0..cores {
        held.push_reserved(IndexSet::empty(alloc, events)?);
    }
    Ok(held)
}

/// Puts the event into the core's set, or takes it out, where the core has one.
pub fn put_held(held: &mut Vec<IndexSet>, core: CoreId, index: u16, is_in: bool)
    requires { core.0 < length held.old.items → index < length (slice_index_or held.old.items core.0 []) }
    ensures { held.new.items ≡ held_after_put core.0 index is_in held.old.items }
{
    let number = usize::from(core.0);
    if number < held.len() {
        held[number].put(index, is_in);
    }
}

/// Loses the events of the core's set, and answers how many.
pub fn lose_held(slots: &mut [Slot], held: &mut IndexSet, core: CoreId, place: u64) -> u32
    requires few { length slots.old < 2 ^ 32 }
    requires held { held.old ≡ map (is_slot_held_by core.0) slots.old }
    ensures slots { slots.new ≡ map (lost_slot core.0 place) slots.old }
    ensures held { held.new ≡ map (is_slot_held_by core.0) slots.new }
    ensures count { result ≡ count_by (is_slot_held_by core.0) slots.old }
{
    let mut lost = 0;
    'events: while let Some(index) = held.first_from(0) {
        lose(&mut slots[usize::from(index)], place);
        held.put(index, false);
        lost += 1;
    }
    lost
}
