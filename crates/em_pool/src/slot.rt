//! What the pools keep of one event.
ghost use Rattle.std.specs.Prelude.{◌≡◌, ◌<◌, ◌^◌, IfOk, replicate, map, count_by, length};
ghost use Rattle.em_log.specs.History.{handle_of};
ghost use Rattle.em_pool.specs.State.{fresh, rule_by, is_held_by, is_slot_held_by};
ghost use Rattle.em_pool.specs.Changes.{lost_now, lost_slot};

use crate::place::{Place, Spent};
use em_log::{CoreId, Fault, Handle, NoMemory, Words};
use std::alloc::Global;

/// An event: how often a handle of its index was minted, its kind and words, where it is, and how its last handle was
/// spent, if it was.
#[derive(Debug, Drop)]
pub struct Slot {
    pub generation: u32,
    pub kind: u32,
    pub words: Words,
    pub place: Place,
    pub spent: Option<Spent>,
}

/// Events of which no handle was minted.
pub fn fresh_slots(alloc: Global, count: u16) -> Result<Vec<Slot>, NoMemory>
    ensures { IfOk result (λ slots. slots.items ≡ replicate count fresh) }
{
    let mut slots = Vec::new(alloc);
    if slots.reserve(usize::from(count)).is_err() {
        return Err(NoMemory);
    }
    for _ in 0..count {
        slots.push_reserved(Slot {
            generation: 0,
            kind: 0,
            words: Words::new(),
            place: Place::Free,
            spent: None,
        });
    }
    Ok(slots)
}

/// The handle of this generation of an index.
pub fn handle(generation: u32, index: u16) -> Handle
    ensures { result.0 ≡ handle_of generation index }
{
    Handle(u64::from(generation) * 65536 + u64::from(index))
}

/// Why a core may not use a minted handle, whose event is at this place if it is the last of its index, and which was
/// spent like this, if it was.
pub fn refusal_by(core: CoreId, place: Place, spent: Option<Spent>) -> Option<Fault>
    ensures { result ≡ rule_by core.0 place spent }
{
    match (spent, place) {
        (Some(spent), _) if spent.freed => Some(Fault::SpentByFree(spent.place)),
        (Some(spent), _) => Some(Fault::SpentBySend(spent.place)),
        (None, Place::Held(holder)) if holder.0 != core.0 => Some(Fault::HeldElsewhere(holder)),
        _ => None,
    }
}

fn is_held(place: Place, core: CoreId) -> bool
    ensures { result ≡ is_held_by core.0 place }
{
    match place {
        Place::Held(holder) => holder.0 == core.0,
        _ => false,
    }
}

/// Loses the event.
pub fn lose(slot: &mut Slot, place: u64)
    ensures { slot.new ≡ lost_now place slot.old }
{
    slot.place = Place::Lost;
    slot.spent = Some(Spent { freed: true, place });
}

/// Loses all events that the core holds, found by a look at each event, and answers how many.
pub fn lose_all(slots: &mut [Slot], core: CoreId, place: u64) -> u32
    requires { length slots.old < 2 ^ 32 }
    ensures slots { slots.new ≡ map (lost_slot core.0 place) slots.old }
    ensures count { result ≡ count_by (is_slot_held_by core.0) slots.old }
{
    let mut lost = 0;
    for slot in slots.iter_mut() {
        if is_held(slot.place, core) {
            lose(slot, place);
            lost += 1;
        }
    }
    lost
}
