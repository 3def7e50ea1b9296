//! What a reader checks of the history of such a run.
ghost use Rattle.std.specs.Prelude.{◌≡◌};

use em_log::{Call, Entry, Fault, NoMemory, What};
use std::alloc::Global;

/// A handle of the next generation has this much more.
const GENERATION: u64 = 65_536;

/// Whether the entries of this core are contexts, one after the other, each begun by an enter or by a take with its start.
fn has_contexts(log: &[Entry], core: u8) -> bool {
    let mut open = false;
    let mut taken = false;
    for entry in log {
        if entry.core.0 != core {
            continue;
        }
        let (may, now, takes) = match entry.what {
            What::Enter(_) => (!open && !taken, true, false),
            What::Take { .. } => (!open && !taken, false, true),
            What::Start { .. } => (!open && taken, true, false),
            What::End { .. } => (open, false, false),
            _ => (open, true, false),
        };
        if !may {
            return false;
        }
        open = now;
        taken = takes;
    }
    !taken
}

/// Whether each start directly follows its core's take.
fn starts_follow(log: &[Entry]) -> bool {
    let mut taker = None;
    for entry in log {
        let starts = matches!(&entry.what, What::Start { .. });
        if starts != (taker == Some(entry.core.0)) {
            return false;
        }
        taker = if matches!(&entry.what, What::Take { .. }) {
            Some(entry.core.0)
        } else {
            None
        };
    }
    true
}

/// The handles that were sent, in order. Err is want of memory.
fn sent(alloc: Global, log: &[Entry]) -> Result<Vec<u64>, NoMemory> {
    let mut handles = Vec::new(alloc);
    for entry in log {
        if let What::Send { handle, .. } = &entry.what {
            if handles.push(handle.0).is_err() {
                return Err(NoMemory);
            }
        }
    }
    Ok(handles)
}

/// Whether none of these stands twice.
fn are_different(handles: &[u64]) -> bool {
    for (place, handle) in handles.iter().enumerate() {
        if handles[..place].contains(handle) {
            return false;
        }
    }
    true
}

/// Whether the events were received in the order in which they were sent, each with its next handle.
fn come_in_order(log: &[Entry], handles: &[u64]) -> bool {
    let mut waiting = handles.iter();
    for entry in log {
        if let What::Start { event, .. } = &entry.what {
            let next = waiting.next().map(|handle| handle.wrapping_add(GENERATION));
            if next != Some(event.handle.0) {
                return false;
            }
        }
    }
    true
}

/// Whether each fault is that of a free, and names the place of the free of the same core that spent the handle.
fn faults_are_true(log: &[Entry]) -> bool {
    for entry in log {
        if let What::Fault { call, fault, .. } = &entry.what {
            let place = match (call, fault) {
                (Call::Free, Fault::SpentByFree(place)) => *place,
                _ => return false,
            };
            let spent = usize::try_from(place).ok().and_then(|place| log.get(place));
            match spent {
                Some(free) if free.core.0 == entry.core.0 && matches!(&free.what, What::Free(_)) =>
                    {}
                _ => return false,
            }
        }
    }
    true
}

/// Whether the history is one that a run of the cores of this crate can have. Err is want of memory.
pub fn keeps_laws(alloc: Global, log: &[Entry]) -> Result<bool, NoMemory> {
    let handles = sent(alloc, log)?;
    let contexts = (0..8_u8).all(|core| has_contexts(log, core));
    Ok(
        contexts
            && starts_follow(log)
            && are_different(handles.as_slice())
            && come_in_order(log, handles.as_slice())
            && faults_are_true(log),
    )
}

/// How many receives there were.
pub fn receives(log: &[Entry]) -> usize {
    log.iter()
        .filter(|entry| matches!(&entry.what, What::Start { .. }))
        .count()
}
