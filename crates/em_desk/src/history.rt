//! The history as the desk keeps it, with what its entries have paid for.
ghost use Rattle.std.specs.Prelude.{◌≡◌, ◌+◌, ◌≤◌, ◌==◌, ◌∷◌, [], length, reverse, OnOk, OnErr};
ghost use Rattle.em_log.specs.History.{entry_by};
ghost use Rattle.em_bounds.specs.Paid.{paid, pays as pays_of};

use em_log::{Call, CoreId, Entry, NoMemory, What};
use std::alloc::Global;
use std::marker::Model;

/// The entries, the oldest first, and what they have paid: the number of entries that they may ever cause, themselves
/// included.
#[derive(Drop)]
pub struct History {
    entries: Vec<Entry>,
    paid: usize,
}

impl Model for History {
    ghost use Rattle.em_desk.specs.Histories.{HistoryState, history_state, IsCounted};

    ghost Value = { HistoryState };

    ghost view = { history_state };

    ghost invariant = { IsCounted };
}

/// What an entry pays: for itself, and for those that it may cause later.
fn pays(what: &What) -> usize
    requires { pays_of what.now ≤ 18446744073709551615 }
    ensures { result ≡ pays_of what.now }
{
    match what {
        What::Enter(_) | What::Take { .. } | What::Start { .. } | What::Send { .. } => 2,
        What::Begin { notes, .. } => 3 + notes.as_slice().len(),
        What::Apply { notes, .. } => 2 + notes.as_slice().len(),
        What::Untake { .. } | What::End { .. } | What::Out { .. } => 0,
        What::GlobalDone { .. } | What::Done { .. } | What::Notify { .. } => 0,
        What::Fault {
            call: Call::Note,
            ..
        } => 0,
        _ => 1,
    }
}

impl History {
    /// No entries.
    pub fn new(alloc: Global) -> History
        ensures { result.past ≡ [] }
    {
        History {
            entries: Vec::new(alloc),
            paid: 0,
        }
    }

    /// Makes room for entries that pay so much. Err is want of memory.
    pub fn make_room(&mut self, more: usize) -> Result<(), NoMemory>
        ensures past { self.new.past ≡ self.old.past }
        ensures room { OnOk result (paid self.old.past + more ≤ self.new.capacity) }
        ensures capacity { self.old.capacity ≤ self.new.capacity }
    {
        let Some(wanted) = self.paid.checked_add(more) else {
            return Err(NoMemory);
        };
        let missing = wanted.saturating_sub(self.entries.len());
        match self.entries.reserve(missing) {
            Ok(()) => Ok(()),
            Err(_) => Err(NoMemory),
        }
    }

    /// Adds an entry, for which there is room.
    pub fn push(&mut self, core: CoreId, what: What)
        requires room { length self.old.past + 1 ≤ self.old.capacity }
        requires paid { pays_of what + paid self.old.past ≤ self.old.capacity }
        ensures { self.new ≡ record self.old { past = entry_by core.0 what ∷ self.old.past } }
    {
        self.paid += pays(&what);
        self.entries.push_reserved(Entry { core, what });
    }

    /// The place of the next entry.
    pub fn place(&self) -> u64
        ensures { result ≡ length self.now.past }
    {
        self.entries.len() as u64
    }

    /// Whether there is no entry.
    pub fn is_empty(&self) -> bool
        ensures { result ≡ (length self.now.past == 0) }
    {
        self.entries.is_empty()
    }

    /// The entries, the oldest first.
    pub fn as_slice(&self) -> &[Entry]
        ensures { result.now ≡ reverse self.now.past }
    {
        self.entries.as_slice()
    }
}
