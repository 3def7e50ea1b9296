//! How older handles were spent, found by the handle.
ghost use Rattle.std.specs.Prelude.{◌≡◌, ◌+◌, ◌<◌, ◌≤◌, OnOk};
ghost use Rattle.std.specs.FinMap as map;
ghost use Rattle.em_pool.specs.Changes.{older_by};

use crate::place::Spent;
use em_log::NoMemory;
use std::alloc::Global;
use std::collections::HashMap;
use std::marker::Model;

/// A map from handles to how they were spent, with room for more.
#[derive(Drop)]
pub struct Older {
    spent: HashMap<u64, Spent>,
}

impl Model for Older {
    ghost use Rattle.em_pool.specs.Older.{OlderState, older_state, older_code};

    ghost Value = { OlderState };

    ghost coded = { older_code };

    ghost view = { older_state };
}

impl Older {
    pub fn new(alloc: Global) -> Older
        ensures { result.spent ≡ map.empty }
    {
        Older {
            spent: HashMap::new(alloc),
        }
    }

    /// Makes room for `n` more.
    pub fn reserve(&mut self, n: u32) -> Result<(), NoMemory>
        ensures ok { OnOk result (n ≤ self.new.room) }
        ensures spent { self.new.spent ≡ self.old.spent }
        ensures room { self.old.room ≤ self.new.room }
    {
        match self.spent.reserve(n as usize) {
            Ok(()) => Ok(()),
            Err(_) => Err(NoMemory),
        }
    }

    pub fn get(&self, handle: u64) -> Option<Spent>
        ensures { result ≡ map.get self.now.spent handle }
    {
        self.spent.get(&handle).copied()
    }

    /// Adds a handle that was spent, if it was.
    pub fn keep(&mut self, handle: u64, spent: Option<Spent>)
        requires { 0 < self.old.room }
        ensures spent { self.new.spent ≡ older_by self.old.spent handle spent }
        ensures room { self.old.room ≤ self.new.room + 1 }
    {
        if let Some(spent) = spent {
            self.insert(handle, spent);
        }
    }

    fn insert(&mut self, handle: u64, spent: Spent)
        requires { 0 < self.old.room }
        ensures spent { self.new.spent ≡ map.insert self.old.spent handle spent }
        ensures room { self.old.room ≤ self.new.room + 1 }
    {
        let _ = self.spent.insert(handle, spent);
    }
}
