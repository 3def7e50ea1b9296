//! The atomic contexts of a run.
ghost use Rattle.std.specs.Prelude.{ℕ, ◌≡◌, ◌+◌, ◌<◌, ◌≤◌, ◌↔◌, [], ◌∷◌, List, length, None, Some, IsSome, IfOk, MatchResult};
ghost use Rattle.em_log.specs.Declarations.{declarations_of, lone_count};
ghost use Rattle.em_log.specs.declared.fault.Fault.{Fault};
ghost use Rattle.em_atomic.specs.Steps.{AtomicStep, Grabbed, Given};
ghost use Rattle.em_atomic.specs.Holding.{held as held_by_steps, holder as holder_by_steps, cells as cells_by_steps};
ghost use Rattle.em_atomic.specs.State.{core_number, atomic_number, holder_at, held_at, cells_at, shape};
ghost use Rattle.em_atomic.specs.Stands.{Stands};
ghost use Rattle.em_atomic.specs.Changes.{grabbed_by, given_by};

use crate::context::{AtomicContext, free_contexts, idle_cores, lone_queues};
use em_log::{AtomicId, Cells, Config, CoreId, Fault, NoMemory};
use std::alloc::Global;
use std::marker::Model;

#[cfg(test)]
mod tests;

/// All atomic contexts, first the atomic groups and then the atomic queues outside them, and what each core holds.
#[derive(Drop)]
pub struct Atomics {
    contexts: Vec<AtomicContext>,
    cores: Vec<Option<AtomicId>>,
}

impl Model for Atomics {
    ghost use Rattle.em_atomic.specs.State.{AtomicState, state_code};
    ghost use Rattle.em_atomic.specs.Whole.{IsWhole};

    ghost Value = { AtomicState };

    ghost coded = { state_code };

    ghost view = { λ a. record { contexts = a.contexts.items; cores = a.cores.items } };

    ghost invariant = { λ a. IsWhole a.contexts.items a.cores.items };
}

impl Atomics {
    /// All contexts are free, and their cells are 0. Err is want of memory.
    pub fn build(alloc: Global, config: &Config) -> Result<Atomics, NoMemory>
        ensures shape { IfOk result (λ a. shape a ≡ record { contexts = length config.now.agroups + lone_count (declarations_of config.now).queues; cores = config.now.cores }) }
        ensures stands { IfOk result (λ a. Stands a []) }
    {
        let count = config.agroups.as_slice().len() + lone_queues(config.queues.as_slice());
        Ok(Atomics {
            contexts: free_contexts(alloc, count)?,
            cores: idle_cores(alloc, config.cores)?,
        })
    }

    /// The core that holds the context, if one does. No other core holds it.
    pub fn holder(&self, atomic: AtomicId) -> Option<CoreId>
        requires { atomic.0 < (shape self.now).contexts }
        ensures value { core_number result ≡ holder_at self.now atomic.0 }
        ensures answer { (s : List AtomicStep) → Stands self.now s → core_number result ≡ holder_by_steps s atomic.0 }
        ensures one { (s : List AtomicStep) → Stands self.now s → (c : ℕ) → (core_number result ≡ Some c) ↔ (held_by_steps s c ≡ Some atomic.0) }
    {
        self.contexts[usize::from(atomic.0)].holder
    }

    /// The context that the core holds, if it holds one.
    pub fn held(&self, core: CoreId) -> Option<AtomicId>
        requires { core.0 < (shape self.now).cores }
        ensures value { atomic_number result ≡ held_at self.now core.0 }
        ensures answer { (s : List AtomicStep) → Stands self.now s → atomic_number result ≡ held_by_steps s core.0 }
    {
        self.cores[usize::from(core.0)]
    }

    /// Makes a core that holds no context the holder of a free one, whose cells leave with it.
    pub fn grab(&mut self, atomic: AtomicId, core: CoreId) -> Cells
        requires atomic { atomic.0 < (shape self.old).contexts }
        requires core { core.0 < (shape self.old).cores }
        requires free { holder_at self.old atomic.0 ≡ None }
        requires idle { held_at self.old core.0 ≡ None }
        ensures answer { (s : List AtomicStep) → Stands self.old s → result.0 ≡ cells_by_steps s atomic.0 }
        ensures stands { (s : List AtomicStep) → Stands self.old s → Stands self.new (Grabbed atomic.0 core.0 ∷ s) }
        ensures same_shape { shape self.new ≡ shape self.old }
    {
        self.occupy(atomic, core)
    }

    /// Frees the context that the core holds, which then has these cells. Refused where it holds none.
    pub fn give(&mut self, core: CoreId, cells: Cells) -> Result<(), Fault>
        requires { core.0 < (shape self.old).cores }
        ensures answer { (s : List AtomicStep) → Stands self.old s → MatchResult result (λ _. IsSome (held_by_steps s core.0)) (λ f. (f ≡ Fault.NotAtomic) × (held_by_steps s core.0 ≡ None)) }
        ensures stands { (s : List AtomicStep) → Stands self.old s → MatchResult result (λ _. Stands self.new (Given core.0 cells.0 ∷ s)) (λ _. Stands self.new s) }
        ensures same_shape { shape self.new ≡ shape self.old }
    {
        match self.cores[usize::from(core.0)] {
            None => Err(Fault::NotAtomic),
            Some(atomic) => {
                self.release(atomic, core, cells);
                Ok(())
            }
        }
    }

    /// Writes the core down as the holder, and answers the cells.
    fn occupy(&mut self, atomic: AtomicId, core: CoreId) -> Cells
        requires atomic { atomic.0 < length self.old.contexts }
        requires core { core.0 < length self.old.cores }
        ensures value { self.new ≡ grabbed_by self.old atomic.0 core.0 }
        ensures cells { result.0 ≡ cells_at self.old atomic.0 }
    {
        let context = &mut self.contexts[usize::from(atomic.0)];
        context.holder = Some(core);
        self.cores[usize::from(core.0)] = Some(atomic);
        context.cells
    }

    /// Writes the context down as free, with these cells.
    fn release(&mut self, atomic: AtomicId, core: CoreId, cells: Cells)
        requires atomic { atomic.0 < length self.old.contexts }
        requires core { core.0 < length self.old.cores }
        ensures { self.new ≡ given_by self.old atomic.0 core.0 cells }
    {
        self.contexts[usize::from(atomic.0)] = AtomicContext {
            holder: None,
            cells,
        };
        self.cores[usize::from(core.0)] = None;
    }
}
