//! The execution objects of a run and the flags of its queues.
ghost use Rattle.std.specs.Prelude.{◌≡◌, ◌<◌, [], ◌∷◌, List, length, None, Some, IfOk, IsTrue, MatchResult};
ghost use Rattle.em_log.specs.Declarations.{declarations_of};
ghost use Rattle.em_log.specs.declared.declarations.Declarations.{Declarations};
ghost use Rattle.em_log.specs.Leads.{kind_refusal};
ghost use Rattle.em_objects.specs.Steps.{ObjectStep, Moved, Flagged};
ghost use Rattle.em_objects.specs.Queues.{is_move, state as state_by_steps, closed_fault, delivers as delivers_by_steps};
ghost use Rattle.em_objects.specs.State.{state_at, closed_at, shape};
ghost use Rattle.em_objects.specs.Stands.{Stands};
ghost use Rattle.em_objects.specs.Changes.{moved_by, flagged_by};

use crate::queue::{QueueFlag, closed_by, enabled_queues, first_states, is_served};
use em_log::{Config, EoId, EoState, Fault, NoMemory, QueueId};
use std::alloc::Global;
use std::marker::Model;

#[cfg(test)]
mod tests;

/// All objects with their states, and all queues with their flags, in the order of declaration.
#[derive(Drop)]
pub struct Objects {
    states: Vec<EoState>,
    queues: Vec<QueueFlag>,
}

impl Model for Objects {
    ghost use Rattle.em_objects.specs.State.{ObjectsState, state_code};

    ghost Value = { ObjectsState };

    ghost coded = { state_code };

    ghost view = { λ a. record { states = a.states.items; queues = a.queues.items } };
}

impl Objects {
    /// Each object is created or running as declared, and all queues are enabled. Err is want of memory.
    pub fn build(alloc: Global, config: &Config) -> Result<Objects, NoMemory>
        ensures shape { IfOk result (λ o. shape o ≡ record { objects = length config.now.eos; queues = length config.now.queues }) }
        ensures stands { IfOk result (λ o. Stands (declarations_of config.now) o []) }
    {
        Ok(Objects {
            states: first_states(alloc, config.eos.as_slice())?,
            queues: enabled_queues(alloc, config.queues.as_slice())?,
        })
    }

    /// The state of the object.
    pub fn state(&self, eo: EoId) -> EoState
        ensures value { result ≡ state_at self.now eo.0 }
        ensures answer { (k : Declarations) (s : List ObjectStep) → Stands k self.now s → result ≡ state_by_steps k s eo.0 }
    {
        self.states
            .get(usize::from(eo.0))
            .copied()
            .unwrap_or(EoState::Created)
    }

    /// Moves the object to a state that may follow its own.
    pub fn set(&mut self, eo: EoId, to: EoState)
        requires eo { eo.0 < (shape self.old).objects }
        requires to { IsTrue (is_move (state_at self.old eo.0) to) }
        ensures stands { (k : Declarations) (s : List ObjectStep) → Stands k self.old s → Stands k self.new (Moved eo.0 to ∷ s) }
        ensures same_shape { shape self.new ≡ shape self.old }
    {
        self.put_state(eo, to);
    }

    /// Enables or disables the queue. Refused where no core takes from it: it is unscheduled or an output.
    pub fn flag(&mut self, queue: QueueId, on: bool) -> Result<(), Fault>
        requires { queue.0 < (shape self.old).queues }
        ensures answer { (k : Declarations) (s : List ObjectStep) → Stands k self.old s → MatchResult result (λ _. kind_refusal k queue.0 ≡ None) (λ f. kind_refusal k queue.0 ≡ Some f) }
        ensures stands { (k : Declarations) (s : List ObjectStep) → Stands k self.old s → MatchResult result (λ _. Stands k self.new (Flagged queue.0 on ∷ s)) (λ _. Stands k self.new s) }
        ensures same_shape { shape self.new ≡ shape self.old }
    {
        let kind = self.queues[usize::from(queue.0)].kind;
        if is_served(kind) {
            self.put_flag(queue, on);
            Ok(())
        } else {
            Err(Fault::WrongKind(kind))
        }
    }

    /// Whether the queue takes events. Refused where it is closed: with 0 where its object is created and 3 where it is
    /// stopping, else with 4 where the queue is disabled.
    pub fn accepts(&self, queue: QueueId) -> Result<(), Fault>
        requires { queue.0 < (shape self.now).queues }
        ensures { (k : Declarations) (s : List ObjectStep) → Stands k self.now s → MatchResult result (λ _. closed_fault k s queue.0 ≡ None) (λ f. closed_fault k s queue.0 ≡ Some f) }
    {
        match self.closed(queue) {
            None => Ok(()),
            Some(why) => Err(Fault::QueueClosed(why)),
        }
    }

    /// Whether the queue delivers events: its object runs, and it is enabled.
    pub fn delivers(&self, queue: QueueId) -> bool
        requires { queue.0 < (shape self.now).queues }
        ensures { (k : Declarations) (s : List ObjectStep) → Stands k self.now s → result ≡ delivers_by_steps k s queue.0 }
    {
        let entry = self.queues[usize::from(queue.0)];
        match entry.eo {
            None => false,
            Some(eo) => matches!(self.state(eo), EoState::Running) && entry.enabled,
        }
    }

    /// Why the queue is closed, if it is.
    fn closed(&self, queue: QueueId) -> Option<u8>
        requires { queue.0 < (shape self.now).queues }
        ensures { result ≡ closed_at self.now queue.0 }
    {
        let entry = self.queues[usize::from(queue.0)];
        match entry.eo {
            Some(eo) if is_served(entry.kind) => closed_by(self.state(eo), entry.enabled),
            _ => None,
        }
    }

    /// Writes the object's state down.
    fn put_state(&mut self, eo: EoId, to: EoState)
        requires { eo.0 < (shape self.old).objects }
        ensures { self.new ≡ moved_by self.old eo.0 to }
    {
        self.states[usize::from(eo.0)] = to;
    }

    /// Writes down whether the queue is enabled.
    fn put_flag(&mut self, queue: QueueId, on: bool)
        requires { queue.0 < (shape self.old).queues }
        ensures { self.new ≡ flagged_by self.old queue.0 on }
    {
        self.queues[usize::from(queue.0)].enabled = on;
    }
}
