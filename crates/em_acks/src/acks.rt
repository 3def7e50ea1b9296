//! The operations of a run.
ghost use Rattle.std.specs.Prelude.{◌≡◌, ◌<◌, ◌≤◌, [], ◌∷◌, List, Some, None, IfOk, IfSome, IsSome, MatchResult};
ghost use Rattle.std.specs.Option.{option_map};
ghost use Rattle.em_log.specs.Operations.{op_id};
ghost use Rattle.em_log.specs.Bounds.{core_limit, operation_limit};
ghost use Rattle.em_acks.specs.Steps.{AckStep, Began, GlobalEnded, Acknowledged};
ghost use Rattle.em_acks.specs.Operations.{operations, pending, begin_fault, step, left_after};
ghost use Rattle.em_acks.specs.State.{core_count, owed_at, find_op, first_owed_in, first_at, refusal_at};
ghost use Rattle.em_acks.specs.Stands.{Stands};
ghost use Rattle.em_acks.specs.Changes.{begun_by, ended_by, acked_by, left_at};

use crate::job::{Job, Left, Phase, Target};
use crate::owed::{mark, none_owed};
use crate::pending::PendingOperations;
use crate::sets::OperationSet;
use crate::unfinished::{Owing, Unfinished, is_owed, left_by, with_owing};
use em_log::{Config, CoreId, Fault, MAX_OPERATIONS, NoMemory, OpId};
use std::alloc::Global;
use std::marker::Model;

#[cfg(test)]
mod tests;

/// The operations that have begun, each in the place of its number as long as it is not done; and beside them, so that no call
/// looks through them, the operations to which each core owes a step, and the one of each target that is not done.
#[derive(Drop)]
pub struct Acks {
    cores: u8,
    begun: Vec<Option<Unfinished>>,
    owed: Vec<OperationSet>,
    pending: PendingOperations,
}

impl Model for Acks {
    ghost use Rattle.std.specs.Prelude.{length, vec_capacity};
    ghost use Rattle.em_acks.specs.State.{AckState, state_code};
    ghost use Rattle.em_acks.specs.Slots.{unfinished_in};
    ghost use Rattle.em_acks.specs.Whole.{IsWhole};

    ghost Value = { AckState };

    ghost coded = { state_code };

    ghost view = { λ a. record { cores = a.cores; begun = length a.begun.items; unfinished = unfinished_in a.begun.items } };

    ghost invariant = { λ a. IsWhole a.cores a.begun.items a.owed.items a.pending (vec_capacity a.begun) };
}

impl Acks {
    /// No operation has begun, and there is room for all of a run. Err is want of memory.
    pub fn build(alloc: Global, config: &Config) -> Result<Acks, NoMemory>
        requires { config.now.cores ≤ core_limit }
        ensures shape { IfOk result (λ a. core_count a ≡ config.now.cores) }
        ensures stands { IfOk result (λ a. Stands a []) }
    {
        let mut begun = Vec::new(alloc);
        if begun.reserve(usize::from(MAX_OPERATIONS)).is_err() {
            return Err(NoMemory);
        }
        Ok(Acks {
            cores: config.cores,
            begun,
            owed: none_owed(alloc, config.cores)?,
            pending: PendingOperations::build(alloc)?,
        })
    }

    /// The operation of this target that is not done, if there is one.
    pub fn pending(&self, target: Target) -> Option<OpId>
        ensures answer { (s : List AckStep) → Stands self.now s → result ≡ option_map op_id (pending (core_count self.now) s target) }
    {
        self.first_of(target)
    }

    /// Whether an operation of this target may begin. Refused where one is not done, with its number, and then where as many
    /// have begun as may in a run.
    pub fn can_begin(&self, target: Target) -> Result<(), Fault>
        ensures answer { (s : List AckStep) → Stands self.now s → MatchResult result (λ _. begin_fault (core_count self.now) s target ≡ None) (λ f. begin_fault (core_count self.now) s target ≡ Some f) }
    {
        self.check(target)
    }

    /// Begins the next operation, and answers its number. Refused exactly where `can_begin` refuses.
    pub fn begin(&mut self, core: CoreId, job: Job, target: Target) -> Result<OpId, Fault>
        requires { core.0 < core_count self.old }
        ensures answer { (s : List AckStep) → Stands self.old s → MatchResult result (λ op. (begin_fault (core_count self.old) s target ≡ None) × (op.0 ≡ operations s)) (λ f. begin_fault (core_count self.old) s target ≡ Some f) }
        ensures stands { (s : List AckStep) → Stands self.old s → MatchResult result (λ _. Stands self.new (Began core.0 job target ∷ s)) (λ _. Stands self.new s) }
        ensures same_shape { core_count self.new ≡ core_count self.old }
    {
        self.check(target)?;
        Ok(self.open(core, job, target))
    }

    /// The step of the least operation that the core owes, if it owes one.
    pub fn owed(&self, core: CoreId) -> Option<(OpId, Phase)>
        requires { core.0 < core_count self.now }
        ensures answer { (s : List AckStep) → Stands self.now s → result ≡ step (core_count self.now) s core.0 }
        ensures there { (s : List AckStep) → Stands self.now s → IfSome result (λ r. owed_at self.now core.0 r.0.0 ≡ Some r.1) }
    {
        self.first_owed(core)
    }

    /// Ends the global step of an operation, which the core owes. A start that went well is then owed by every core; one
    /// that failed is done, and so is a stop.
    pub fn global(&mut self, core: CoreId, op: OpId, ok: bool)
        requires core { core.0 < core_count self.old }
        requires owed { owed_at self.old core.0 op.0 ≡ Some Phase.Global }
        ensures stands { (s : List AckStep) → Stands self.old s → Stands self.new (GlobalEnded core.0 op.0 ok ∷ s) }
        ensures same_shape { core_count self.new ≡ core_count self.old }
    {
        self.end(op, ok);
    }

    /// Ends the local step of an operation, which the core owes, and tells how many cores still owe theirs.
    pub fn ack(&mut self, core: CoreId, op: OpId) -> Left
        requires core { core.0 < core_count self.old }
        requires owed { owed_at self.old core.0 op.0 ≡ Some Phase.Local }
        ensures answer { (s : List AckStep) → Stands self.old s → result ≡ left_after (core_count self.old) (Acknowledged core.0 op.0 ∷ s) op.0 }
        ensures stands { (s : List AckStep) → Stands self.old s → Stands self.new (Acknowledged core.0 op.0 ∷ s) }
        ensures same_shape { core_count self.new ≡ core_count self.old }
    {
        self.acknowledge(core, op)
    }

    /// The first operation of this target.
    fn first_of(&self, target: Target) -> Option<OpId>
        ensures { result ≡ first_at target self.now.unfinished }
    {
        self.pending.of(target)
    }

    /// Refuses where an operation of this target is not done, and then where as many have begun as may in a run.
    fn check(&self, target: Target) -> Result<(), Fault>
        ensures { MatchResult result (λ _. refusal_at self.now target ≡ None) (λ f. refusal_at self.now target ≡ Some f) }
    {
        if let Some(op) = self.first_of(target) {
            return Err(Fault::OpPending(op));
        }
        if self.begun.len() >= usize::from(MAX_OPERATIONS) {
            return Err(Fault::OpsSpent(MAX_OPERATIONS));
        }
        Ok(())
    }

    /// The step that the core owes to this operation.
    fn owed_to(&self, core: CoreId, op: OpId) -> Option<Phase>
        ensures { result ≡ owed_at self.now core.0 op.0 }
    {
        match self.begun.get(usize::from(op.0)) {
            Some(slot) => match slot {
                Some(operation) => operation.owing.owed(core),
                None => None,
            },
            None => None,
        }
    }

    /// The step that the core owes to the first operation to which it owes one.
    fn first_owed(&self, core: CoreId) -> Option<(OpId, Phase)>
        requires { core.0 < core_count self.now }
        ensures { result ≡ first_owed_in core.0 self.now.unfinished }
    {
        match self.owed[usize::from(core.0)].first() {
            Some(op) => match self.owed_to(core, op) {
                Some(phase) => Some((op, phase)),
                None => None,
            },
            None => None,
        }
    }

    /// Adds the next operation at the end.
    fn open(&mut self, core: CoreId, job: Job, target: Target) -> OpId
        requires core { core.0 < core_count self.old }
        requires free { refusal_at self.old target ≡ None }
        ensures value { self.new ≡ begun_by self.old core.0 job target }
        ensures number { result.0 ≡ self.old.begun }
    {
        let op = OpId(self.begun.len() as u16);
        let operation = Some(Unfinished {
            op,
            job,
            target,
            owing: Owing::at_first(job, core, self.cores),
        });
        mark(&mut self.owed, op, &operation);
        self.pending.put(target, Some(op));
        self.begun.push_reserved(operation);
        op
    }

    /// Ends the global step of this operation.
    fn end(&mut self, op: OpId, ok: bool)
        requires { IsSome (find_op op.0 self.old.unfinished) }
        ensures { self.new ≡ ended_by self.old op.0 ok }
    {
        let place = usize::from(op.0);
        let Some(operation) = self.begun[place].take() else {
            unreachable!()
        };
        let target = operation.target;
        let next = operation.ended(self.cores, ok);
        let after = with_owing(operation, next);
        mark(&mut self.owed, op, &after);
        self.pending.release(target, &after);
        self.begun[place] = after;
    }

    /// Ends the local step of this operation for one core.
    fn acknowledge(&mut self, core: CoreId, op: OpId) -> Left
        requires core { core.0 < core_count self.old }
        requires owed { owed_at self.old core.0 op.0 ≡ Some Phase.Local }
        ensures value { self.new ≡ acked_by self.old core.0 op.0 }
        ensures left { result ≡ left_at self.old core.0 op.0 }
    {
        let place = usize::from(op.0);
        let Some(operation) = self.begun[place].take() else {
            unreachable!()
        };
        let target = operation.target;
        let next = operation.acked(core);
        let left = left_by(&next);
        let after = with_owing(operation, next);
        self.owed[usize::from(core.0)].put(op, is_owed(&after, core));
        self.pending.release(target, &after);
        self.begun[place] = after;
        left
    }
}
