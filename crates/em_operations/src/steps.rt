//! The steps that cores owe to operations, and how operations end.
ghost use Rattle.std.specs.Prelude.{◌≡◌, ℕ, ◌∷◌, ◌==◌, is_some};
ghost use Rattle.std.specs.Option.{option_map};
ghost use Rattle.em_log.specs.History.{Past, entry_by};
ghost use Rattle.em_log.specs.Lawful.{AllAllowed, Lawful};
ghost use Rattle.em_log.specs.Operations.{operation, notes_of, all_acked, all_done, step};
ghost use Rattle.em_log.specs.declared.declarations.Declarations.{Declarations as TheDeclarations};
ghost use Rattle.em_log.specs.declared.entry.What.{What as TheWhat};
ghost use Rattle.em_log.specs.declared.ids.Limits.{Limits as TheLimits};
ghost use Rattle.em_acks.specs.declared.job.Phase.{Phase as ThePhase};
ghost use Rattle.em_operations.specs.Operations.{OperationsStand, IsOfHistory, HasCore, CanEnd, CanFinish, owed_entry};

use crate::begun::{Owed, owed_of};
use crate::operations::Operations;
use em_acks::Left;
use em_log::{Begun, CoreId, Notes, OpId};

impl Operations {
    /// Whether the core owes a step.
    pub fn owes(&self, core: CoreId) -> bool
        requires { HasCore self.now core.0 }
        ensures { (k : TheDeclarations) (l : TheLimits) (past : Past) → AllAllowed k l past → OperationsStand k self.now past → result ≡ is_some (step k past core.0) }
    {
        self.acks.owed(core).is_some()
    }

    /// Whether each operation that has begun is done: no core owes a step.
    pub fn are_done(&self) -> bool
        requires { IsOfHistory self.now }
        ensures { (k : TheDeclarations) (l : TheLimits) (past : Past) → Lawful k l past → OperationsStand k self.now past → result ≡ all_done past }
    {
        for core in 0..self.cores {
            if self.owes(CoreId(core)) {
                return false;
            }
        }
        true
    }

    /// The step of the least operation that the core owes, if it owes one.
    pub fn owed(&self, core: CoreId) -> Option<Owed>
        requires { HasCore self.now core.0 }
        ensures { (k : TheDeclarations) (l : TheLimits) (past : Past) → AllAllowed k l past → OperationsStand k self.now past → option_map owed_entry result ≡ step k past core.0 }
    {
        let Some((op, phase)) = self.acks.owed(core) else {
            return None;
        };
        match self.job(op) {
            Some(job) => Some(owed_of(op, job, phase)),
            None => None,
        }
    }

    /// What the operation of this number is to do, if it has begun.
    pub fn job(&self, op: OpId) -> Option<Begun>
        ensures { (k : TheDeclarations) (l : TheLimits) (past : Past) → AllAllowed k l past → OperationsStand k self.now past → result ≡ option_map (λ o. o.job) (operation past op.0) }
    {
        match self.begun.as_slice().get(usize::from(op.0)) {
            Some(begun) => Some(begun.job),
            None => None,
        }
    }

    /// The notes of the operation of this number; none where it has not begun.
    pub fn notes(&self, op: OpId) -> Notes
        ensures { (k : TheDeclarations) (l : TheLimits) (past : Past) → AllAllowed k l past → OperationsStand k self.now past → result ≡ notes_of (operation past op.0) }
    {
        match self.begun.as_slice().get(usize::from(op.0)) {
            Some(begun) => begun.notes.copy(),
            None => Notes::new(),
        }
    }

    /// The core acknowledges an operation, to which it owes its own step. Answers whether every core has then done so.
    pub fn acknowledge(&mut self, core: CoreId, op: OpId) -> bool
        requires { CanEnd self.old core.0 op.0 ThePhase.Local }
        ensures last { (k : TheDeclarations) (past : Past) → OperationsStand k self.old past → result ≡ all_acked k (entry_by core.0 (TheWhat.Ack op) ∷ past) op.0 }
        ensures stands { (k : TheDeclarations) (past : Past) → OperationsStand k self.old past → OperationsStand k self.new (entry_by core.0 (TheWhat.Ack op) ∷ past) }
    {
        matches!(self.acks.ack(core, op), Left::Last)
    }

    /// The core ends the global step of an operation, which it owes, well or not.
    pub fn end_global(&mut self, core: CoreId, op: OpId, ok: bool)
        requires { CanEnd self.old core.0 op.0 ThePhase.Global }
        ensures { (k : TheDeclarations) (past : Past) → OperationsStand k self.old past → OperationsStand k self.new (entry_by core.0 (TheWhat.GlobalDone op ok) ∷ past) }
    {
        self.acks.global(core, op, ok);
    }

    /// The operation is done, or has failed: its object comes to its new state, or its group to its new mask.
    pub fn done(&mut self, op: OpId, ok: bool)
        requires { CanFinish self.old op.0 }
        ensures { (k : TheDeclarations) (l : TheLimits) (past : Past) (c : ℕ) → AllAllowed k l past → OperationsStand k self.old past → OperationsStand k self.new (entry_by c (TheWhat.Done op ok) ∷ past) }
    {
        if let Some(job) = self.job(op) {
            self.end_target(job, ok);
        }
    }
}
