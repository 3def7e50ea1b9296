//! Operations that begin, and why they may not.
ghost use Rattle.std.specs.Prelude.{◌≡◌, ◌==◌, ◌^◌, ◌≤◌, ◌<◌, ◌∷◌, [], ◌++◌, ◌||◌, nat_le, List, Some, None, if◌then◌else◌};
ghost use Rattle.std.specs.Option.{option_or};
ghost use Rattle.em_log.specs.Bounds.{core_limit};
ghost use Rattle.em_log.specs.History.{Past, entry_by};
ghost use Rattle.em_log.specs.Lawful.{Lawful};
ghost use Rattle.em_log.specs.Leads.{operations_fault, pending_fault, unless_created as unless_created_state, unless_running as unless_running_state};
ghost use Rattle.em_log.specs.Operations.{Operation, operations, op_id};
ghost use Rattle.em_log.specs.declared.declarations.Declarations.{Declarations as TheDeclarations};
ghost use Rattle.em_log.specs.declared.entry.What.{What as TheWhat};
ghost use Rattle.em_log.specs.declared.fault.Fault.{Fault as TheFault};
ghost use Rattle.em_log.specs.declared.ids.Limits.{Limits as TheLimits};
ghost use Rattle.em_acks.specs.Operations as part;
ghost use Rattle.em_acks.specs.Steps.{AckStep, Began};
ghost use Rattle.em_groups.specs.Steps.{GroupStep};
ghost use Rattle.em_objects.specs.Steps.{ObjectStep};
ghost use Rattle.em_operation_parts.specs.AckSteps.{aims_at, job_of as job_of_begun, target_of as target_of_begun};
ghost use Rattle.em_operations.specs.Operations.{OperationsStand, StepsStand, CanBegin, CanOpen, begin_fault_of, own_fault as own_fault_of};

use crate::begun::{BegunOperation, job_of, target_of};
use crate::operations::Operations;
use em_acks::Target;
use em_log::{Begun, CoreId, EoState, Fault, Notes, OpId, mask_of};

/// Why an object in this state may not start, if it may not.
fn unless_created(state: EoState) -> Option<Fault>
    ensures { result ≡ unless_created_state state }
{
    match state {
        EoState::Created => None,
        state => Some(Fault::EoState(state)),
    }
}

/// Why an object in this state may not stop, if it may not.
fn unless_running(state: EoState) -> Option<Fault>
    ensures { result ≡ unless_running_state state }
{
    match state {
        EoState::Running => None,
        state => Some(Fault::EoState(state)),
    }
}

/// Why a group may not be given this mask, if it may not: it names no core, or one that is not there.
fn mask_fault(mask: u64, cores: u8) -> Option<Fault>
    requires { cores ≤ core_limit }
    ensures { result ≡ (if (mask == 0) || nat_le (2 ^ cores) mask then Some (TheFault.BadMask mask) else None) }
{
    match mask_of(mask, cores) {
        None => Some(Fault::BadMask(mask)),
        Some(_) => None,
    }
}

impl Operations {
    /// Why an operation may not begin, but for its notes, if it may not: one of the same target is not done; its object is in
    /// another state, or its mask names no core or one that is not there; or as many have begun as may in a run.
    pub fn begin_fault(&self, job: Begun) -> Option<Fault>
        requires { self.now.cores ≤ core_limit }
        ensures { (k : TheDeclarations) (l : TheLimits) (past : Past) → Lawful k l past → OperationsStand k self.now past → result ≡ begin_fault_of k past job }
    {
        self.target_fault(target_of(job), self.own_fault(job))
    }

    /// Why an operation may not begin for its own reason, if it may not.
    fn own_fault(&self, job: Begun) -> Option<Fault>
        requires { self.now.cores ≤ core_limit }
        ensures { (k : TheDeclarations) (past : Past) → OperationsStand k self.now past → result ≡ own_fault_of k past job }
    {
        match job {
            Begun::Start(eo) => unless_created(self.objects.state(eo)),
            Begun::Stop(eo) => unless_running(self.objects.state(eo)),
            Begun::Modify(_, mask) => mask_fault(mask, self.cores),
        }
    }

    /// Why no operation of this target may begin, if none may, or one may not for its own reason.
    fn target_fault(&self, target: Target, own: Option<Fault>) -> Option<Fault>
        ensures { (k : TheDeclarations) (l : TheLimits) (past : Past) → Lawful k l past → OperationsStand k self.now past → result ≡ option_or (pending_fault past (aims_at target)) (option_or own (operations_fault past)) }
    {
        if let Some(op) = self.acks.pending(target) {
            return Some(Fault::OpPending(op));
        }
        match own {
            Some(fault) => Some(fault),
            None => self.acks.can_begin(target).err(),
        }
    }

    /// Begins the next operation, and answers its number.
    pub fn begin(&mut self, core: CoreId, job: Begun, notes: Notes) -> OpId
        requires { CanBegin self.old core.0 job }
        ensures number { (k : TheDeclarations) (past : Past) → OperationsStand k self.old past → result ≡ op_id (operations past) }
        ensures stands { (k : TheDeclarations) (past : Past) → OperationsStand k self.old past → OperationsStand k self.new (entry_by core.0 (TheWhat.Begin result job notes) ∷ past) }
    {
        self.begin_target(job);
        self.open(core, job, notes)
    }

    /// Writes the next operation down, and answers its number.
    fn open(&mut self, core: CoreId, job: Begun, notes: Notes) -> OpId
        requires { CanOpen self.old core.0 job }
        ensures number { (k : TheDeclarations) (o : List ObjectStep) (g : List GroupStep) (a : List AckStep) (b : List Operation) → StepsStand k self.old o g a b → result.0 ≡ part.operations a }
        ensures stands { (k : TheDeclarations) (o : List ObjectStep) (g : List GroupStep) (a : List AckStep) (b : List Operation) → StepsStand k self.old o g a b → StepsStand k self.new o g (Began core.0 (job_of_begun job) (target_of_begun job) ∷ a) (b ++ record { core = core.0; job = job; notes = notes } ∷ []) }
    {
        match self.acks.begin(core, job_of(job), target_of(job)) {
            Ok(op) => {
                self.begun
                    .push_reserved(BegunOperation { core, job, notes });
                op
            }
            Err(_) => OpId(0),
        }
    }
}
