//! The objects, the operations and the queue groups of a history, together.
ghost use Rattle.std.specs.Prelude.{◌≡◌, ℕ, ◌<◌, ◌≤◌, ◌∷◌, [], length, None, Some, IfOk, MatchResult};
ghost use Rattle.em_log.specs.Bounds.{core_limit};
ghost use Rattle.em_log.specs.Declarations.{declarations_of};
ghost use Rattle.em_log.specs.History.{Past, entry_by};
ghost use Rattle.em_log.specs.Lawful.{AllAllowed};
ghost use Rattle.em_log.specs.Leads.{closed_fault, refusal};
ghost use Rattle.em_log.specs.declared.declarations.Declarations.{Declarations as TheDeclarations};
ghost use Rattle.em_log.specs.declared.ids.Limits.{Limits as TheLimits};
ghost use Rattle.em_queues.specs.Sets.{contains};
ghost use Rattle.em_operations.specs.Operations.{OperationsStand, HasQueue, HasCore, IsRoomy, may_take, flag_entry, flag_ask};

use crate::begun::BegunOperation;
use crate::queue_sets::QueueSets;
use em_acks::Acks;
use em_groups::Groups;
use em_log::{Config, CoreId, Declarations, Fault, MAX_OPERATIONS, NoMemory, QueueId};
use em_objects::Objects;
use em_queues::QueueSet;
use std::alloc::Global;

/// How many cores there are; the states of objects and the flags of queues, the masks of queue groups, what each core owes to operations that are not
/// done, all operations as they began, and which queues a core may take from.
#[derive(Drop)]
pub struct Operations {
    pub cores: u8,
    pub objects: Objects,
    pub groups: Groups,
    pub acks: Acks,
    pub begun: Vec<BegunOperation>,
    pub queues: QueueSets,
}

/// No operation, with room for all of a run. Err is want of memory.
fn none_begun(alloc: Global) -> Result<Vec<BegunOperation>, NoMemory>
    ensures { IfOk result IsRoomy }
{
    let mut begun = Vec::new(alloc);
    if begun.reserve(usize::from(MAX_OPERATIONS)).is_err() {
        return Err(NoMemory);
    }
    Ok(begun)
}

impl Operations {
    /// All is as declared, and no operation has begun. Err is want of memory.
    pub fn build(
        alloc: Global,
        config: &Config,
        declarations: &Declarations,
    ) -> Result<Operations, NoMemory>
        requires declarations { declarations.now ≡ declarations_of config.now }
        requires cores { declarations.now.cores ≤ core_limit }
        requires queues { length declarations.now.queues ≤ 256 }
        ensures { IfOk result (λ v. OperationsStand declarations.now v []) }
    {
        Ok(Operations {
            cores: declarations.cores,
            objects: Objects::build(alloc, config)?,
            groups: Groups::build(alloc, config)?,
            acks: Acks::build(alloc, config)?,
            begun: none_begun(alloc)?,
            queues: QueueSets::build(alloc, declarations)?,
        })
    }

    /// Why the queue takes no events, if it is closed.
    pub fn closed_fault(&self, queue: QueueId) -> Option<Fault>
        requires { HasQueue self.now queue.0 }
        ensures { (k : TheDeclarations) (past : Past) → OperationsStand k self.now past → result ≡ closed_fault k past queue.0 }
    {
        self.objects.accepts(queue).err()
    }

    /// The queues that the core may take from: their object runs, they are enabled, and the mask in force of their group has
    /// the core.
    pub fn may_take(&self, core: CoreId) -> QueueSet
        requires { HasCore self.now core.0 }
        ensures { (k : TheDeclarations) (l : TheLimits) (past : Past) → AllAllowed k l past → OperationsStand k self.now past → (q : ℕ) → contains result q ≡ may_take k past core.0 q }
    {
        self.queues.allowed(core)
    }

    /// Enables or disables the queue; one that is disabled delivers nothing, and takes no events while its object starts or
    /// runs. Refused where no core takes from it: it is unscheduled or an output.
    pub fn flag(&mut self, queue: QueueId, on: bool) -> Result<(), Fault>
        requires { HasQueue self.old queue.0 }
        ensures answer { (k : TheDeclarations) (past : Past) (c : ℕ) → OperationsStand k self.old past → MatchResult result (λ _. refusal k past c (flag_ask queue on) ≡ None) (λ f. refusal k past c (flag_ask queue on) ≡ Some f) }
        ensures stands { (k : TheDeclarations) (past : Past) (c : ℕ) → OperationsStand k self.old past → MatchResult result (λ _. OperationsStand k self.new (entry_by c (flag_entry queue on) ∷ past)) (λ _. OperationsStand k self.new past) }
    {
        self.objects.flag(queue, on)?;
        self.queues.flag(queue, on);
        Ok(())
    }
}
