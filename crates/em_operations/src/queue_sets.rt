//! The queues of each object and of each queue group, and those that a core may take from.
ghost use Rattle.std.specs.Prelude.{◌≡◌, ℕ, ◌<◌, ◌≤◌, ◌&&◌, ◌∷◌, [], List, length, IfOk};
ghost use Rattle.em_log.specs.Bounds.{core_limit};
ghost use Rattle.em_log.specs.Eligible.{has_core as has_core_of};
ghost use Rattle.em_log.specs.States.{is_running as is_running_state};
ghost use Rattle.em_log.specs.declared.declarations.Declarations.{Declarations as TheDeclarations};
ghost use Rattle.em_queues.specs.Sets.{contains};
ghost use Rattle.em_objects.specs.Queues.{delivers};
ghost use Rattle.em_objects.specs.Steps.{ObjectStep, Moved, Flagged};
ghost use Rattle.em_groups.specs.Masks.{effective};
ghost use Rattle.em_groups.specs.Steps.{GroupStep};
ghost use Rattle.em_operation_parts.specs.Queues.{in_group, group_of_step};
ghost use Rattle.em_operations.specs.QueueSets.{SetsStand, AreRebarred, put_as};

use crate::numbers::{barred, groups_of, objects_of, running_queues, sets_of};
use bitflags::Flags;
use em_log::{CoreId, CoreMask, Declarations, EoId, EoState, GroupId, NoMemory, QueueId};
use em_queues::QueueSet;
use std::alloc::Global;

/// The queues of each object and of each group; those whose object runs, and those that are disabled; and for each core those
/// of groups whose mask in force lacks it.
#[derive(Drop)]
pub struct QueueSets {
    pub of_object: Vec<QueueSet>,
    pub of_group: Vec<QueueSet>,
    pub running: QueueSet,
    pub disabled: QueueSet,
    pub barred: Vec<QueueSet>,
}

/// Whether the mask has the core.
fn has_core(mask: CoreMask, core: u8) -> bool
    requires { core < core_limit }
    ensures { result ≡ has_core_of mask.0 core }
{
    mask.bits() & (1 << core) != 0
}

/// Whether an object in this state runs.
fn is_running(state: EoState) -> bool
    ensures { result ≡ is_running_state state }
{
    matches!(state, EoState::Running)
}

/// The set, with or without these queues.
fn set_to(set: &QueueSet, queues: &QueueSet, is_in: bool) -> QueueSet
    ensures { (q : ℕ) → contains result q ≡ put_as (contains queues.now q) is_in (contains set.now q) }
{
    if is_in {
        set.union(queues)
    } else {
        set.without(queues)
    }
}

/// Bars the cores that the mask lacks from these queues, and the others not.
fn rebar(barred: &mut Vec<QueueSet>, queues: &QueueSet, mask: CoreMask)
    requires { length barred.old.items ≤ core_limit }
    ensures count { length barred.new.items ≡ length barred.old.items }
    ensures sets { AreRebarred (length barred.old.items) barred.old.items queues.now mask.0 barred.new.items }
{
    let cores = barred.len() as u8;
    for core in 0..cores {
        let place = usize::from(core);
        barred[place] = set_to(&barred[place], queues, !has_core(mask, core));
    }
}

impl QueueSets {
    /// Objects run and groups have their masks as declared, and all queues are enabled. Err is want of memory.
    pub fn build(alloc: Global, declarations: &Declarations) -> Result<QueueSets, NoMemory>
        requires cores { declarations.now.cores ≤ core_limit }
        requires queues { length declarations.now.queues ≤ 256 }
        ensures { IfOk result (λ v. SetsStand declarations.now v [] []) }
    {
        let objects = objects_of(alloc, declarations)?;
        let groups = groups_of(alloc, declarations)?;
        let object_count = declarations.running.as_slice().len();
        let group_count = declarations.groups.as_slice().len() + 1;
        Ok(QueueSets {
            of_object: sets_of(alloc, objects.as_slice(), object_count)?,
            of_group: sets_of(alloc, groups.as_slice(), group_count)?,
            running: running_queues(declarations.running.as_slice(), objects.as_slice()),
            disabled: QueueSet::none(),
            barred: barred(alloc, declarations, groups.as_slice())?,
        })
    }

    /// The queues that the core may take from: they deliver, and the mask in force of their group has the core.
    pub fn allowed(&self, core: CoreId) -> QueueSet
        requires { core.0 < length self.now.barred.items }
        ensures { (k : TheDeclarations) (objects : List ObjectStep) (groups : List GroupStep) → SetsStand k self.now objects groups → (q : ℕ) → contains result q ≡ (delivers k objects q && in_group k groups core.0 q) }
    {
        self.running
            .without(&self.disabled)
            .without(&self.barred[usize::from(core.0)])
    }

    /// The object comes to this state.
    pub fn move_to(&mut self, eo: EoId, to: EoState)
        requires { eo.0 < length self.old.of_object.items }
        ensures { (k : TheDeclarations) (objects : List ObjectStep) (groups : List GroupStep) → SetsStand k self.old objects groups → SetsStand k self.new (Moved eo.0 to ∷ objects) groups }
    {
        let queues = &self.of_object[usize::from(eo.0)];
        self.running = set_to(&self.running, queues, is_running(to));
    }

    /// The queue is enabled or disabled.
    pub fn flag(&mut self, queue: QueueId, on: bool)
        requires { queue.0 < 256 }
        ensures { (k : TheDeclarations) (objects : List ObjectStep) (groups : List GroupStep) → SetsStand k self.old objects groups → SetsStand k self.new (Flagged queue.0 on ∷ objects) groups }
    {
        if on {
            self.disabled.remove(queue);
        } else {
            self.disabled.add(queue);
        }
    }

    /// The group comes to this mask in force.
    pub fn mask(&mut self, group: GroupId, mask: CoreMask)
        requires group { group.0 < length self.old.of_group.items }
        requires cores { length self.old.barred.items ≤ core_limit }
        ensures { (k : TheDeclarations) (objects : List ObjectStep) (groups : List GroupStep) (s : GroupStep) → SetsStand k self.old objects groups → group_of_step s ≡ group.0 → mask.0 ≡ effective k (s ∷ groups) group.0 → SetsStand k self.new objects (s ∷ groups) }
    {
        let queues = self.of_group[usize::from(group.0)];
        rebar(&mut self.barred, &queues, mask);
    }
}
