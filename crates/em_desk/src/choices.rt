//! Which queues a core may take from, as the graph is declared, and whether something waits there.
ghost use Rattle.std.specs.Prelude.{◌≡◌, ℕ, ◌<◌, ◌≤◌, length, IfOk};
ghost use Rattle.em_log.specs.Bounds.{core_limit};
ghost use Rattle.em_log.specs.Declarations.{group_in, declared_mask, all_cores as all_cores_of};
ghost use Rattle.em_log.specs.Eligible.{has_core as has_core_of};
ghost use Rattle.std.specs.Option.{option_map};
ghost use Rattle.em_queues.specs.Sets.{contains};
ghost use Rattle.em_queues.specs.State.{shape};
ghost use Rattle.em_desk.specs.Choices.{is_allowed, runs_in, has_core_in, AreAllowed, IsAnyReady};

use bitflags::Flags;
use em_log::{CoreId, Declarations, EoId, GroupId, NoMemory, QueueId, QueueShape};
use em_queues::{Allowed, QueueSet, Queues};
use std::alloc::Global;

/// The mask of the cores below this number.
fn all_cores(cores: u8) -> u64
    requires { cores ≤ core_limit }
    ensures { result ≡ all_cores_of cores }
{
    let mut mask = 0;
    for _ in 0..cores {
        mask = 1 + 2 * mask;
    }
    mask
}

/// The mask that a queue group is declared with.
fn mask_of(declarations: &Declarations, group: GroupId) -> u64
    requires { declarations.now.cores ≤ core_limit }
    ensures { result ≡ declared_mask declarations.now group.0 }
{
    if group.0 == 0 {
        return all_cores(declarations.cores);
    }
    match declarations.groups.as_slice().get(usize::from(group.0 - 1)) {
        Some(mask) => mask.bits(),
        None => 0,
    }
}

/// The queue group of a queue: its own, or that of its atomic group.
fn group_of(declarations: &Declarations, shape: &QueueShape) -> Option<GroupId>
    ensures { option_map (λ g. g.0) result ≡ group_in declarations.now shape.now }
{
    match shape.agroup {
        Some(agroup) => declarations
            .agroups
            .as_slice()
            .get(usize::from(agroup))
            .copied(),
        None => shape.group,
    }
}

/// Whether the queue's object runs.
fn runs(declarations: &Declarations, shape: &QueueShape) -> bool
    ensures { result ≡ runs_in declarations.now shape.now }
{
    match shape.eo {
        Some(EoId(eo)) => match declarations.running.as_slice().get(usize::from(eo)) {
            Some(running) => *running,
            None => false,
        },
        None => false,
    }
}

/// Whether the core is in the mask of the queue's group.
fn has_core(declarations: &Declarations, core: CoreId, shape: &QueueShape) -> bool
    requires cores { declarations.now.cores ≤ core_limit }
    requires core { core.0 < declarations.now.cores }
    ensures { result ≡ has_core_in declarations.now core.0 shape.now }
{
    match group_of(declarations, shape) {
        Some(group) => mask_of(declarations, group) & (1 << core.0) != 0,
        None => true,
    }
}

/// The queues that the core may take from.
fn allowed_for(declarations: &Declarations, core: CoreId) -> Allowed
    requires cores { declarations.now.cores ≤ core_limit }
    requires queues { length declarations.now.queues ≤ 256 }
    requires core { core.0 < declarations.now.cores }
    ensures { (q : ℕ) → contains result q ≡ is_allowed declarations.now core.0 q }
{
    let mut set = Allowed::none();
    let mut number: u16 = 0;
    for shape in declarations.queues.as_slice() {
        if runs(declarations, shape) && has_core(declarations, core, shape) {
            set.add(QueueId(number));
        }
        number += 1;
    }
    set
}

/// The queues that each core may take from. Err is want of memory.
pub fn allowed(alloc: Global, declarations: &Declarations) -> Result<Vec<Allowed>, NoMemory>
    requires cores { declarations.now.cores ≤ core_limit }
    requires queues { length declarations.now.queues ≤ 256 }
    ensures count { IfOk result (λ v. length v.items ≡ declarations.now.cores) }
    ensures allowed { IfOk result (λ v. AreAllowed declarations.now v.items) }
{
    let mut sets = Vec::new(alloc);
    for core in 0..declarations.cores {
        if sets.push(allowed_for(declarations, CoreId(core))).is_err() {
            return Err(NoMemory);
        }
    }
    Ok(sets)
}

/// Whether something waits for some core in a queue that it may take from, and whose atomic context nobody holds.
pub fn any_ready(queues: &Queues, allowed: &[Allowed], held: &QueueSet) -> bool
    requires cores { length allowed.now ≤ (shape queues.now).cores }
    requires few { length allowed.now ≤ core_limit }
    ensures { IsAnyReady result queues.now allowed.now held.now }
{
    let mut core: u8 = 0;
    for may in allowed {
        if queues.best(CoreId(core), &may.without(held)).is_some() {
            return true;
        }
        core += 1;
    }
    false
}
