//! The object and the queue group of each queue, and sets of queues by these numbers, as the graph is declared.
ghost use Rattle.std.specs.Prelude.{◌≡◌, ℕ, ◌<◌, ◌≤◌, length, map, IfOk};
ghost use Rattle.em_log.specs.Bounds.{core_limit};
ghost use Rattle.em_log.specs.Declarations.{group_in as group_in_shape, declared_mask, all_cores as all_cores_of, is_number};
ghost use Rattle.em_queues.specs.Sets.{contains};
ghost use Rattle.em_operations.specs.QueueSets.{object_in as object_in_shape, number_at, runs_as, bars_as, AreOf, AreDeclaredBarred};

use bitflags::Flags;
use em_log::{CoreId, Declarations, EoId, GroupId, NoMemory, QueueId, QueueShape};
use em_queues::QueueSet;
use std::alloc::Global;

/// The object of a queue, if it has one.
fn object_in(shape: &QueueShape) -> Option<u8>
    ensures { result ≡ object_in_shape shape.now }
{
    match shape.eo {
        Some(EoId(number)) => Some(number),
        None => None,
    }
}

/// The queue group of a queue, if it has one: its own, or that of its atomic group.
fn group_in(declarations: &Declarations, shape: &QueueShape) -> Option<u8>
    ensures { result ≡ group_in_shape declarations.now shape.now }
{
    match shape.agroup {
        Some(agroup) => match declarations.agroups.as_slice().get(usize::from(agroup)) {
            Some(GroupId(number)) => Some(*number),
            None => None,
        },
        None => match shape.group {
            Some(GroupId(number)) => Some(number),
            None => None,
        },
    }
}

/// The object of each queue. Err is want of memory.
pub fn objects_of(alloc: Global, declarations: &Declarations) -> Result<Vec<Option<u8>>, NoMemory>
    ensures { IfOk result (λ v. v.items ≡ map object_in_shape declarations.now.queues) }
{
    let mut objects = Vec::new(alloc);
    for shape in declarations.queues.as_slice() {
        if objects.push(object_in(shape)).is_err() {
            return Err(NoMemory);
        }
    }
    Ok(objects)
}

/// The queue group of each queue. Err is want of memory.
pub fn groups_of(alloc: Global, declarations: &Declarations) -> Result<Vec<Option<u8>>, NoMemory>
    ensures { IfOk result (λ v. v.items ≡ map (group_in_shape declarations.now) declarations.now.queues) }
{
    let mut groups = Vec::new(alloc);
    for shape in declarations.queues.as_slice() {
        if groups.push(group_in(declarations, shape)).is_err() {
            return Err(NoMemory);
        }
    }
    Ok(groups)
}

/// Whether this is the number.
fn is_same(number: Option<u8>, wanted: usize) -> bool
    ensures { result ≡ is_number wanted number }
{
    match number {
        Some(number) => wanted == usize::from(number),
        None => false,
    }
}

/// The queues of this number.
fn queues_of(numbers: &[Option<u8>], wanted: usize) -> QueueSet
    requires { length numbers.now ≤ 256 }
    ensures { (q : ℕ) → contains result q ≡ is_number wanted (number_at numbers.now q) }
{
    let mut set = QueueSet::none();
    let mut queue: u16 = 0;
    for number in numbers {
        if is_same(*number, wanted) {
            set.add(QueueId(queue));
        }
        queue += 1;
    }
    set
}

/// The queues of each number below `count`. Err is want of memory.
pub fn sets_of(
    alloc: Global,
    numbers: &[Option<u8>],
    count: usize,
) -> Result<Vec<QueueSet>, NoMemory>
    requires { length numbers.now ≤ 256 }
    ensures count { IfOk result (λ v. length v.items ≡ count) }
    ensures members { IfOk result (λ v. AreOf (number_at numbers.now) v.items) }
{
    let mut sets = Vec::new(alloc);
    for number in 0..count {
        if sets.push(queues_of(numbers, number)).is_err() {
            return Err(NoMemory);
        }
    }
    Ok(sets)
}

/// Whether such an object is declared as running.
fn runs(running: &[bool], object: Option<u8>) -> bool
    ensures { result ≡ runs_as running.now object }
{
    match object {
        Some(object) => match running.get(usize::from(object)) {
            Some(running) => *running,
            None => false,
        },
        None => false,
    }
}

/// The queues whose object is declared as running.
pub fn running_queues(running: &[bool], objects: &[Option<u8>]) -> QueueSet
    requires { length objects.now ≤ 256 }
    ensures { (q : ℕ) → contains result q ≡ runs_as running.now (number_at objects.now q) }
{
    let mut set = QueueSet::none();
    let mut queue: u16 = 0;
    for object in objects {
        if runs(running, *object) {
            set.add(QueueId(queue));
        }
        queue += 1;
    }
    set
}

/// The mask of the cores below this number.
fn all_cores(cores: u8) -> u64
    requires { cores ≤ core_limit }
    ensures { result ≡ all_cores_of cores }
{
    let mut mask = 0;
    for _ in 0..cores {
        mask = 1 + 2 * mask;
    }
    mask
}

/// The mask that a queue group is declared with.
fn mask_of(declarations: &Declarations, group: u8) -> u64
    requires { declarations.now.cores ≤ core_limit }
    ensures { result ≡ declared_mask declarations.now group }
{
    if group == 0 {
        return all_cores(declarations.cores);
    }
    match declarations.groups.as_slice().get(usize::from(group - 1)) {
        Some(mask) => mask.bits(),
        None => 0,
    }
}

/// Whether the declared mask of such a group lacks the core.
fn bars(declarations: &Declarations, core: CoreId, group: Option<u8>) -> bool
    requires cores { declarations.now.cores ≤ core_limit }
    requires core { core.0 < declarations.now.cores }
    ensures { result ≡ bars_as declarations.now core.0 group }
{
    match group {
        Some(group) => mask_of(declarations, group) & (1 << core.0) == 0,
        None => false,
    }
}

/// The queues of groups whose declared mask lacks the core.
fn barred_queues(declarations: &Declarations, core: CoreId, groups: &[Option<u8>]) -> QueueSet
    requires cores { declarations.now.cores ≤ core_limit }
    requires core { core.0 < declarations.now.cores }
    requires queues { length groups.now ≤ 256 }
    ensures { (q : ℕ) → contains result q ≡ bars_as declarations.now core.0 (number_at groups.now q) }
{
    let mut set = QueueSet::none();
    let mut queue: u16 = 0;
    for group in groups {
        if bars(declarations, core, *group) {
            set.add(QueueId(queue));
        }
        queue += 1;
    }
    set
}

/// For each core the queues of groups whose declared mask lacks it. Err is want of memory.
pub fn barred(
    alloc: Global,
    declarations: &Declarations,
    groups: &[Option<u8>],
) -> Result<Vec<QueueSet>, NoMemory>
    requires cores { declarations.now.cores ≤ core_limit }
    requires queues { length groups.now ≤ 256 }
    ensures count { IfOk result (λ v. length v.items ≡ declarations.now.cores) }
    ensures barred { IfOk result (λ v. AreDeclaredBarred declarations.now groups.now v.items) }
{
    let mut sets = Vec::new(alloc);
    for core in 0..declarations.cores {
        if sets
            .push(barred_queues(declarations, CoreId(core), groups))
            .is_err()
        {
            return Err(NoMemory);
        }
    }
    Ok(sets)
}
