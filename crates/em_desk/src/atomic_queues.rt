//! The atomic contexts, their queues, and the queues whose context is held.
ghost use Rattle.std.specs.Prelude.{◌≡◌, ◌+◌, ◌<◌, ◌≤◌, ◌∷◌, [], ℕ, List, length, map, IfOk, IfSome, true};
ghost use Rattle.em_log.specs.declared.declarations.Declarations.{Declarations as TheDeclarations};
ghost use Rattle.em_log.specs.Declarations.{declarations_of, is_number, atomic_of, is_lone as is_lone_shape};
ghost use Rattle.em_atomic.specs.Steps.{AtomicStep, Given};
ghost use Rattle.em_atomic.specs.State.{atomic_number};
ghost use Rattle.em_context_parts.specs.AtomicSteps.{grabbed_steps, ended_steps};
ghost use Rattle.em_queues.specs.Sets.{contains};
ghost use Rattle.em_desk.specs.Graphs.{AreInBounds};
ghost use Rattle.em_desk.specs.Atomics.{context_in, context_at, contexts_from, cells_of, AreMembers, AtomicsStand, CanGrab, CanGive};

use em_atomic::Atomics;
use em_atomic::context::lone_queues;
use em_log::{AtomicId, Cells, Config, CoreId, Declarations, Kind, NoMemory, QueueId, QueueShape};
use em_queues::QueueSet;
use std::alloc::Global;

/// The atomic context of each queue that has one, the queues of each atomic context, the contexts themselves, and the
/// queues whose context some core holds.
#[derive(Drop)]
pub struct AtomicQueues {
    pub of_queue: Vec<Option<AtomicId>>,
    pub members: Vec<QueueSet>,
    pub contexts: Atomics,
    pub held: QueueSet,
}

/// The atomic context of a queue, if it has one: its atomic group, or the next context.
fn context_of(shape: &QueueShape, next: u16) -> Option<AtomicId>
    ensures { atomic_number result ≡ context_in next shape.now }
{
    match shape.kind {
        Kind::Atomic => match shape.agroup {
            Some(agroup) => Some(AtomicId(u16::from(agroup))),
            None => Some(AtomicId(next)),
        },
        _ => None,
    }
}

/// Whether the queue is atomic, and in no atomic group.
fn is_lone(shape: &QueueShape) -> bool
    ensures { result ≡ is_lone_shape shape.now }
{
    matches!(shape.kind, Kind::Atomic) && shape.agroup.is_none()
}

/// The atomic context of each queue. Err is want of memory.
fn contexts_of(
    alloc: Global,
    declarations: &Declarations,
) -> Result<Vec<Option<AtomicId>>, NoMemory>
    requires groups { length declarations.now.agroups ≤ 32 }
    requires queues { length declarations.now.queues ≤ 256 }
    ensures { IfOk result (λ v. map atomic_number v.items ≡ contexts_from (length declarations.now.agroups) declarations.now.queues) }
{
    let mut contexts = Vec::new(alloc);
    let mut next = declarations.agroups.as_slice().len() as u16;
    for shape in declarations.queues.as_slice() {
        if contexts.push(context_of(shape, next)).is_err() {
            return Err(NoMemory);
        }
        if is_lone(shape) {
            next += 1;
        }
    }
    Ok(contexts)
}

/// Whether this is the atomic context of this number.
fn is_context(context: Option<AtomicId>, atomic: u16) -> bool
    ensures { result ≡ is_number atomic (atomic_number context) }
{
    match context {
        Some(AtomicId(number)) => atomic == number,
        None => false,
    }
}

/// The queues of an atomic context.
fn members_of(contexts: &[Option<AtomicId>], atomic: u16) -> QueueSet
    requires { length contexts.now ≤ 256 }
    ensures { (q : ℕ) → contains result q ≡ is_number atomic (context_at contexts.now q) }
{
    let mut set = QueueSet::none();
    let mut number: u16 = 0;
    for context in contexts {
        if is_context(*context, atomic) {
            set.add(QueueId(number));
        }
        number += 1;
    }
    set
}

/// The queues of each of so many atomic contexts. Err is want of memory.
fn members(
    alloc: Global,
    contexts: &[Option<AtomicId>],
    count: u16,
) -> Result<Vec<QueueSet>, NoMemory>
    requires { length contexts.now ≤ 256 }
    ensures count { IfOk result (λ v. length v.items ≡ count) }
    ensures members { IfOk result (λ v. AreMembers (context_at contexts.now) v.items) }
{
    let mut sets = Vec::new(alloc);
    for atomic in 0..count {
        if sets.push(members_of(contexts, atomic)).is_err() {
            return Err(NoMemory);
        }
    }
    Ok(sets)
}

impl AtomicQueues {
    /// All atomic contexts are free. Err is want of memory.
    pub fn build(
        alloc: Global,
        config: &Config,
        declarations: &Declarations,
    ) -> Result<AtomicQueues, NoMemory>
        requires graph { AreInBounds declarations.now }
        requires declarations { declarations.now ≡ declarations_of config.now }
        ensures { IfOk result (λ v. AtomicsStand declarations.now v []) }
    {
        let of_queue = contexts_of(alloc, declarations)?;
        let lone = lone_queues(config.queues.as_slice());
        let count = declarations.agroups.as_slice().len() + lone;
        Ok(AtomicQueues {
            members: members(alloc, of_queue.as_slice(), count as u16)?,
            of_queue,
            contexts: Atomics::build(alloc, config)?,
            held: QueueSet::none(),
        })
    }

    /// The atomic context of the queue, if it has one.
    fn context(&self, queue: QueueId) -> Option<AtomicId>
        ensures { atomic_number result ≡ context_at self.now.of_queue.items queue.0 }
    {
        match self.of_queue.as_slice().get(usize::from(queue.0)) {
            Some(context) => *context,
            None => None,
        }
    }

    /// Makes the core the holder of the queue's atomic context, if it has one, whose cells leave with it.
    pub fn grab(&mut self, queue: QueueId, core: CoreId) -> Option<Cells>
        requires { CanGrab self.old queue.0 core.0 }
        ensures stands { (k : TheDeclarations) (s : List AtomicStep) → AtomicsStand k self.old s → AtomicsStand k self.new (grabbed_steps (atomic_of k queue.0) core.0 s) }
        ensures cells { (k : TheDeclarations) (s : List AtomicStep) → AtomicsStand k self.old s → result ≡ cells_of k s queue.0 }
    {
        match self.context(queue) {
            None => None,
            Some(atomic) => {
                self.held = self.held.union(&self.members[usize::from(atomic.0)]);
                Some(self.contexts.grab(atomic, core))
            }
        }
    }

    /// Frees the atomic context that the core holds, which then has these cells.
    pub fn give(&mut self, core: CoreId, cells: Cells)
        requires { CanGive self.old core.0 }
        ensures { (k : TheDeclarations) (s : List AtomicStep) → AtomicsStand k self.old s → AtomicsStand k self.new (Given core.0 cells.0 ∷ s) }
    {
        if let Some(atomic) = self.contexts.held(core) {
            self.held = self.held.without(&self.members[usize::from(atomic.0)]);
            let _given = self.contexts.give(core, cells);
        }
    }

    /// Frees the atomic context that the core holds, where its context ends with cells.
    pub fn give_back(&mut self, core: CoreId, cells: Option<Cells>)
        requires { IfSome cells (λ c. CanGive self.old core.0) }
        ensures { (k : TheDeclarations) (s : List AtomicStep) → AtomicsStand k self.old s → AtomicsStand k self.new (ended_steps true cells core.0 s) }
    {
        if let Some(cells) = cells {
            self.give(core, cells);
        }
    }
}
