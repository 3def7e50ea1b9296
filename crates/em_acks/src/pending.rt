//! Which operation of each target is not done.
ghost use Rattle.std.specs.Prelude.{◌≡◌, ◌&&◌, None, replicate, length, if◌then◌else◌, IfOk};
ghost use Rattle.em_acks.specs.declared.job.Target.{Target as TheTarget};
ghost use Rattle.em_acks.specs.Operations.{is_target};
ghost use Rattle.em_acks.specs.Pending.{pending_at, is_done, HasPlaces};

use crate::job::Target;
use crate::unfinished::Unfinished;
use em_log::{NoMemory, OpId};
use std::alloc::Global;

/// How many numbers an object or a queue group can have.
const PLACES: u16 = u8::MAX as u16 + 1;

/// For each object and each queue group its operation that is not done.
#[derive(Drop)]
pub struct PendingOperations {
    pub eos: Vec<Option<OpId>>,
    pub groups: Vec<Option<OpId>>,
}

/// A place for each number, with no operation.
fn places(alloc: Global) -> Result<Vec<Option<OpId>>, NoMemory>
    ensures { IfOk result (λ places. places.items ≡ replicate PLACES None) }
{
    let mut places = Vec::new(alloc);
    if places.reserve(usize::from(PLACES)).is_err() {
        return Err(NoMemory);
    }
    for _ in 0..PLACES {
        places.push_reserved(None);
    }
    Ok(places)
}

impl PendingOperations {
    /// No target has one. Err is want of memory.
    pub fn build(alloc: Global) -> Result<PendingOperations, NoMemory>
        ensures places { IfOk result HasPlaces }
        ensures none { IfOk result (λ p. (t : TheTarget) → pending_at p t ≡ None) }
    {
        Ok(PendingOperations {
            eos: places(alloc)?,
            groups: places(alloc)?,
        })
    }

    /// The operation of the target that is not done.
    pub fn of(&self, target: Target) -> Option<OpId>
        requires { HasPlaces self.now }
        ensures { result ≡ pending_at self.now target }
    {
        match target {
            Target::Eo(eo) => self.eos[usize::from(eo.0)],
            Target::Group(group) => self.groups[usize::from(group.0)],
        }
    }

    /// The target has this operation, or none.
    pub fn put(&mut self, target: Target, op: Option<OpId>)
        requires { HasPlaces self.old }
        ensures places { HasPlaces self.new }
        ensures value { (t : TheTarget) → pending_at self.new t ≡ (if is_target target t then op else pending_at self.old t) }
    {
        match target {
            Target::Eo(eo) => self.eos[usize::from(eo.0)] = op,
            Target::Group(group) => self.groups[usize::from(group.0)] = op,
        }
    }

    /// The target has none where its operation is done.
    pub fn release(&mut self, target: Target, operation: &Option<Unfinished>)
        requires { HasPlaces self.old }
        ensures places { HasPlaces self.new }
        ensures value { (t : TheTarget) → pending_at self.new t ≡ (if is_done operation.now && is_target target t then None else pending_at self.old t) }
    {
        if operation.is_none() {
            self.put(target, None);
        }
    }
}
