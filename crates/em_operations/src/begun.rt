//! What is kept of an operation from its begin on, and what cores owe to it.
ghost use Rattle.std.specs.Prelude.{◌≡◌};
ghost use Rattle.em_operation_parts.specs.AckSteps.{entry_of, job_of as job_of_begun, target_of as target_of_begun};
ghost use Rattle.em_operations.specs.Operations.{owed_entry};

use em_acks::{Job, Phase, Target};
use em_log::{Begun, Body, CoreId, Notes, OpId};

/// An operation as it began: the core, what it is to do, and its notes.
#[derive(Drop)]
pub struct BegunOperation {
    pub core: CoreId,
    pub job: Begun,
    pub notes: Notes,
}

/// A step that a core owes: it acknowledges an operation, or runs a body of one.
#[derive(Clone, Copy, Debug, PartialEq, Eq)]
pub enum Owed {
    Ack(OpId),
    Enter(Body),
}

/// What such an operation does to its target.
pub fn job_of(job: Begun) -> Job
    ensures { result ≡ job_of_begun job }
{
    match job {
        Begun::Start(_) => Job::Start,
        Begun::Stop(_) => Job::Stop,
        Begun::Modify(_, _) => Job::Modify,
    }
}

/// The target of such an operation.
pub fn target_of(job: Begun) -> Target
    ensures { result ≡ target_of_begun job }
{
    match job {
        Begun::Start(eo) | Begun::Stop(eo) => Target::Eo(eo),
        Begun::Modify(group, _) => Target::Group(group),
    }
}

/// The step of an operation that is owed: every step of a change is an acknowledgement.
pub fn owed_of(op: OpId, job: Begun, phase: Phase) -> Owed
    ensures { owed_entry result ≡ entry_of op job phase }
{
    match (job, phase) {
        (Begun::Modify(_, _), _) => Owed::Ack(op),
        (Begun::Start(_), Phase::Global) => Owed::Enter(Body::GlobalStart(op)),
        (Begun::Start(_), Phase::Local) => Owed::Enter(Body::LocalStart(op)),
        (Begun::Stop(_), Phase::Global) => Owed::Enter(Body::GlobalStop(op)),
        (Begun::Stop(_), Phase::Local) => Owed::Enter(Body::LocalStop(op)),
    }
}
