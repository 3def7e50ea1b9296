//! Operations that are not done, and what is still owed to them.
ghost use Rattle.std.specs.Prelude.{◌≡◌, ◌<◌, ◌≤◌};
ghost use Rattle.em_acks.specs.State.{owed_in};
ghost use Rattle.em_acks.specs.Sets.{owes, owes_in};
ghost use Rattle.em_acks.specs.Changes.{owing_after_all, owing_at_first, owing_acked, owing_ended, left_in, next_of};

use crate::job::{Job, Left, Phase, Target};
use crate::words::{WORD_BITS, WordSet};
use em_log::{CoreId, OpId};

/// Who owes the next step of an operation: one core the global one, or these cores the local one.
#[derive(Drop)]
pub enum Owing {
    Global(CoreId),
    Local(WordSet),
}

/// An operation that has begun and is not done.
#[derive(Drop)]
pub struct Unfinished {
    pub op: OpId,
    pub job: Job,
    pub target: Target,
    pub owing: Owing,
}

impl Owing {
    /// What is owed to an operation that has just begun.
    pub fn at_first(job: Job, core: CoreId, cores: u8) -> Owing
        requires { cores ≤ WORD_BITS }
        ensures { result ≡ owing_at_first job core.0 cores }
    {
        match job {
            Job::Start => Owing::Global(core),
            Job::Stop | Job::Modify => Owing::Local(WordSet::first(cores)),
        }
    }

    /// Whether the core owes the next step.
    pub fn is_owed(&self, core: CoreId) -> bool
        ensures { result ≡ owes_in core.0 self.now }
    {
        match self {
            Owing::Global(owes) => owes.0 == core.0,
            Owing::Local(cores) => cores.has(core.0),
        }
    }

    /// The step that the core owes.
    pub fn owed(&self, core: CoreId) -> Option<Phase>
        ensures { result ≡ owed_in core.0 self.now }
    {
        match self {
            Owing::Global(owes) => {
                if owes.0 == core.0 {
                    Some(Phase::Global)
                } else {
                    None
                }
            }
            Owing::Local(cores) => {
                if cores.has(core.0) {
                    Some(Phase::Local)
                } else {
                    None
                }
            }
        }
    }
}

impl Unfinished {
    /// What is owed after the core has acknowledged, if the operation is not done then.
    pub fn acked(&self, core: CoreId) -> Option<Owing>
        requires { core.0 < WORD_BITS }
        ensures { result ≡ owing_acked core.0 self.now.job self.now.owing }
    {
        match &self.owing {
            Owing::Global(_) => None,
            Owing::Local(cores) => {
                let left = cores.without(core.0);
                if left.len() > 0 {
                    Some(Owing::Local(left))
                } else {
                    self.after_all(core)
                }
            }
        }
    }

    /// What is owed once every core has acknowledged, this one last: a stop still owes its global step.
    fn after_all(&self, core: CoreId) -> Option<Owing>
        ensures { result ≡ owing_after_all self.now.job core.0 }
    {
        match self.job {
            Job::Stop => Some(Owing::Global(core)),
            Job::Start | Job::Modify => None,
        }
    }

    /// What is owed after the global step, if the operation is not done then.
    pub fn ended(&self, cores: u8, ok: bool) -> Option<Owing>
        requires { cores ≤ WORD_BITS }
        ensures { result ≡ owing_ended cores ok self.now.job }
    {
        match self.job {
            Job::Start => {
                if ok {
                    Some(Owing::Local(WordSet::first(cores)))
                } else {
                    None
                }
            }
            Job::Stop | Job::Modify => None,
        }
    }
}

/// What an acknowledgement answers, by what is owed after it.
pub fn left_by(owing: &Option<Owing>) -> Left
    ensures { result ≡ left_in owing.now }
{
    match owing {
        Some(Owing::Local(cores)) => Left::More(cores.len()),
        Some(Owing::Global(_)) | None => Left::Last,
    }
}

/// Whether the core owes a step to the operation, if it is not done.
pub fn is_owed(operation: &Option<Unfinished>, core: CoreId) -> bool
    ensures { result ≡ owes core.0 operation.now }
{
    match operation {
        Some(operation) => operation.owing.is_owed(core),
        None => false,
    }
}

/// The operation with what is owed to it next; none where it is done.
pub fn with_owing(operation: Unfinished, owing: Option<Owing>) -> Option<Unfinished>
    ensures { result ≡ next_of owing operation }
{
    match owing {
        Some(owing) => Some(Unfinished {
            op: operation.op,
            job: operation.job,
            target: operation.target,
            owing,
        }),
        None => None,
    }
}
