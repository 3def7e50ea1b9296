//! What a core has still to tell of an operation once the context of a step has ended, or once it acknowledges a change.
ghost use Rattle.std.specs.Prelude.{◌≡◌, ◌∷◌};
ghost use Rattle.std.specs.Option.{option_map};
ghost use Rattle.em_log.specs.History.{Past, entry_by};
ghost use Rattle.em_log.specs.Lawful.{AllAllowed};
ghost use Rattle.em_log.specs.declared.declarations.Declarations.{Declarations as TheDeclarations};
ghost use Rattle.em_log.specs.declared.ids.Limits.{Limits as TheLimits};
ghost use Rattle.em_operation_parts.specs.Endings.{told as told_by, ending_of as ending_of_body, ending_after};
ghost use Rattle.em_operations.specs.Endings.{CanTell, ending_as};
ghost use Rattle.em_operations.specs.Operations.{OperationsStand};

use crate::operations::Operations;
use em_log::{Body, CoreId, OpId, What};

/// The core acknowledges a start or a change, or a stop; it ends the global start, well or not, or the global stop; or the
/// operation is done, or has failed.
#[derive(Clone, Copy, Debug, PartialEq, Eq)]
pub enum Ending {
    Acknowledges(OpId),
    AcknowledgesStop(OpId),
    EndsStart(OpId, bool),
    EndsStop(OpId),
    Completes(OpId),
    Fails(OpId),
}

/// What the end of a body has still to tell, where its ask to fail may have marked it.
pub fn ending_of(body: Body, failed: bool) -> Option<Ending>
    ensures { option_map ending_as result ≡ ending_of_body body failed }
{
    match body {
        Body::Boot => None,
        Body::GlobalStart(op) => Some(Ending::EndsStart(op, !failed)),
        Body::LocalStart(op) => Some(Ending::Acknowledges(op)),
        Body::LocalStop(op) => Some(Ending::AcknowledgesStop(op)),
        Body::GlobalStop(op) => Some(Ending::EndsStop(op)),
    }
}

/// The entry that is told next.
pub fn told(ending: Ending) -> What
    ensures { result ≡ told_by (ending_as ending) }
{
    match ending {
        Ending::Acknowledges(op) | Ending::AcknowledgesStop(op) => What::Ack(op),
        Ending::EndsStart(op, ok) => What::GlobalDone { op, ok },
        Ending::EndsStop(op) => What::GlobalDone { op, ok: true },
        Ending::Completes(op) => What::Done { op, ok: true },
        Ending::Fails(op) => What::Done { op, ok: false },
    }
}

impl Operations {
    /// The core tells the entry of this ending. Answers what it has to tell after it.
    pub fn tell(&mut self, core: CoreId, ending: Ending) -> Option<Ending>
        requires { CanTell self.old core.0 ending }
        ensures next { (k : TheDeclarations) (past : Past) → OperationsStand k self.old past → option_map ending_as result ≡ ending_after k (entry_by core.0 (told_by (ending_as ending)) ∷ past) (ending_as ending) }
        ensures stands { (k : TheDeclarations) (l : TheLimits) (past : Past) → AllAllowed k l past → OperationsStand k self.old past → OperationsStand k self.new (entry_by core.0 (told_by (ending_as ending)) ∷ past) }
    {
        match ending {
            Ending::Acknowledges(op) => {
                if self.acknowledge(core, op) {
                    Some(Ending::Completes(op))
                } else {
                    None
                }
            }
            Ending::AcknowledgesStop(op) => {
                let _last = self.acknowledge(core, op);
                None
            }
            Ending::EndsStart(op, ok) => {
                self.end_global(core, op, ok);
                if ok { None } else { Some(Ending::Fails(op)) }
            }
            Ending::EndsStop(op) => {
                self.end_global(core, op, true);
                Some(Ending::Completes(op))
            }
            Ending::Completes(op) => {
                self.done(op, true);
                None
            }
            Ending::Fails(op) => {
                self.done(op, false);
                None
            }
        }
    }
}
