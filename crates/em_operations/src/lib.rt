//! The objects, operations and queue groups of a history, and which queues a core may take from. That objects start and stop,
//! and that queue groups change, in steps that every core takes part in is after the Event Machine API; the order of the
//! steps is this project's own.
#![tactic(auto)]

ghost use Rattle.std.specs.Prelude.{ℕ, false, ◌≡◌, ◌∷◌, [], List};
ghost use Rattle.std.specs.Option.{option_or};
ghost use Rattle.em_log.specs.Leads.{refusal, notes_refusal};
ghost use Rattle.em_log.specs.declared.entry.Begun.{Begun as TheBegun};
ghost use Rattle.em_log.specs.declared.ids.Note.{Note};
ghost use Rattle.em_log.specs.History.{Past, entry_by};
ghost use Rattle.em_log.specs.declared.declarations.Declarations.{Declarations};
ghost use Rattle.em_log.specs.declared.entry.What.{What};
ghost use Rattle.em_operations.specs.Operations.{OperationsStand, ask_of, begin_fault_of, touches};
ghost use Rattle.em_operations.specs.declared.operations.Operations.{Operations as TheOperations};

mod begins;
pub mod begun;
pub mod endings;
pub mod numbers;
pub mod operations;
pub mod queue_sets;
mod steps;
mod targets;

pub use begun::{BegunOperation, Owed};
pub use endings::Ending;
pub use operations::Operations;
pub use queue_sets::QueueSets;

/// An entry that moves no object, changes no flag or mask, and neither begins an operation nor ends a step of one, leaves the
/// operations standing.
pub fn operations_kept()
    ensures { (k : Declarations) (v : TheOperations) (past : Past) (c : ℕ) (w : What) → touches w ≡ false → OperationsStand k v past → OperationsStand k v (entry_by c w ∷ past) }
{}

/// An ask to begin an operation is refused for the operation's target, for its own reason, or where no number is left, and then
/// by its notes.
pub fn begins_are_refused()
    ensures { (k : Declarations) (past : Past) (c : ℕ) (job : TheBegun) (notes : List Note) → refusal k past c (ask_of job notes) ≡ option_or (begin_fault_of k past job) (notes_refusal past c [] notes) }
{}
