//! The steps of objects, operations and queue groups, made from a history, and that they tell of the part what the history
//! tells.
#![tactic(auto)]

ghost use Rattle.std.specs.Prelude.{ℕ, Bool, ◌≡◌, ◌<◌, ◌∷◌, false, List, Option, Some, if◌then◌else◌};
ghost use Rattle.em_log.specs.Contexts.{context};
ghost use Rattle.em_log.specs.Declarations.{object_of, group_of, is_number};
ghost use Rattle.em_log.specs.Eligible.{has_core};
ghost use Rattle.em_log.specs.History.{Past, entry_by};
ghost use Rattle.em_log.specs.Lawful.{AllAllowed, Lawful};
ghost use Rattle.em_log.specs.Operations.{step};
ghost use Rattle.em_log.specs.States.{is_running};
ghost use Rattle.em_log.specs.Tails.{end_tail, ack_tail, has_failed};
ghost use Rattle.em_log.specs.declared.declarations.Declarations.{Declarations};
ghost use Rattle.em_log.specs.declared.entry.Body.{Body};
ghost use Rattle.em_log.specs.declared.entry.What.{What};
ghost use Rattle.em_log.specs.declared.ids.Cells.{Cells};
ghost use Rattle.em_log.specs.declared.ids.EoState.{EoState};
ghost use Rattle.em_log.specs.declared.ids.Limits.{Limits};
ghost use Rattle.em_log.specs.declared.ids.OpId.{OpId};
ghost use Rattle.em_objects.specs.Queues.{runs};
ghost use Rattle.em_objects.specs.Steps.{ObjectStep, Moved};
ghost use Rattle.em_acks.specs.Stands.{Stands as AckStands};
ghost use Rattle.em_acks.specs.State.{AckState, owed_at};
ghost use Rattle.em_acks.specs.Steps.{AckStep};
ghost use Rattle.em_acks.specs.declared.job.Phase.{Phase};
ghost use Rattle.em_groups.specs.Masks.{effective};
ghost use Rattle.em_groups.specs.Steps.{GroupStep};
ghost use Rattle.em_operation_parts.specs.AckSteps.{ack_after, ack_steps, touches_operations, step_in};
ghost use Rattle.em_operation_parts.specs.BegunOperations.{BegunAlike};
ghost use Rattle.em_operation_parts.specs.Endings.{Ending, Acknowledges, told, told_from, ending_of, ending_after, IsDue};
ghost use Rattle.em_operation_parts.specs.GroupSteps.{group_after, touches_groups};
ghost use Rattle.em_operation_parts.specs.GroupsAlike.{GroupsAlike};
ghost use Rattle.em_operation_parts.specs.ObjectSteps.{object_after, touches_objects};
ghost use Rattle.em_operation_parts.specs.ObjectsAlike.{ObjectsAlike};
ghost use Rattle.em_operation_parts.specs.OperationsAlike.{OperationsAlike, PendingAlike};
ghost use Rattle.em_operation_parts.specs.Queues.{in_group, group_of_step};
ghost use Rattle.em_operation_parts.specs.Refusals.{RefusalsAlike};
ghost use Rattle.em_operation_parts.specs.Targets.{TargetsAlike};

/// The states of a history's objects, the flags of its queues, and which queues are closed and which deliver, are those of
/// its steps of the objects. This holds of every history.
pub fn objects_alike()
    ensures { (k : Declarations) (past : Past) → ObjectsAlike k past }
{}

/// An entry that touches no object and no flag adds no step of the objects.
pub fn objects_untouched()
    ensures { (past : Past) (w : What) (steps : List ObjectStep) → touches_objects w ≡ false → object_after past w steps ≡ steps }
{}

/// The operations of a history, what each core owes them, and which are done, are those of its steps of the operations.
pub fn operations_alike()
    ensures { (k : Declarations) (l : Limits) (past : Past) → AllAllowed k l past → OperationsAlike k past }
{}

/// Where nothing is due, so are those that are pending, and why none may begin; and none is pending exactly where no core
/// owes a step.
pub fn pending_alike()
    ensures { (k : Declarations) (l : Limits) (past : Past) → Lawful k l past → PendingAlike k past }
{}

/// An entry that neither begins an operation nor ends a step of one adds no step of the operations.
pub fn operations_untouched()
    ensures { (c : ℕ) (w : What) (steps : List AckStep) → touches_operations w ≡ false → ack_after c w steps ≡ steps }
{}

/// The masks of a history's queue groups, and the changes that are pending, are those of its steps of the groups.
pub fn groups_alike()
    ensures { (k : Declarations) (l : Limits) (past : Past) → AllAllowed k l past → GroupsAlike k past }
{}

/// An entry that touches no mask adds no step of the queue groups.
pub fn groups_untouched()
    ensures { (past : Past) (w : What) (steps : List GroupStep) → touches_groups w ≡ false → group_after past w steps ≡ steps }
{}

/// The step whose context a core has open is owed: the condition of `ack` and `global` of the operations.
pub fn open_steps_are_owed()
    ensures { (k : Declarations) (l : Limits) (past : Past) → AllAllowed k l past → (v : AckState) → AckStands v (ack_steps past) → v.cores ≡ k.cores → (c : ℕ) (b : Body) (r : OpId × Phase) → c < k.cores → context past c ≡ Some (What.Enter b) → step_in b ≡ Some r → owed_at v c r.0.0 ≡ Some r.1 }
{}

/// What is still to be told once the context of a step has ended, one entry after another, is the tail of that end.
pub fn endings_are_told()
    ensures { (k : Declarations) (past : Past) (now : Past) (c : ℕ) (b : Body) (e : Ending) → ending_of b (has_failed past c) ≡ Some e → told_from k now c e ≡ end_tail k past now c (Some (What.Enter b)) }
{}

/// What is still to be told where a core acknowledges a change is that entry and its tail.
pub fn changes_are_told()
    ensures { (k : Declarations) (past : Past) (c : ℕ) (op : OpId) → told_from k past c (Acknowledges op) ≡ What.Ack op ∷ ack_tail k (entry_by c (What.Ack op) ∷ past) c op }
{}

/// Once the context of a step has ended, what is to be told next is due: the step is still owed.
pub fn ended_steps_are_due()
    ensures { (k : Declarations) (l : Limits) (past : Past) → AllAllowed k l past → (c : ℕ) (lost : ℕ) (cells : Option Cells) (b : Body) (failed : Bool) → c < k.cores → context past c ≡ Some (What.Enter b) → (e : Ending) → ending_of b failed ≡ Some e → IsDue k (entry_by c (What.End lost cells) ∷ past) c e }
{}

/// A change that a core has to acknowledge is due.
pub fn owed_changes_are_due()
    ensures { (k : Declarations) (l : Limits) (past : Past) → AllAllowed k l past → (c : ℕ) (op : OpId) → step k past c ≡ Some (What.Ack op) → IsDue k past c (Acknowledges op) }
{}

/// What is to be told after it stays due: an operation is not done before it is told so.
pub fn endings_stay_due()
    ensures { (k : Declarations) (l : Limits) (past : Past) → AllAllowed k l past → (c : ℕ) (e : Ending) (f : Ending) → c < k.cores → IsDue k past c e → ending_after k (entry_by c (told e) ∷ past) e ≡ Some f → IsDue k (entry_by c (told e) ∷ past) c f }
{}

/// What an operation that is not done does to its target is told by the parts: the conditions of `set` of the objects, and of
/// `begin` and `finish` of the queue groups.
pub fn targets_alike()
    ensures { (k : Declarations) (l : Limits) (past : Past) → AllAllowed k l past → TargetsAlike k past }
{}

/// The operations that have begun, in the order of their numbers, are those that the history tells; and what a completion
/// tells follows from them and the steps of the objects.
pub fn begun_alike()
    ensures { (k : Declarations) (l : Limits) (past : Past) → AllAllowed k l past → BegunAlike k past }
{}

/// Where nothing is due, the parts refuse the asks of operations and flags as the history does.
pub fn refusals_alike()
    ensures { (k : Declarations) (l : Limits) (past : Past) → Lawful k l past → RefusalsAlike k past }
{}

/// A move of an object concerns its queues alone.
pub fn a_move_concerns_the_queues_of_an_object()
    ensures { (k : Declarations) (steps : List ObjectStep) (x : ℕ) (to : EoState) (q : ℕ) → runs k (Moved x to ∷ steps) q ≡ (if is_number x (object_of k q) then is_running to else runs k steps q) }
{}

/// A step of a queue group concerns its queues alone: each core is in the mask in force then, or not.
pub fn a_change_concerns_the_queues_of_a_group()
    ensures { (k : Declarations) (steps : List GroupStep) (s : GroupStep) (c : ℕ) (q : ℕ) → in_group k (s ∷ steps) c q ≡ (if is_number (group_of_step s) (group_of k q) then has_core (effective k (s ∷ steps) (group_of_step s)) c else in_group k steps c q) }
{}
