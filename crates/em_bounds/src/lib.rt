//! What bounds every lawful history: that it is paid for, how much room it needs, and that what is pending is owed.
#![tactic(auto)]

ghost use Rattle.em_log.specs.declared.declarations.Declarations.{Declarations};
ghost use Rattle.em_log.specs.declared.ids.Limits.{Limits};
ghost use Rattle.em_log.specs.History.{Past};
ghost use Rattle.em_log.specs.Lawful.{AllAllowed, Lawful};
ghost use Rattle.em_bounds.specs.Pending.{IsOwed};
ghost use Rattle.em_bounds.specs.Paid.{IsPaid};
ghost use Rattle.em_bounds.specs.Room.{needed};
ghost use Rattle.em_bounds.specs.Bound.{AllAfforded, most_needed, history_limit};
ghost use Rattle.std.specs.Prelude.{◌≤◌, ◌<◌, length};
ghost use Rattle.em_log.specs.Places.{promised, started};
ghost use Rattle.em_log.specs.Operations.{operations};
ghost use Rattle.em_log.specs.Bounds.{operation_limit};

/// Every history is paid for: what its entries pay is at least their number, with an end for each open context and a
/// giving back for each core that has something taken.
pub fn paid_for()
    ensures { (k : Declarations) (l : Limits) (past : Past) → AllAllowed k l past → IsPaid k past }
{}

/// An operation that is pending while nothing is due is owed a step by some core.
pub fn pending_is_owed()
    ensures { (k : Declarations) (l : Limits) (past : Past) → 0 < k.cores → Lawful k l past → IsOwed k past }
{}

/// What has started or is taken is within the limit of receives.
pub fn receives_are_within()
    ensures { (k : Declarations) (l : Limits) (past : Past) → AllAllowed k l past → promised k past ≤ l.receives }
{}

/// No more operations begin than there are numbers for them.
pub fn operations_are_within()
    ensures { (k : Declarations) (l : Limits) (past : Past) → AllAllowed k l past → operations past ≤ operation_limit }
{}

/// A lawful history whose contexts keep to their allowance needs no more room than its receives and its operations give.
pub fn needed_is_bounded()
    ensures { (k : Declarations) (l : Limits) (past : Past) → 1 ≤ l.burst → Lawful k l past → AllAfforded k past → needed k past ≤ most_needed k.cores (started past) (operations past) }
{}

/// So it is no longer than a number that the graph and the limits give.
pub fn history_is_bounded()
    ensures { (k : Declarations) (l : Limits) (past : Past) → 1 ≤ l.burst → Lawful k l past → AllAfforded k past → length past ≤ history_limit k l }
{}
