//! The steps of atomic contexts, ordered queues and event groups, made from a history, and that they tell of each part
//! what the history tells.
#![tactic(auto)]

ghost use Rattle.std.specs.Prelude.{ℕ, ◌≡◌, ◌<◌, ◌≤◌, false, List, Option, Some};
ghost use Rattle.em_log.specs.declared.declarations.Declarations.{Declarations};
ghost use Rattle.em_log.specs.declared.entry.What.{What};
ghost use Rattle.em_log.specs.declared.ids.Cells.{Cells};
ghost use Rattle.em_log.specs.declared.ids.Limits.{Limits};
ghost use Rattle.em_log.specs.declared.ids.Stamp.{Stamp};
ghost use Rattle.em_log.specs.History.{Past};
ghost use Rattle.em_log.specs.EventGroups.{open_stamp};
ghost use Rattle.em_log.specs.Lawful.{AllAllowed, Lawful};
ghost use Rattle.em_atomic.specs.Steps.{AtomicStep};
ghost use Rattle.em_order.specs.Steps.{OrderStep};
ghost use Rattle.em_egroups.specs.Steps.{EgroupStep};
ghost use Rattle.em_context_parts.specs.AtomicAlike.{AtomicsAlike};
ghost use Rattle.em_context_parts.specs.AtomicSteps.{atomic_after, touches_atomics};
ghost use Rattle.em_context_parts.specs.EgroupAlike.{EgroupsAlike, RefusalsAlike, Leaves};
ghost use Rattle.em_context_parts.specs.EgroupSteps.{egroup_after, touches_egroups};
ghost use Rattle.em_context_parts.specs.Memberships.{StampsHaveCome, CountsLeft, MembersWithin};
ghost use Rattle.em_context_parts.specs.OrderAlike.{TicketsOwned, OrdersAlike};
ghost use Rattle.em_context_parts.specs.OrderSteps.{order_after, touches_orders};
ghost use Rattle.em_context_parts.specs.SentStamps.{StampsKept};

/// The holders of a history's atomic contexts, what each core holds, and the cells of each free context are those of its
/// steps of atomic contexts, where takes of an atomic queue take something.
pub fn atomics_alike()
    ensures { (k : Declarations) (l : Limits) (past : Past) → 1 ≤ l.burst → AllAllowed k l past → AtomicsAlike k past }
{}

/// An entry that touches no atomic context adds no step of them.
pub fn atomics_untouched()
    ensures { (k : Declarations) (past : Past) (c : ℕ) (w : What) (steps : List AtomicStep) → touches_atomics w ≡ false → atomic_after k past c w steps ≡ steps }
{}

/// An open ticket is of the ordered queue that its core's open context receives from.
pub fn tickets_are_owned()
    ensures { (k : Declarations) (l : Limits) (past : Past) → AllAllowed k l past → TicketsOwned k past }
{}

/// The open tickets of a history, how many of the first have ended, and what the end of a ticket lets in, by ticket and
/// then by sending, are those of its steps of the ordered queues.
pub fn orders_alike()
    ensures { (k : Declarations) (l : Limits) (past : Past) → AllAllowed k l past → OrdersAlike k past }
{}

/// An entry that draws and ends no ticket, and sends nothing, adds no step of the ordered queues.
pub fn orders_untouched()
    ensures { (past : Past) (c : ℕ) (w : What) (steps : List OrderStep) → touches_orders w ≡ false → order_after past c w steps ≡ steps }
{}

/// The stamp of what is held back, waits or is taken is that of the spending of its handle.
pub fn stamps_are_kept()
    ensures { (k : Declarations) (l : Limits) (past : Past) → AllAllowed k l past → StampsKept k past }
{}

/// Each stamp, of a send, of what waits or is taken, and of an open context, is of an application that has come.
pub fn stamps_have_come()
    ensures { (k : Declarations) (l : Limits) (past : Past) → AllAllowed k l past → StampsHaveCome k past }
{}

/// Where nothing is due, a group whose application is neither notified nor given up has some of its count left.
pub fn counts_are_left()
    ensures { (k : Declarations) (l : Limits) (past : Past) → AllAllowed k l past → CountsLeft k past }
{}

/// The open receives with the stamp of an application and those that have left are at most its members.
pub fn members_are_within()
    ensures { (k : Declarations) (l : Limits) (past : Past) → AllAllowed k l past → MembersWithin k past }
{}

/// The applications of a history's event groups, their members, counts and notes are those of its steps of event groups.
pub fn egroups_alike()
    ensures { (k : Declarations) (l : Limits) (past : Past) → AllAllowed k l past → EgroupsAlike past }
{}

/// Between asks the calls on event groups are refused by the steps as by the history.
pub fn refusals_alike()
    ensures { (k : Declarations) (l : Limits) (past : Past) → Lawful k l past → RefusalsAlike past }
{}

/// A receive that leaves its group, by the end of its context or before, counts down by the steps as by the history, and
/// the entries that follow tell of it.
pub fn leavings_alike()
    ensures at_end { (k : Declarations) (l : Limits) (past : Past) → Lawful k l past → (c lost : ℕ) (cells : Option Cells) (s : Stamp) → c < k.cores
        → open_stamp past c ≡ Some s → Leaves k past c (What.End lost cells) s }
    ensures early { (k : Declarations) (l : Limits) (past : Past) → Lawful k l past → (c : ℕ) (s : Stamp) → c < k.cores
        → open_stamp past c ≡ Some s → Leaves k past c What.EndGroup s }
{}

/// An entry that begins, counts or gives up no application, and ends no membership, adds no step of event groups.
pub fn egroups_untouched()
    ensures { (past : Past) (c : ℕ) (w : What) (steps : List EgroupStep) → touches_egroups w ≡ false → egroup_after past c w steps ≡ steps }
{}
