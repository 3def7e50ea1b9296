//! The laws of every lawful history. The functions do nothing: their contracts are the laws.
#![tactic(auto)]

pub mod broken;
pub mod expected;
pub mod holdings;

ghost use Rattle.em_log.specs.declared.declarations.Declarations.{Declarations};
ghost use Rattle.em_log.specs.declared.ids.Limits.{Limits};
ghost use Rattle.em_log.specs.History.{Past};
ghost use Rattle.em_log.specs.Lawful.{Lawful};
ghost use Rattle.em_log.specs.Laws.{StopQuiet, GroupQuiet, Exclusive, Once};

/// Stopped objects are quiet: from each completed stop of an object until a start of it completes, no take and no
/// start of its queues stands, no receive of it is open and none of its events is taken, on any core.
pub fn stop_quiet()
    ensures { (k : Declarations) (l : Limits) (past : Past) → Lawful k l past → StopQuiet k past }
{}

/// Changed queue groups are quiet: from each completed change of a queue group until the next, only cores of its mask
/// take from the group's queues, have an open receive of them, or have events of them taken.
pub fn group_quiet()
    ensures { (k : Declarations) (l : Limits) (past : Past) → Lawful k l past → GroupQuiet k past }
{}

/// After each entry at most one core is in an atomic context, and it is the holder.
pub fn exclusive()
    ensures { (k : Declarations) (l : Limits) (past : Past) → Lawful k l past → Exclusive k past }
{}

/// Each event once: no handle enters twice; each send has entered its queue exactly where the tickets before it have
/// ended; the starts of each list are its first arrivals, in order; and each application notifies at most once.
pub fn once()
    ensures { (k : Declarations) (l : Limits) (past : Past) → Lawful k l past → Once k past }
{}
