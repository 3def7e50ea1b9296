//! The steps of each part, made from a history, and that they tell of the part what the history tells.
#![tactic(auto)]

ghost use Rattle.em_log.specs.declared.declarations.Declarations.{Declarations};
ghost use Rattle.em_log.specs.declared.ids.Limits.{Limits};
ghost use Rattle.std.specs.Prelude.{ℕ, ◌≡◌, false, List};
ghost use Rattle.em_log.specs.declared.entry.What.{What};
ghost use Rattle.em_log.specs.History.{Past, entry_by};
ghost use Rattle.em_pool.specs.Steps.{PoolStep};
ghost use Rattle.em_queues.specs.Steps.{QueueStep};
ghost use Rattle.em_parts.specs.PoolSteps.{pool_after, touches_pools};
ghost use Rattle.em_parts.specs.QueueSteps.{queue_after, touches_queues};
ghost use Rattle.em_log.specs.Lawful.{AllAllowed};
ghost use Rattle.em_parts.specs.PoolAlike.{HandlesAlike};
ghost use Rattle.em_parts.specs.QueueAlike.{QueuesAlike};

/// The handles of a history are those of its steps of the pools.
pub fn handles_alike()
    ensures { (k : Declarations) (l : Limits) (past : Past) → AllAllowed k l past → HandlesAlike k past }
{}

/// The lists of a history's queues, and what each core has taken, are those of its steps of the queues.
pub fn queues_alike()
    ensures { (k : Declarations) (l : Limits) (past : Past) → AllAllowed k l past → QueuesAlike k past }
{}

/// An entry that touches no event adds no step of the pools.
pub fn pools_untouched()
    ensures { (k : Declarations) (past : Past) (c : ℕ) (w : What) (steps : List PoolStep) → touches_pools w ≡ false → pool_after k past c w steps ≡ steps }
{}

/// An entry that touches no queue adds no step of the queues.
pub fn queues_untouched()
    ensures { (k : Declarations) (past : Past) (c : ℕ) (w : What) (steps : List QueueStep) → touches_queues w ≡ false → queue_after k past (entry_by c w) steps ≡ steps }
{}
