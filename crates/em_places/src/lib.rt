//! Where each event is: the steps of the pools tell what the history tells.
#![tactic(auto)]

ghost use Rattle.em_log.specs.declared.declarations.Declarations.{Declarations};
ghost use Rattle.em_log.specs.declared.ids.Limits.{Limits};
ghost use Rattle.em_log.specs.History.{Past};
ghost use Rattle.em_log.specs.Lawful.{AllAllowed};
ghost use Rattle.em_pool.specs.Spots.{spot};
ghost use Rattle.em_places.specs.Parked.{AllSit};
ghost use Rattle.em_parts.specs.PoolSteps.{pool_steps};
ghost use Rattle.em_pool.specs.Places.{is_free as is_free_place};
ghost use Rattle.em_laws.specs.Minted.{HasSmallIndices};
ghost use Rattle.std.specs.Prelude.{ℕ, ◌≡◌};
ghost use Rattle.em_log.specs.Places.{is_free, place};

/// Each handle that is in a context, in a queue, taken, held back, handed in or kept is the last of its index, and the
/// steps of the pools say where its event is.
pub fn parked_sit()
    ensures { (k : Declarations) (l : Limits) (past : Past) → HasSmallIndices k → AllAllowed k l past → AllSit k past }
{}

/// An event is free by the steps of the pools exactly where it is free by the history.
pub fn frees_alike()
    ensures { (k : Declarations) (l : Limits) (past : Past) → HasSmallIndices k → AllAllowed k l past → (i : ℕ) → is_free_place (spot (pool_steps k past) i) ≡ is_free (place k past i) }
{}
