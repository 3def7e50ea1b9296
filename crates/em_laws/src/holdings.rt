//! What cores hold, and what they have taken.
ghost use Rattle.std.specs.Prelude.{◌≡◌, ℕ, [], is_none};
ghost use Rattle.em_log.specs.declared.declarations.Declarations.{Declarations};
ghost use Rattle.em_log.specs.declared.graph.Config.{Config};
ghost use Rattle.em_log.specs.declared.ids.Limits.{Limits};
ghost use Rattle.em_log.specs.Contexts.{context};
ghost use Rattle.em_log.specs.Declarations.{declarations_of};
ghost use Rattle.em_log.specs.Handles.{held, rule};
ghost use Rattle.em_log.specs.History.{Past, has};
ghost use Rattle.em_log.specs.Lawful.{AllAllowed, Lawful, due};
ghost use Rattle.em_log.specs.Places.{taken};
ghost use Rattle.em_log.specs.WellFormed.{IsWellFormed};
ghost use Rattle.em_laws.specs.Minted.{HasSmallIndices};

/// A core holds exactly the words that it may use, where the indices of all events are below 65,536.
pub fn held_is_usable()
    ensures of_declarations { (k : Declarations) (l : Limits) (past : Past) → HasSmallIndices k → Lawful k l past
        → (c w : ℕ) → has (held past c) w ≡ is_none (rule past c w) }
    ensures of_graph { (graph : Config) (l : Limits) (past : Past) → IsWellFormed graph → Lawful (declarations_of graph) l past
        → (c w : ℕ) → has (held past c) w ≡ is_none (rule past c w) }
{}

/// A core with no open context holds nothing.
pub fn closed_holds_nothing()
    ensures { (past : Past) (c : ℕ) → context past c ≡ None → held past c ≡ [] }
{}

/// With a burst of 1, where nothing is due, no core has anything taken.
pub fn takes_start_at_once()
    ensures { (k : Declarations) (l : Limits) (past : Past) → l.burst ≡ 1 → AllAllowed k l past → due k past ≡ []
        → (c : ℕ) → taken k past c ≡ [] }
{}
