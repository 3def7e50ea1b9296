//! Further laws that a reader of a history expects.
ghost use Rattle.std.specs.Prelude.{◌≡◌, ◌<◌, ℕ, List, [], ◌∷◌, ◌++◌, Option};
ghost use Rattle.em_log.specs.declared.declarations.Declarations.{Declarations};
ghost use Rattle.em_log.specs.declared.entry.Entry.{Entry};
ghost use Rattle.em_log.specs.declared.entry.What.{What};
ghost use Rattle.em_log.specs.declared.fault.Fault.{Fault};
ghost use Rattle.em_log.specs.declared.fault.Call.{Call};
ghost use Rattle.em_log.specs.declared.graph.Config.{Config};
ghost use Rattle.em_log.specs.declared.ids.EoId.{EoId};
ghost use Rattle.em_log.specs.declared.ids.Limits.{Limits};
ghost use Rattle.em_log.specs.Declarations.{declarations_of};
ghost use Rattle.em_log.specs.WellFormed.{IsWellFormed};
ghost use Rattle.em_log.specs.History.{Past, entry_by, onto};
ghost use Rattle.em_log.specs.Tails.{tail};
ghost use Rattle.em_log.specs.Lawful.{Begins, AllAllowed, Lawful, due};
ghost use Rattle.em_log.specs.Laws.{AreDifferent};
ghost use Rattle.em_laws.specs.Minted.{minted, HasSmallIndices};
ghost use Rattle.em_laws.specs.Unchanged.{IsRefusal};

/// No handle is minted twice, where the indices of all events are below 65,536.
pub fn minted_once()
    ensures { (k : Declarations) (l : Limits) (past : Past) → HasSmallIndices k → Lawful k l past → AreDifferent (minted past) }
{}

/// No handle is minted twice in a lawful history of a well-formed graph.
pub fn minted_once_of_graph()
    ensures { (graph : Config) (l : Limits) (past : Past) → IsWellFormed graph → Lawful (declarations_of graph) l past
        → AreDifferent (minted past) }
{}

/// A refusal changes no part: every place, arrival, holder, state, mask, owed step and count stands as before it, and no
/// refusal but that of a `fail` makes a global start fail.
pub fn fault_changes_nothing()
    ensures { (k : Declarations) (past : Past) (c : ℕ) (call : Call) (fault : Fault) (scope : Option EoId)
        → IsRefusal k past c fault (entry_by c (What.Fault call fault scope) ∷ past) }
{}

/// What is due after allowed entries may be appended, one entry after another, and then nothing is due.
pub fn due_completes()
    ensures { (k : Declarations) (l : Limits) (past : Past) → AllAllowed k l past → Lawful k l (onto (due k past) past) }
{}

/// A lawful history with one more block, the entry of a core of the graph and all that follows it, is lawful.
pub fn block_is_lawful()
    ensures { (k : Declarations) (l : Limits) (past : Past) (e : Entry) → e.core.0 < k.cores → Lawful k l past
        → Begins k l past e.core.0 e.what → Lawful k l (onto (tail k past e) (e ∷ past)) }
{}

/// Each prefix of a lawful history at which nothing is due is lawful; `new` are the entries after it, newest first.
pub fn prefix_is_lawful()
    ensures { (k : Declarations) (l : Limits) (new : List Entry) (past : Past) → Lawful k l (new ++ past) → due k past ≡ []
        → Lawful k l past }
{}
