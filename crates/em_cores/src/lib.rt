//! What the entries of some cores leave of another: its part of the history, its open context and what it holds. The
//! function does nothing: its contract is the law.
#![tactic(auto)]

ghost use Rattle.std.specs.Prelude.{ℕ, List};
ghost use Rattle.em_log.specs.declared.declarations.Declarations.{Declarations};
ghost use Rattle.em_log.specs.declared.entry.Entry.{Entry};
ghost use Rattle.em_log.specs.declared.ids.Limits.{Limits};
ghost use Rattle.em_log.specs.History.{Past, onto};
ghost use Rattle.em_log.specs.Lawful.{AllAllowed};
ghost use Rattle.em_laws.specs.Minted.{HasSmallIndices};
ghost use Rattle.em_cores.specs.Others.{AreOfOthers, IsSameFor};

/// Entries of other cores leave a core's own part of the history as it was: its open context with its object, the asks
/// made in it and what is left of its allowance, the events that it has taken, the handles that it holds, and the
/// atomic context that it holds.
pub fn others_stay()
    ensures { (k : Declarations) (l : Limits) (past : Past) (c : ℕ) (es : List Entry) → HasSmallIndices k → AllAllowed k l (onto es past) → AreOfOthers c es → IsSameFor k past (onto es past) c }
{}
