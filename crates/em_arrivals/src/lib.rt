//! What comes to the lists of the queues, and what leaves them, in every lawful history.
#![tactic(auto)]

ghost use Rattle.em_log.specs.declared.declarations.Declarations.{Declarations};
ghost use Rattle.em_log.specs.declared.ids.Limits.{Limits};
ghost use Rattle.em_log.specs.History.{Past};
ghost use Rattle.em_log.specs.Lawful.{AllAllowed};
ghost use Rattle.em_log.specs.Arrivals.{arrivals};
ghost use Rattle.em_log.specs.Places.{gone};
ghost use Rattle.std.specs.Prelude.{ℕ, ◌≤◌, length};

/// No list has lost more than has entered it.
pub fn gone_is_within()
    ensures { (k : Declarations) (l : Limits) (past : Past) → AllAllowed k l past → (q c : ℕ) → gone k past q c ≤ length (arrivals k past q c) }
{}
