//! Bodies: what a script's statements do, one ask at a time.
#![tactic(auto)]

mod asks;
mod environment;
mod faults;
pub mod run;
mod stack;
mod standing;
mod values;

ghost use Rattle.em_body.specs.AskLaws.{AsksAreOfStatements, AsksMayStand, CellsComeWithContexts};
ghost use Rattle.em_body.specs.Followed.{BodiesAreFollowed, ContextsAreBounded, EndsWhereNothingIsLeft, LeadsAreRead, SilentWhereNothingIsAsked, StepsAreBounded, StepsFall};

pub use run::BodyRun;

/// A body is followed: in each state that a context reaches, the asks with the entries that their answers are read from
/// are the pairs of the reading of its body, and the body goes on from there as what is left of it.
pub fn bodies_are_followed()
    ensures { BodiesAreFollowed }
{}

/// A body ends exactly where nothing is left of it.
pub fn ends_where_nothing_is_left()
    ensures { EndsWhereNothingIsLeft }
{}

/// A silent move carries out one statement, which asks nothing.
pub fn silent_where_nothing_is_asked()
    ensures { SilentWhereNothingIsAsked }
{}

/// In each context of a well-formed graph the costs of the asks add up to at most 256, and at most 65,536 statements
/// are carried out.
pub fn contexts_are_bounded()
    ensures { ContextsAreBounded }
{}

/// The entry that an ask gives in a history is one that its answer is read from, so that what is said of a body and its
/// answers holds along the entries of a history.
pub fn leads_are_read()
    ensures { LeadsAreRead }
{}

/// In each state that a context reaches, an unanswered ask is that of a statement of the context's body or of the error body
/// that serves it, which asks in the environment of that state: a test that all statements of both pass is passed by this one.
pub fn asks_are_of_statements()
    ensures { AsksAreOfStatements }
{}

/// In a well-formed graph each ask of a context may stand in it, and all that the ask names is declared.
pub fn asks_may_stand()
    ensures { AsksMayStand }
{}

/// In a context of a well-formed graph at most 65,536 steps are left, and each move but the end leaves fewer.
pub fn steps_run_out()
    ensures bounded { StepsAreBounded }
    ensures fall { StepsFall }
{}

/// Where a context comes without cells, its environment has none at any time.
pub fn cells_come_with_contexts()
    ensures { CellsComeWithContexts }
{}
