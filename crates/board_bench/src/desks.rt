//! Calls of a desk of one queue, and what they leave of each core.
ghost use Rattle.std.specs.Prelude.{◌≡◌, ◌<◌, ◌≤◌, ◌+◌, true, false, is_some, IsTrue};
ghost use Rattle.em_log.specs.Allowance.{cost_of_ask, left};
ghost use Rattle.em_log.specs.Contexts.{context};
ghost use Rattle.em_board_rows.specs.Cores.{HasOneQueue, is_context, is_plain};
ghost use Rattle.board_bench.specs.Known.{LeavesOthers};

use em_desk::Desk;
use em_log::{Answer, Ask, CoreId, Locals};

/// A take between contexts. Want of memory is told as if there were nothing to do for now.
pub fn take_of(desk: &mut Desk, core: CoreId) -> Answer
    requires run { HasOneQueue desk.old.declarations desk.old.limits }
    requires core { core.0 < desk.old.declarations.cores }
    requires between { is_some (context desk.old.past core.0) ≡ false }
    ensures inside { is_some (context desk.new.past core.0) ≡ is_context result }
    ensures whole { is_context result ≡ true → 256 ≤ left desk.old.declarations desk.new.past core.0 }
    ensures others { LeavesOthers core.0 desk.old desk.new }
{
    let _log = desk.log();
    match desk.take(core, &Locals::new()) {
        Ok(reply) => reply.answer,
        Err(_) => Answer::Idle,
    }
}

/// An ask in a context that has enough left.
pub fn ask_of(desk: &mut Desk, core: CoreId, ask: Ask) -> Answer
    requires run { HasOneQueue desk.old.declarations desk.old.limits }
    requires core { core.0 < desk.old.declarations.cores }
    requires inside { is_some (context desk.old.past core.0) ≡ true }
    requires plain { IsTrue (is_plain ask) }
    requires room { cost_of_ask ask ≤ left desk.old.declarations desk.old.past core.0 }
    ensures inside { is_some (context desk.new.past core.0) ≡ true }
    ensures room { left desk.old.declarations desk.old.past core.0 ≤ left desk.old.declarations desk.new.past core.0 + cost_of_ask ask }
    ensures others { LeavesOthers core.0 desk.old desk.new }
{
    let _log = desk.log();
    ask.is_typed();
    desk.ask(core, ask, &Locals::new()).answer
}

/// The end of a context.
pub fn end_of(desk: &mut Desk, core: CoreId)
    requires run { HasOneQueue desk.old.declarations desk.old.limits }
    requires core { core.0 < desk.old.declarations.cores }
    requires inside { is_some (context desk.old.past core.0) ≡ true }
    ensures between { is_some (context desk.new.past core.0) ≡ false }
    ensures others { LeavesOthers core.0 desk.old desk.new }
{
    let _log = desk.log();
    let _ = desk.ask(core, Ask::End(None), &Locals::new());
}
