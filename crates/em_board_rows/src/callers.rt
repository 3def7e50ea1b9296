//! Calls of a pass in a run of one queue, and what its caller knows after each.
ghost use Rattle.std.specs.Prelude.{◌≡◌, ◌+◌, ◌≤◌, true, false, IfOk, OnErr, IsTrue};
ghost use Rattle.em_log.specs.Allowance.{cost_of_ask};
ghost use Rattle.em_board_rows.specs.Cores.{is_context, is_plain};
ghost use Rattle.em_board_rows.specs.Passes.{IsAt, left_of, rights};

use em_board::{Board, Pass};
use em_log::{Answer, Ask, Locals, NoMemory};
use std::sync::Wait;

/// A take between contexts. A context that it opens has its whole allowance left. Err is want of memory.
pub fn take(wait: &impl Wait, board: &Board, pass: &mut Pass) -> Result<Answer, NoMemory>
    requires between { IsAt board.now false pass.old }
    ensures ok { IfOk result (λ x. IsAt board.now (is_context x) pass.new) }
    ensures room { IfOk result (λ x. is_context x ≡ true → 256 ≤ left_of pass.new) }
    ensures err { OnErr result (IsAt board.now false pass.new) }
    ensures same { rights pass.new ≡ rights pass.old }
{
    let reply = board.take(wait, pass, &Locals::new())?;
    Ok(reply.answer)
}

/// An ask in a context that has enough left of its allowance.
pub fn ask(wait: &impl Wait, board: &Board, pass: &mut Pass, ask: Ask) -> Answer
    requires inside { IsAt board.now true pass.old }
    requires plain { IsTrue (is_plain ask) }
    requires room { cost_of_ask ask ≤ left_of pass.old }
    ensures inside { IsAt board.now true pass.new }
    ensures room { left_of pass.old ≤ left_of pass.new + cost_of_ask ask }
    ensures same { rights pass.new ≡ rights pass.old }
{
    ask.is_typed();
    board.ask(wait, pass, ask, &Locals::new()).answer
}

/// The end of a context.
pub fn end(wait: &impl Wait, board: &Board, pass: &mut Pass)
    requires inside { IsAt board.now true pass.old }
    ensures between { IsAt board.now false pass.new }
    ensures same { rights pass.new ≡ rights pass.old }
{
    let _ = board.ask(wait, pass, Ask::End(None), &Locals::new());
}

/// A halt between contexts.
pub fn halt(wait: &impl Wait, board: &Board, pass: &mut Pass)
    requires between { IsAt board.now false pass.old }
    ensures between { IsAt board.now false pass.new }
    ensures same { rights pass.new ≡ rights pass.old }
{
    board.halt(wait, pass);
}
