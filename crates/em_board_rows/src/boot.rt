//! A board over a graph of one core and of boot alone.
ghost use Rattle.std.specs.Prelude.{◌≡◌, [], ◌∷◌, true, false, IfOk, OnErr};
ghost use Rattle.em_log.specs.Declarations.{declarations_of};
ghost use Rattle.em_board.specs.Passes.{AreAll};
ghost use Rattle.em_board_rows.specs.Cores.{IsPlainRun, is_context};
ghost use Rattle.em_board_rows.specs.Graphs.{boot_graph};
ghost use Rattle.em_board_rows.specs.Passes.{IsOf, rights};

use em_board::{Board, Pass, Passes};
use em_log::{Answer, Ask, Config, Limits, List, Locals, NoMemory};
use std::alloc::Global;
use std::sync::Wait;

const LIMITS: Limits = Limits {
    receives: 10,
    burst: 1,
};

fn graph(alloc: Global) -> Config
    ensures { declarations_of result ≡ boot_graph }
{
    Config {
        cores: 1,
        order: List::new(alloc),
        pools: List::new(alloc),
        groups: List::new(alloc),
        eos: List::new(alloc),
        agroups: List::new(alloc),
        queues: List::new(alloc),
        egroups: List::new(alloc),
        boot: List::new(alloc),
        error: None,
    }
}

/// The board, its one pass, and a list for it. Err is want of memory.
pub fn build_boot(alloc: Global) -> Result<(Board, Pass, Passes), NoMemory>
    ensures at { IfOk result (λ r. IsOf IsPlainRun r.0 false r.1) }
    ensures rest { IfOk result (λ r. r.2 ≡ []) }
    ensures all { IfOk result (λ r. AreAll r.0 (r.1 ∷ [])) }
{
    let (board, mut passes) = Board::build(alloc, &graph(alloc), LIMITS)?;
    let Some(pass) = passes.pop() else {
        unreachable!()
    };
    Ok((board, pass, passes))
}

/// A take between contexts. Err is want of memory.
pub fn take_alone(wait: &impl Wait, board: &Board, pass: &mut Pass) -> Result<Answer, NoMemory>
    requires between { IsOf IsPlainRun board.now false pass.old }
    ensures ok { IfOk result (λ x. IsOf IsPlainRun board.now (is_context x) pass.new) }
    ensures same { rights pass.new ≡ rights pass.old }
{
    let reply = board.take(wait, pass, &Locals::new())?;
    Ok(reply.answer)
}

/// The end of a context.
pub fn end_alone(wait: &impl Wait, board: &Board, pass: &mut Pass) -> Answer
    requires inside { IsOf IsPlainRun board.now true pass.old }
    ensures between { IsOf IsPlainRun board.now false pass.new }
    ensures same { rights pass.new ≡ rights pass.old }
{
    board.ask(wait, pass, Ask::End(None), &Locals::new()).answer
}

/// A halt between contexts.
pub fn halt_alone(wait: &impl Wait, board: &Board, pass: &mut Pass)
    requires between { IsOf IsPlainRun board.now false pass.old }
    ensures between { IsOf IsPlainRun board.now false pass.new }
    ensures same { rights pass.new ≡ rights pass.old }
{
    board.halt(wait, pass);
}

/// The closed desk's number of entries.
pub fn close_alone(board: Board, pass: Pass, mut passes: Passes) -> usize
    requires none { passes ≡ [] }
    requires all { AreAll board (pass ∷ []) }
{
    passes.push(pass);
    board.close(passes).log().len()
}
