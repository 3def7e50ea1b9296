//! Graphs whose boot body is one of nested rounds.
ghost use Rattle.std.specs.Prelude.{◌≡◌, ◌≤◌, ◌∷◌, [], IfOk};
ghost use Rattle.em_log.specs.WellFormed.{IsWellFormed};
ghost use Rattle.body_bench.specs.Rounds.{booting, rounds, counting};

use em_log::{Block, Config, Expr, List, NoMemory, Stmt};
use sqlite_items::Boxed;
use std::alloc::Global;

fn single(alloc: Global, statement: Stmt) -> Result<Block, NoMemory>
    ensures { IfOk result (λ block. block ≡ statement ∷ []) }
{
    let mut block = List::new(alloc);
    block.push(statement)?;
    Ok(block)
}

fn nested(alloc: Global, times: u16, block: Block) -> Result<Block, NoMemory>
    ensures { IfOk result (λ body. body ≡ rounds times block) }
{
    let inner = single(alloc, Stmt::Repeat { times: 256, block })?;
    single(
        alloc,
        Stmt::Repeat {
            times,
            block: inner,
        },
    )
}

fn graph(alloc: Global, times: u16, block: Block) -> Result<Config, NoMemory>
    ensures { IfOk result (λ config. config ≡ booting (rounds times block)) }
{
    let boot = nested(alloc, times, block)?;
    Ok(Config {
        cores: 1,
        order: List::new(alloc),
        pools: List::new(alloc),
        groups: List::new(alloc),
        eos: List::new(alloc),
        agroups: List::new(alloc),
        queues: List::new(alloc),
        egroups: List::new(alloc),
        boot,
        error: None,
    })
}

fn boxed(alloc: Global, e: Expr) -> Result<Boxed<Expr>, NoMemory>
    ensures { IfOk result (λ b. b ≡ e) }
{
    Boxed::new(alloc, e).map_err(|_| NoMemory)
}

fn counting_block(alloc: Global) -> Result<Block, NoMemory>
    ensures { IfOk result (λ block. block ≡ counting) }
{
    let one = boxed(alloc, Expr::Number(1))?;
    let value = Expr::Add(boxed(alloc, Expr::Var(0))?, one);
    single(alloc, Stmt::Set { v: 0, value })
}

/// A graph whose boot body adds 1 to a variable so many times 256 times.
pub fn counting_graph(alloc: Global, times: u16) -> Result<Config, NoMemory>
    requires some { 1 ≤ times }
    requires few { times ≤ 255 }
    ensures { IfOk result IsWellFormed }
{
    graph(alloc, times, counting_block(alloc)?)
}

/// A graph whose boot body has so many times 256 empty rounds.
pub fn empty_graph(alloc: Global, times: u16) -> Result<Config, NoMemory>
    requires some { 1 ≤ times }
    requires few { times ≤ 255 }
    ensures { IfOk result IsWellFormed }
{
    graph(alloc, times, List::new(alloc))
}
