//! Expressions, read without recursion.
ghost use Rattle.std.specs.Prelude.{◌≡◌, ◌<◌, ◌∷◌, drop, IfOk};
ghost use Rattle.em_script.specs.Form.{Reads};
ghost use Rattle.em_script.specs.Expressions.{applied, expression_of, expressions_of, first_of, places_of, read_expression, read_symbols};

use crate::stack::Stack;
use crate::symbol::{Symbol, is_well, places_of, symbol_of};
use crate::tokens::{Stop, Tokens};
use em_log::{Expr, List, NoMemory};
use sqlite_items::Boxed;
use std::alloc::Global;

fn boxed(alloc: Global, operand: Expr) -> Result<Boxed<Expr>, NoMemory>
    ensures { IfOk result (λ it. it ≡ operand) }
{
    match Boxed::new(alloc, operand) {
        Ok(operand) => Ok(operand),
        Err(_) => Err(NoMemory),
    }
}

/// Takes off the first expression, or 0 where there is none.
fn operand(alloc: Global, done: &mut Stack<Expr>) -> Result<Boxed<Expr>, NoMemory>
    ensures first { IfOk result (λ it. it ≡ first_of done.old) }
    ensures rest { done.new ≡ drop 1 done.old }
{
    match done.pop() {
        Some(first) => boxed(alloc, first),
        None => boxed(alloc, Expr::Number(0)),
    }
}

/// The expression that a symbol of one operand or two makes.
fn operation(alloc: Global, symbol: Symbol, done: &mut Stack<Expr>) -> Result<Expr, NoMemory>
    requires { 0 < places_of symbol }
    ensures { IfOk result (λ made. made ∷ done.new ≡ applied symbol done.old) }
{
    let first = operand(alloc, done)?;
    match symbol {
        Symbol::Word => Ok(Expr::Word(first)),
        Symbol::Cell => Ok(Expr::Cell(first)),
        Symbol::Add => Ok(Expr::Add(first, operand(alloc, done)?)),
        Symbol::Sub => Ok(Expr::Sub(first, operand(alloc, done)?)),
        Symbol::Mul => Ok(Expr::Mul(first, operand(alloc, done)?)),
        Symbol::And => Ok(Expr::And(first, operand(alloc, done)?)),
        Symbol::Or => Ok(Expr::Or(first, operand(alloc, done)?)),
        Symbol::Xor => Ok(Expr::Xor(first, operand(alloc, done)?)),
        Symbol::Shr => Ok(Expr::Shr(first, operand(alloc, done)?)),
        Symbol::Lt => Ok(Expr::Lt(first, operand(alloc, done)?)),
        Symbol::Eq => Ok(Expr::Eq(first, operand(alloc, done)?)),
        _ => unreachable!(),
    }
}

/// The expression that a symbol makes of the first expressions.
fn made(alloc: Global, symbol: Symbol, done: &mut Stack<Expr>) -> Result<Expr, NoMemory>
    ensures { IfOk result (λ made. made ∷ done.new ≡ applied symbol done.old) }
{
    match symbol {
        Symbol::Number(n) => Ok(Expr::Number(n)),
        Symbol::Var(v) => Ok(Expr::Var(v)),
        Symbol::Kind => Ok(Expr::Kind),
        Symbol::Size => Ok(Expr::Size),
        Symbol::Me => Ok(Expr::Me),
        Symbol::Queue => Ok(Expr::Queue),
        Symbol::Core => Ok(Expr::Core),
        Symbol::LastOk => Ok(Expr::LastOk),
        Symbol::FaultNumber => Ok(Expr::FaultNumber),
        Symbol::Detail => Ok(Expr::Detail),
        _ => operation(alloc, symbol, done),
    }
}

/// The expressions that symbols spell, the first one first. Read from the last symbol to the first, each operator finds
/// its operands done.
fn expressions_of(alloc: Global, symbols: &[Symbol]) -> Result<Stack<Expr>, NoMemory>
    ensures { IfOk result (λ done. done ≡ expressions_of symbols.now) }
{
    let mut done = Stack::new(alloc);
    let mut at = symbols.len();
    'symbols: while at > 0 {
        at -= 1;
        let expr = made(alloc, symbols[at], &mut done)?;
        done.push(expr)?;
    }
    Ok(done)
}

/// The expression of at most 32 symbols; 0 where there are more.
#[tactic(auto, unfolding(crate::specs::Expressions::expression_of))]
fn expression_of(alloc: Global, symbols: &[Symbol]) -> Result<Expr, NoMemory>
    ensures { IfOk result (λ expr. expr ≡ expression_of symbols.now) }
{
    if symbols.len() > 32 {
        return Ok(Expr::Number(0));
    }
    let mut done = expressions_of(alloc, symbols)?;
    match done.pop() {
        Some(expr) => Ok(expr),
        None => Ok(Expr::Number(0)),
    }
}

/// The symbols of one expression.
fn symbols(alloc: Global, line: &mut Tokens) -> Result<List<Symbol>, Stop>
    ensures { Reads result line.new (read_symbols 1 line.old.tokens line.old.rule) }
{
    let mut symbols = List::new(alloc);
    let mut places: u64 = 1;
    'symbols: while places > 0 {
        let token = line.token()?;
        let Some(symbol) = symbol_of(token) else {
            return Err(Stop::NoForm);
        };
        line.judge(6, is_well(token));
        places = places - 1 + places_of(symbol);
        symbols.push(symbol)?;
    }
    Ok(symbols)
}

/// An expression of at most 32 tokens.
#[tactic(auto, unfolding(crate::specs::Expressions::read_expression))]
pub(crate) fn expression(alloc: Global, line: &mut Tokens) -> Result<Expr, Stop>
    ensures { Reads result line.new (read_expression line.old) }
{
    let symbols = symbols(alloc, line)?;
    line.judge(10, symbols.as_slice().len() <= 32);
    Ok(expression_of(alloc, symbols.as_slice())?)
}
