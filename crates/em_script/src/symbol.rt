//! The symbols of which expressions are made, each spelled by one token.
ghost use Rattle.std.specs.Prelude.{◌≡◌};
ghost use Rattle.em_script.specs.Form.{lookup};
ghost use Rattle.em_script.specs.Expressions.{symbol_of, symbol_words, operator_words, places_of, is_well};

use crate::numbers::{is_digits, variable_of, within};
use crate::tokens::is;

/// A symbol: an operand, or an operator that stands before its operands.
#[derive(Clone, Copy, Debug, PartialEq, Eq)]
pub enum Symbol {
    Number(u64),
    Var(u8),
    Kind,
    Size,
    Word,
    Me,
    Queue,
    Core,
    Cell,
    LastOk,
    FaultNumber,
    Detail,
    Add,
    Sub,
    Mul,
    And,
    Or,
    Xor,
    Shr,
    Lt,
    Eq,
}

/// How many expressions stand behind a symbol.
pub(crate) fn places_of(symbol: Symbol) -> u64
    ensures { result ≡ places_of symbol }
{
    match symbol {
        Symbol::Word | Symbol::Cell => 1,
        Symbol::Add
        | Symbol::Sub
        | Symbol::Mul
        | Symbol::And
        | Symbol::Or
        | Symbol::Xor
        | Symbol::Shr
        | Symbol::Lt
        | Symbol::Eq => 2,
        _ => 0,
    }
}

/// The symbol of a word.
fn named(token: &[u8]) -> Option<Symbol>
    ensures { result ≡ lookup token.now symbol_words }
{
    if is(token, "kind") {
        return Some(Symbol::Kind);
    }
    if is(token, "size") {
        return Some(Symbol::Size);
    }
    if is(token, "word") {
        return Some(Symbol::Word);
    }
    if is(token, "me") {
        return Some(Symbol::Me);
    }
    if is(token, "queue") {
        return Some(Symbol::Queue);
    }
    if is(token, "core") {
        return Some(Symbol::Core);
    }
    if is(token, "cell") {
        return Some(Symbol::Cell);
    }
    if is(token, "ok") {
        return Some(Symbol::LastOk);
    }
    if is(token, "fault") {
        return Some(Symbol::FaultNumber);
    }
    if is(token, "detail") {
        return Some(Symbol::Detail);
    }
    operator(token)
}

/// The symbol of an operator of two operands.
fn operator(token: &[u8]) -> Option<Symbol>
    ensures { result ≡ lookup token.now operator_words }
{
    if is(token, "add") {
        return Some(Symbol::Add);
    }
    if is(token, "sub") {
        return Some(Symbol::Sub);
    }
    if is(token, "mul") {
        return Some(Symbol::Mul);
    }
    if is(token, "and") {
        return Some(Symbol::And);
    }
    if is(token, "or") {
        return Some(Symbol::Or);
    }
    if is(token, "xor") {
        return Some(Symbol::Xor);
    }
    if is(token, "shr") {
        return Some(Symbol::Shr);
    }
    if is(token, "lt") {
        return Some(Symbol::Lt);
    }
    if is(token, "eq") {
        return Some(Symbol::Eq);
    }
    None
}

/// The symbol that a token spells. A number that is spelled badly or above 64 bits is 0.
#[tactic(auto, unfolding(crate::specs::Expressions::symbol_of))]
pub(crate) fn symbol_of(token: &[u8]) -> Option<Symbol>
    ensures { result ≡ symbol_of token.now }
{
    if is_digits(token) {
        return Some(Symbol::Number(within(0, u64::MAX, token).unwrap_or(0)));
    }
    if let Some(v) = variable_of(token) {
        return Some(Symbol::Var(v));
    }
    named(token)
}

/// Whether the token, where it is a number, is spelled well and within 64 bits.
#[tactic(auto, unfolding(crate::specs::Expressions::is_well))]
pub(crate) fn is_well(token: &[u8]) -> bool
    ensures { result ≡ is_well token.now }
{
    !is_digits(token) || within(0, u64::MAX, token).is_some()
}
