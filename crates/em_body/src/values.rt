//! The values of expressions.
ghost use Rattle.std.specs.Prelude.{◌≡◌, slice_index};
ghost use Rattle.std.specs.Option.{option_map};
ghost use Rattle.em_body.specs.Environments.{env_of};
ghost use Rattle.em_log.specs.Expressions.{value as value_of, cell_at as cell_of};

use crate::environment::Environment;
use em_log::body::Expr;
use em_log::ids::Cells;

/// The item at this index, or 0 past the last.
fn item_at(items: &[u64], i: u64) -> u64
    ensures { result ≡ slice_index items.now i }
{
    if i < items.len() as u64 {
        items[i as usize]
    } else {
        0
    }
}

/// The cell of this number modulo 8, or 0 where there are none.
fn cell_at(cells: &Option<Cells>, i: u64) -> u64
    ensures { result ≡ cell_of (option_map (λ cs. cs.0) cells.now) i }
{
    match cells {
        Some(cells) => cells.0[(i % 8) as usize],
        None => 0,
    }
}

/// The value of an expression.
pub fn value(e: &Expr, v: &Environment) -> u64
    ensures { result ≡ value_of e.now (env_of v.now) }
{
    match e {
        Expr::Number(n) => *n,
        Expr::Var(i) => item_at(&v.variables, *i as u64),
        Expr::Kind => v.kind as u64,
        Expr::Size => v.words.as_slice().len() as u64,
        Expr::Word(i) => item_at(v.words.as_slice(), value(i.get(), v)),
        Expr::Me => v.me,
        Expr::Queue => v.queue.0 as u64,
        Expr::Core => v.core.0 as u64,
        Expr::Cell(i) => cell_at(&v.cells, value(i.get(), v)),
        Expr::LastOk => v.ok as u64,
        Expr::FaultNumber => v.fault,
        Expr::Detail => v.detail,
        Expr::Add(a, b) => value(a.get(), v).wrapping_add(value(b.get(), v)),
        Expr::Sub(a, b) => value(a.get(), v).wrapping_sub(value(b.get(), v)),
        Expr::Mul(a, b) => value(a.get(), v).wrapping_mul(value(b.get(), v)),
        Expr::And(a, b) => value(a.get(), v) & value(b.get(), v),
        Expr::Or(a, b) => value(a.get(), v) | value(b.get(), v),
        Expr::Xor(a, b) => value(a.get(), v) ^ value(b.get(), v),
        Expr::Shr(a, b) => value(a.get(), v) >> (value(b.get(), v) % 64),
        Expr::Lt(a, b) => (value(a.get(), v) < value(b.get(), v)) as u64,
        Expr::Eq(a, b) => (value(a.get(), v) == value(b.get(), v)) as u64,
    }
}

#[cfg(test)]
mod tests;
