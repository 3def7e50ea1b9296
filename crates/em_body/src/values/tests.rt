use super::value;
use crate::environment::Environment;
use em_log::{Cells, CoreId, Expr, QueueId, Words};
use sqlite_items::Boxed;
use std::alloc::{AllocError, Global};
use std::process::Abort;
use std::test::Fail;

const MAX: u64 = 18446744073709551615;

const HALF: u64 = 9223372036854775808;

const WORD: u64 = 4294967296;

fn check(rt: &impl Abort, v: &Environment, rows: &[(Expr, u64)]) {
    for row in rows {
        assert_eq!(rt; value(&row.0, v), row.1, "{:?}", row.0);
    }
}

/// Each row is a part and the value of the form of it.
fn one<F: Fn(Boxed<Expr>) -> Expr>(
    rt: &impl Abort,
    alloc: Global,
    v: &Environment,
    form: F,
    rows: &[(u64, u64)],
) -> Result<(), AllocError>
    requires { F.IsAlwaysCallable form }
{
    for row in rows {
        let e = form(Boxed::new(alloc, Expr::Number(row.0))?);
        assert_eq!(rt; value(&e, v), row.1, "{e:?}");
    }
    Ok(())
}

/// Each row is two parts and the value of the form of them.
fn two<F: Fn(Boxed<Expr>, Boxed<Expr>) -> Expr>(
    rt: &impl Abort,
    alloc: Global,
    v: &Environment,
    form: F,
    rows: &[(u64, u64, u64)],
) -> Result<(), AllocError>
    requires { F.IsAlwaysCallable form }
{
    for row in rows {
        let left = Boxed::new(alloc, Expr::Number(row.0))?;
        let e = form(left, Boxed::new(alloc, Expr::Number(row.1))?);
        assert_eq!(rt; value(&e, v), row.2, "{e:?}");
    }
    Ok(())
}

#[test]
fn plain_values(rt: HostRuntime) -> Result<(), Fail> {
    let alloc = rt.alloc();
    let mut v = Environment::plain(CoreId(2));
    check(
        &rt,
        &v,
        &[
            (Expr::Kind, 0),
            (Expr::Size, 0),
            (Expr::Me, 0),
            (Expr::Queue, 0),
            (Expr::Var(15), 0),
        ],
    );
    one(&rt, alloc, &v, Expr::Word, &[(0, 0)])?;
    one(&rt, alloc, &v, Expr::Cell, &[(8, 0)])?;
    v.variables[3] = 7;
    v.kind = 4294967295;
    v.me = 65536;
    v.queue = QueueId(9);
    v.cells = Some(Cells([100, 101, 102, 103, 104, 105, 106, 107]));
    check(
        &rt,
        &v,
        &[
            (Expr::Number(MAX), MAX),
            (Expr::Var(3), 7),
            (Expr::Kind, 4294967295),
            (Expr::Me, 65536),
            (Expr::Queue, 9),
            (Expr::Core, 2),
        ],
    );
    check(
        &rt,
        &v,
        &[(Expr::LastOk, 1), (Expr::FaultNumber, 0), (Expr::Detail, 0)],
    );
    one(
        &rt,
        alloc,
        &v,
        Expr::Cell,
        &[(1, 101), (8, 100), (MAX, 107)],
    )?;
    Ok(())
}

#[test]
fn words_of_the_event(rt: HostRuntime) -> Result<(), Fail> {
    let mut v = Environment::plain(CoreId(2));
    let mut words = Words::new();
    words.push(10);
    words.push(20);
    words.push(MAX);
    v.words = words;
    check(&rt, &v, &[(Expr::Size, 3)]);
    one(
        &rt,
        rt.alloc(),
        &v,
        Expr::Word,
        &[(0, 10), (2, MAX), (3, 0), (MAX, 0)],
    )?;
    Ok(())
}

#[test]
fn arithmetic(rt: HostRuntime) -> Result<(), Fail> {
    let alloc = rt.alloc();
    let v = Environment::plain(CoreId(0));
    two(
        &rt,
        alloc,
        &v,
        Expr::Add,
        &[(2, 3, 5), (MAX, 1, 0), (MAX, MAX, 18446744073709551614)],
    )?;
    two(
        &rt,
        alloc,
        &v,
        Expr::Sub,
        &[(7, 5, 2), (5, 7, 18446744073709551614), (0, MAX, 1)],
    )?;
    two(
        &rt,
        alloc,
        &v,
        Expr::Mul,
        &[
            (6, 7, 42),
            (HALF, 2, 0),
            (MAX, MAX, 1),
            (WORD, 4294967297, WORD),
        ],
    )?;
    Ok(())
}

#[test]
fn bits(rt: HostRuntime) -> Result<(), Fail> {
    let alloc = rt.alloc();
    let v = Environment::plain(CoreId(0));
    two(&rt, alloc, &v, Expr::And, &[(12, 10, 8)])?;
    two(&rt, alloc, &v, Expr::Or, &[(12, 10, 14)])?;
    two(&rt, alloc, &v, Expr::Xor, &[(12, 10, 6)])?;
    two(
        &rt,
        alloc,
        &v,
        Expr::Shr,
        &[
            (256, 4, 16),
            (MAX, 63, 1),
            (5, 64, 5),
            (6, 65, 3),
            (MAX, 127, 1),
        ],
    )?;
    Ok(())
}

#[test]
fn tests_of_numbers(rt: HostRuntime) -> Result<(), Fail> {
    let alloc = rt.alloc();
    let v = Environment::plain(CoreId(0));
    two(
        &rt,
        alloc,
        &v,
        Expr::Lt,
        &[(1, 2, 1), (2, 2, 0), (MAX, 0, 0)],
    )?;
    two(&rt, alloc, &v, Expr::Eq, &[(MAX, MAX, 1), (0, MAX, 0)])?;
    Ok(())
}
