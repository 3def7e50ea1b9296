//! What each statement asks and leaves, and a whole body.
ghost use Rattle.std.specs.Prelude.{◌≡◌, ◌≤◌, ◌∷◌, [], IfOk, IsTrue, None, length};
ghost use Rattle.em_log.specs.WellFormed.{IsWellFormed};
ghost use Rattle.em_log.specs.Works.{fits as fits_by};
ghost use Rattle.em_body.specs.Example.{example, counting};
ghost use Rattle.em_body.specs.Standings.{is_small, unanswered};

mod bodies;

use super::*;
use em_log::{
    Ask, Block, Decl, EoDecl, EoId, Event, EventGroupId, Expr, Fault, Given, GroupId, Handle, Kind,
    List, Name, NoMemory, OpId, PoolId, Priority, QueueDecl, QueueId, Receive, Rest, Words,
};
use std::alloc::Global;
use std::process::Abort;
use std::test::Fail;

const CELLS: Cells = Cells([40, 41, 42, 43, 44, 45, 46, 47]);

fn event(handle: u64, kind: u32, words: &[u64]) -> Event
    requires { length words.now ≤ 16 }
{
    let mut kept = Words::new();
    for word in words {
        kept.push(*word);
    }
    Event {
        handle: Handle(handle),
        kind,
        words: kept,
    }
}

fn received(cells: Option<Cells>) -> Context {
    Context::Receive(Receive {
        queue: QueueId(3),
        eo: EoId(0),
        event: event(65536, 7, &[5, 6]),
        stamp: None,
        ticket: None,
        cells,
        rest: Rest::new(),
    })
}

// one statement

/// Carries out the statement in a receive with these cells, where variable 0 is 9, and answers its ask. Compares its move,
/// and after it whether the ask was accepted, the variable, the event's kind and size, and the first cells.
fn compare(
    rt: &impl Abort,
    alloc: Global,
    cells: Option<Cells>,
    s: &Stmt,
    answer: &Answer,
    want: &str,
) -> Result<(), Fail>
    requires { IsTrue (is_small s.now) }
{
    let mut standing = Standing::new(Environment::opening(CoreId(2), &received(cells)));
    standing.environment.set(0, 9);
    let made = standing.carry_out(s);
    standing.answered(answer);
    let v = &standing.environment;
    let cell = match v.cells {
        Some(cells) => cells.0[1],
        None => 0,
    };
    let (ok, variable, kind, size) = (v.ok, v.variables[0], v.kind, v.words.as_slice().len());
    let text = format!(in alloc; "{made:?} {ok} {variable} {kind} {size} {cell}")?;
    assert_eq!(rt; text.as_str(), want);
    Ok(())
}

fn row(rt: &impl Abort, alloc: Global, s: &Stmt, answer: &Answer, want: &str) -> Result<(), Fail>
    requires { IsTrue (is_small s.now) }
{
    compare(rt, alloc, Some(CELLS), s, answer, want)
}

#[test]
fn cells(rt: HostRuntime) -> Result<(), Fail> {
    let alloc = rt.alloc();
    let write = Stmt::CellWrite {
        cell: Expr::Number(9),
        value: Expr::Number(77),
    };
    let refused = Answer::Refused(Fault::NotAtomic);
    row(&rt, alloc, &write, &Answer::Done, "Silent true 9 7 2 77")?;
    compare(
        &rt,
        alloc,
        None,
        &write,
        &refused,
        "Ask(Cell) false 9 7 2 0",
    )?;
    row(
        &rt,
        alloc,
        &Stmt::EndAtomic,
        &Answer::Done,
        "Ask(EndAtomic(Cells([40, 41, 42, 43, 44, 45, 46, 47]))) true 9 7 2 0",
    )?;
    compare(
        &rt,
        alloc,
        None,
        &Stmt::EndAtomic,
        &refused,
        "Ask(EndAtomic(Cells([0, 0, 0, 0, 0, 0, 0, 0]))) false 9 7 2 0",
    )?;
    Ok(())
}

#[test]
fn handles(rt: HostRuntime) -> Result<(), Fail> {
    let alloc = rt.alloc();
    let spent = Answer::Refused(Fault::SpentByFree(4));
    row(
        &rt,
        alloc,
        &Stmt::Say(Expr::Number(3)),
        &Answer::Done,
        "Ask(Say(3)) true 9 7 2 41",
    )?;
    row(
        &rt,
        alloc,
        &Stmt::Free(Expr::Me),
        &Answer::Done,
        "Ask(Free(65536)) true 9 7 2 41",
    )?;
    row(
        &rt,
        alloc,
        &Stmt::Free(Expr::Me),
        &spent,
        "Ask(Free(65536)) false 9 7 2 41",
    )?;
    row(
        &rt,
        alloc,
        &Stmt::Keep(Expr::Me),
        &Answer::Done,
        "Ask(Keep(65536)) true 9 7 2 41",
    )?;
    Ok(())
}

#[test]
fn ends(rt: HostRuntime) -> Result<(), Fail> {
    let alloc = rt.alloc();
    row(
        &rt,
        alloc,
        &Stmt::EndOrdered,
        &Answer::Refused(Fault::NotOrdered),
        "Ask(EndOrdered) false 9 7 2 41",
    )?;
    row(
        &rt,
        alloc,
        &Stmt::EndGroup,
        &Answer::Done,
        "Ask(EndGroup) true 9 7 2 41",
    )?;
    row(
        &rt,
        alloc,
        &Stmt::Fail,
        &Answer::Refused(Fault::StartFailed(OpId(5))),
        "Ask(Fail) false 9 7 2 41",
    )?;
    Ok(())
}

fn allocates(alloc: Global) -> Result<Stmt, NoMemory>
    ensures { IfOk result (λ s. IsTrue (is_small s)) }
{
    let mut words = List::new(alloc);
    words.push(Expr::Var(0))?;
    words.push(Expr::Me)?;
    Ok(Stmt::Alloc {
        v: 0,
        pool: PoolId(0),
        kind: Expr::Number(4294967297),
        words,
    })
}

#[test]
fn allocated(rt: HostRuntime) -> Result<(), Fail> {
    let alloc = rt.alloc();
    let s = allocates(alloc)?;
    let minted = Answer::Minted(event(131072, 1, &[9, 65536]));
    row(
        &rt,
        alloc,
        &s,
        &minted,
        "Ask(Alloc { pool: PoolId(0), kind: 1, words: Words { items: [9, 65536] } }) true 131072 7 2 41",
    )?;
    row(
        &rt,
        alloc,
        &s,
        &Answer::Refused(Fault::PoolEmpty(4)),
        "Ask(Alloc { pool: PoolId(0), kind: 1, words: Words { items: [9, 65536] } }) false 0 7 2 41",
    )?;
    Ok(())
}

#[test]
fn brought(rt: HostRuntime) -> Result<(), Fail> {
    let alloc = rt.alloc();
    let minted = Answer::Minted(event(131072, 8, &[1, 2, 3]));
    let claim = Stmt::Claim { v: 0 };
    row(&rt, alloc, &claim, &minted, "Ask(Claim) true 131072 8 3 41")?;
    row(
        &rt,
        alloc,
        &claim,
        &Answer::Nothing,
        "Ask(Claim) true 0 7 2 41",
    )?;
    let dequeue = Stmt::Dequeue {
        v: 0,
        queue: QueueId(1),
    };
    row(
        &rt,
        alloc,
        &dequeue,
        &minted,
        "Ask(Dequeue(QueueId(1))) true 131072 8 3 41",
    )?;
    row(
        &rt,
        alloc,
        &dequeue,
        &Answer::Nothing,
        "Ask(Dequeue(QueueId(1))) true 0 7 2 41",
    )?;
    row(
        &rt,
        alloc,
        &dequeue,
        &Answer::Refused(Fault::WrongKind(Kind::Parallel)),
        "Ask(Dequeue(QueueId(1))) false 0 7 2 41",
    )?;
    Ok(())
}

#[test]
fn queues(rt: HostRuntime) -> Result<(), Fail> {
    let alloc = rt.alloc();
    let send = Stmt::Send {
        word: Expr::Me,
        queue: QueueId(1),
    };
    row(
        &rt,
        alloc,
        &send,
        &Answer::Done,
        "Ask(Send { word: 65536, queue: QueueId(1), group: None }) true 9 7 2 41",
    )?;
    let send = Stmt::SendG {
        word: Expr::Me,
        queue: QueueId(1),
        group: EventGroupId(2),
    };
    let idle = Answer::Refused(Fault::GroupIdle(EventGroupId(2)));
    row(
        &rt,
        alloc,
        &send,
        &idle,
        "Ask(Send { word: 65536, queue: QueueId(1), group: Some(EventGroupId(2)) }) false 9 7 2 41",
    )?;
    row(
        &rt,
        alloc,
        &Stmt::Enable(QueueId(1)),
        &Answer::Done,
        "Ask(Enable(QueueId(1))) true 9 7 2 41",
    )?;
    row(
        &rt,
        alloc,
        &Stmt::Disable(QueueId(1)),
        &Answer::Done,
        "Ask(Disable(QueueId(1))) true 9 7 2 41",
    )?;
    Ok(())
}

fn notes(alloc: Global) -> Result<List<(Expr, QueueId)>, NoMemory>
    ensures { IfOk result (λ ns. length ns ≡ 1) }
{
    let mut notes = List::new(alloc);
    notes.push((Expr::Var(0), QueueId(1)))?;
    Ok(notes)
}

#[test]
fn event_groups(rt: HostRuntime) -> Result<(), Fail> {
    let alloc = rt.alloc();
    let apply = Stmt::Apply {
        group: EventGroupId(2),
        count: Expr::Number(3),
        notes: notes(alloc)?,
    };
    row(
        &rt,
        alloc,
        &apply,
        &Answer::Done,
        "Ask(Apply { group: EventGroupId(2), count: 3, notes: Notes { items: [Note { word: 9, queue: QueueId(1) }] } }) true 9 7 2 41",
    )?;
    row(
        &rt,
        alloc,
        &Stmt::Increment(Expr::Number(4)),
        &Answer::Done,
        "Ask(Increment(4)) true 9 7 2 41",
    )?;
    row(
        &rt,
        alloc,
        &Stmt::Abort(EventGroupId(2)),
        &Answer::Done,
        "Ask(Abort(EventGroupId(2))) true 9 7 2 41",
    )?;
    Ok(())
}

#[test]
fn operations(rt: HostRuntime) -> Result<(), Fail> {
    let alloc = rt.alloc();
    let start = Stmt::Start {
        eo: EoId(4),
        notes: notes(alloc)?,
    };
    row(
        &rt,
        alloc,
        &start,
        &Answer::Done,
        "Ask(Start { eo: EoId(4), notes: Notes { items: [Note { word: 9, queue: QueueId(1) }] } }) true 9 7 2 41",
    )?;
    let stop = Stmt::Stop {
        eo: EoId(4),
        notes: List::new(alloc),
    };
    row(
        &rt,
        alloc,
        &stop,
        &Answer::Done,
        "Ask(Stop { eo: EoId(4), notes: Notes { items: [] } }) true 9 7 2 41",
    )?;
    let modify = Stmt::Modify {
        group: GroupId(0),
        mask: Expr::Number(1),
        notes: List::new(alloc),
    };
    row(
        &rt,
        alloc,
        &modify,
        &Answer::Refused(Fault::BadMask(1)),
        "Ask(Modify { group: GroupId(0), mask: 1, notes: Notes { items: [] } }) false 9 7 2 41",
    )?;
    Ok(())
}

// a whole body

fn counting_block(alloc: Global) -> Result<Block, NoMemory>
    ensures { IfOk result (λ block. block ≡ counting) }
{
    let inner = single(
        alloc,
        Stmt::Repeat {
            times: 256,
            block: List::new(alloc),
        },
    )?;
    let mut block = single(
        alloc,
        Stmt::Repeat {
            times: 256,
            block: inner,
        },
    )?;
    block.push(Stmt::Free(Expr::Me))?;
    Ok(block)
}

fn single<T: Drop>(alloc: Global, item: T) -> Result<List<T>, NoMemory>
    ensures { IfOk result (λ items. items ≡ item ∷ []) }
{
    let mut items = List::new(alloc);
    items.push(item)?;
    Ok(items)
}

fn order(alloc: Global) -> Result<List<Decl>, NoMemory>
    ensures { IfOk result (λ order. order ≡ Decl.Eo 0 ∷ Decl.Queue 0 ∷ []) }
{
    let mut order = List::new(alloc);
    order.push(Decl::Eo(0))?;
    order.push(Decl::Queue(0))?;
    Ok(order)
}

fn object(alloc: Global, receive: Block) -> Result<List<EoDecl>, NoMemory>
    ensures { IfOk result (λ eos. eos ≡ (example receive).eos) }
{
    single(
        alloc,
        EoDecl {
            name: Name::new("x").ok_or(NoMemory)?,
            running: true,
            receive,
            start: List::new(alloc),
            stop: List::new(alloc),
            lstart: List::new(alloc),
            lstop: List::new(alloc),
            error: None,
            given: Given {
                receive: true,
                start: false,
                stop: false,
                lstart: false,
                lstop: false,
            },
        },
    )
}

fn graph(alloc: Global, receive: Block) -> Result<Config, NoMemory>
    ensures { IfOk result (λ g. g ≡ example receive) }
{
    let queue = QueueDecl {
        name: Name::new("q").ok_or(NoMemory)?,
        kind: Kind::Parallel,
        eo: Some(EoId(0)),
        priority: Some(Priority::Normal),
        group: Some(GroupId(0)),
        agroup: None,
    };
    Ok(Config {
        cores: 1,
        order: order(alloc)?,
        pools: List::new(alloc),
        groups: List::new(alloc),
        eos: object(alloc, receive)?,
        agroups: List::new(alloc),
        queues: single(alloc, queue)?,
        egroups: List::new(alloc),
        boot: List::new(alloc),
        error: None,
    })
}

fn counting_graph(alloc: Global) -> Result<Config, NoMemory>
    ensures { IfOk result IsWellFormed }
{
    graph(alloc, counting_block(alloc)?)
}

/// The next move, and its ask's answer, which is `Done`.
fn exchange(rt: &impl Abort, run: &mut BodyRun<'_>) -> Move
    requires { unanswered run.old.standing ≡ None }
    ensures { unanswered run.new.standing ≡ None }
{
    let made = run.next();
    if let Move::Ask(ask) = &made {
        assert!(rt; may_be_done(ask));
        run.answer(&Answer::Done);
    }
    made
}

fn may_be_done(ask: &Ask) -> bool
    ensures { result ≡ fits_by ask.now Answer.Done }
{
    !matches!(
        ask,
        Ask::Alloc { .. } | Ask::Claim | Ask::Dequeue(_) | Ask::Cell | Ask::Fail
    )
}

/// How many moves a context makes before its end.
fn moves(rt: &impl Abort, run: &mut BodyRun<'_>) -> u32
    requires { unanswered run.old.standing ≡ None }
{
    let mut n = 0;
    for i in 0..1000 {
        if let Move::End = exchange(rt, run) {
            break;
        }
        n = i + 1;
    }
    n
}

#[test]
fn empty_rounds_take_no_moves(rt: HostRuntime) -> Result<(), Fail> {
    let config = counting_graph(rt.alloc())?;
    let mut run = BodyRun::new(&config, CoreId(0));
    run.begin(&received(Some(CELLS)));
    assert_eq!(rt;
        moves(&rt, &mut run),
        258,
        "the outer block, 256 inner ones and a free"
    );
    assert_eq!(rt; run.cells(), Some(CELLS));
    run.begin(&Context::GlobalStop(OpId(0), EoId(1)));
    assert_eq!(rt; moves(&rt, &mut run), 0, "an object that is not declared");
    Ok(())
}
