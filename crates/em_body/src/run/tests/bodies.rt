//! A body for each statement, with answers made by hand.
ghost use Rattle.std.specs.Prelude.{◌≡◌, ◌∷◌, ◌++◌, [], IfOk, IsTrue, None};
ghost use Rattle.em_log.specs.WellFormed.{IsWellFormed};
ghost use Rattle.em_log.specs.Works.{fits as fits_by};
ghost use Rattle.em_body.specs.OneStatement.{around, begun_with, showing, stating, fits_there};
ghost use Rattle.em_body.specs.Standings.{unanswered};

use super::*;
use em_log::PoolDecl;

// the graph

fn with<T: Drop>(items: List<T>, item: T) -> Result<List<T>, NoMemory>
    ensures { IfOk result (λ longer. longer ≡ items ++ item ∷ []) }
{
    let mut longer = items;
    longer.push(item)?;
    Ok(longer)
}

fn with_two<T: Drop>(items: List<T>, first: T, second: T) -> Result<List<T>, NoMemory>
    ensures { IfOk result (λ longer. longer ≡ items ++ first ∷ second ∷ []) }
{
    with(with(items, first)?, second)
}

fn three<T: Drop>(alloc: Global, first: T, second: T, third: T) -> Result<List<T>, NoMemory>
    ensures { IfOk result (λ items. items ≡ first ∷ second ∷ third ∷ []) }
{
    with_two(single(alloc, first)?, second, third)
}

fn with_three<T: Drop>(items: List<T>, first: T, second: T, third: T) -> Result<List<T>, NoMemory>
    ensures { IfOk result (λ longer. longer ≡ items ++ first ∷ second ∷ third ∷ []) }
{
    with(with_two(items, first, second)?, third)
}

fn opened(alloc: Global, s: Stmt) -> Result<Block, NoMemory>
    ensures { IfOk result (λ body. body ≡ begun_with s) }
{
    let value = Expr::Number(9);
    three(alloc, Stmt::Set { v: 0, value }, s, Stmt::Say(Expr::LastOk))
}

fn shown(begun: Block) -> Result<Block, NoMemory>
    ensures { IfOk result (λ body. body ≡ begun ++ showing) }
{
    with_three(
        begun,
        Stmt::Say(Expr::Var(0)),
        Stmt::Say(Expr::Kind),
        Stmt::Say(Expr::Size),
    )
}

fn body(alloc: Global, s: Stmt) -> Result<Block, NoMemory>
    ensures { IfOk result (λ body. body ≡ around s) }
{
    shown(opened(alloc, s)?)
}

fn declarations(alloc: Global) -> Result<List<Decl>, NoMemory>
    ensures { IfOk result (λ order. order ≡ (stating []).order) }
{
    let mut order = List::new(alloc);
    order.push(Decl::Pool(0))?;
    order.push(Decl::Eo(0))?;
    order.push(Decl::Queue(0))?;
    order.push(Decl::Egroup(0))?;
    Ok(order)
}

fn pools(alloc: Global) -> Result<List<PoolDecl>, NoMemory>
    ensures { IfOk result (λ pools. pools ≡ (stating []).pools) }
{
    let name = Name::new("p").ok_or(NoMemory)?;
    single(
        alloc,
        PoolDecl {
            name,
            events: 4,
            words: 4,
        },
    )
}

fn objects(alloc: Global, receive: Block) -> Result<List<EoDecl>, NoMemory>
    ensures { IfOk result (λ eos. eos ≡ (stating receive).eos) }
{
    let start = body(alloc, Stmt::Fail)?;
    single(
        alloc,
        EoDecl {
            name: Name::new("x").ok_or(NoMemory)?,
            running: true,
            receive,
            start,
            stop: List::new(alloc),
            lstart: List::new(alloc),
            lstop: List::new(alloc),
            error: None,
            given: Given {
                receive: true,
                start: true,
                stop: false,
                lstart: false,
                lstop: false,
            },
        },
    )
}

fn queue(alloc: Global) -> Result<List<QueueDecl>, NoMemory>
    ensures { IfOk result (λ queues. queues ≡ (stating []).queues) }
{
    let name = Name::new("q").ok_or(NoMemory)?;
    single(
        alloc,
        QueueDecl {
            name,
            kind: Kind::Parallel,
            eo: Some(EoId(0)),
            priority: Some(Priority::Normal),
            group: Some(GroupId(0)),
            agroup: None,
        },
    )
}

fn groups(alloc: Global) -> Result<List<Name>, NoMemory>
    ensures { IfOk result (λ names. names ≡ (stating []).egroups) }
{
    let name = Name::new("g").ok_or(NoMemory)?;
    single(alloc, name)
}

fn whole(alloc: Global, receive: Block) -> Result<Config, NoMemory>
    ensures { IfOk result (λ g. g ≡ stating receive) }
{
    Ok(Config {
        cores: 1,
        order: declarations(alloc)?,
        pools: pools(alloc)?,
        groups: List::new(alloc),
        eos: objects(alloc, receive)?,
        agroups: List::new(alloc),
        queues: queue(alloc)?,
        egroups: groups(alloc)?,
        boot: List::new(alloc),
        error: None,
    })
}

fn graph_of(alloc: Global, s: Stmt) -> Result<Config, NoMemory>
    requires { IsTrue (fits_there s) }
    ensures { IfOk result IsWellFormed }
{
    whole(alloc, body(alloc, s)?)
}

// moves

fn may_answer(ask: &Ask, answer: &Answer) -> bool
    ensures { result ≡ fits_by ask.now answer.now }
{
    match answer {
        Answer::Refused(_) => !matches!(ask, Ask::Claim | Ask::Say(_) | Ask::End(_)),
        Answer::Minted(_) => matches!(ask, Ask::Alloc { .. } | Ask::Claim | Ask::Dequeue(_)),
        Answer::Nothing => matches!(ask, Ask::Claim | Ask::Dequeue(_)),
        Answer::Done => may_be_done(ask),
        _ => false,
    }
}

/// Compares the next move, and answers its ask.
fn follow(
    rt: &impl Abort,
    alloc: Global,
    run: &mut BodyRun<'_>,
    answer: &Answer,
    want: &str,
) -> Result<(), Fail>
    requires { unanswered run.old.standing ≡ None }
    ensures { unanswered run.new.standing ≡ None }
{
    let made = run.next();
    if let Move::Ask(ask) = &made {
        assert!(rt; may_answer(ask, answer));
        run.answer(answer);
    }
    let text = format!(in alloc; "{made:?}")?;
    assert_eq!(rt; text.as_str(), want);
    Ok(())
}

/// Compares the value that the next move notes.
fn shows(rt: &impl Abort, run: &mut BodyRun<'_>, want: u64)
    requires { unanswered run.old.standing ≡ None }
    ensures { unanswered run.new.standing ≡ None }
{
    let made = run.next();
    if let Move::Ask(ask) = &made {
        assert!(rt; may_be_done(ask));
        run.answer(&Answer::Done);
    }
    assert!(rt;
        matches!(made, Move::Ask(Ask::Say(value)) if value == want),
        "{made:?}, not {want}"
    );
}

/// Compares a context's moves, its asks answered so, up to what is shown, which is variable 0, whether the last ask was
/// accepted, and the event's kind and size; and then the cells.
fn compare(
    rt: &impl Abort,
    alloc: Global,
    run: &mut BodyRun<'_>,
    context: &Context,
    answer: &Answer,
    moves: &[&str],
    shown: [u64; 4],
    cells: Option<Cells>,
) -> Result<(), Fail> {
    run.begin(context);
    follow(rt, alloc, run, answer, "Silent")?;
    for want in moves {
        follow(rt, alloc, run, answer, want)?;
    }
    shows(rt, run, shown[1]);
    shows(rt, run, shown[0]);
    shows(rt, run, shown[2]);
    shows(rt, run, shown[3]);
    follow(rt, alloc, run, answer, "End")?;
    assert_eq!(rt; run.cells(), cells);
    Ok(())
}

/// A statement in a receive with such cells, and the cells that are left.
fn with_cells(
    rt: &impl Abort,
    alloc: Global,
    s: Stmt,
    given: Option<Cells>,
    answer: &Answer,
    moves: &[&str],
    shown: [u64; 4],
    left: Option<Cells>,
) -> Result<(), Fail>
    requires { IsTrue (fits_there s) }
{
    let config = graph_of(alloc, s)?;
    let mut run = BodyRun::new(&config, CoreId(2));
    let context = received(given);
    compare(rt, alloc, &mut run, &context, answer, moves, shown, left)
}

/// A statement in a receive with cells, which stay.
fn row(
    rt: &impl Abort,
    alloc: Global,
    s: Stmt,
    answer: &Answer,
    moves: &[&str],
    shown: [u64; 4],
) -> Result<(), Fail>
    requires { IsTrue (fits_there s) }
{
    let cells = Some(CELLS);
    with_cells(rt, alloc, s, cells, answer, moves, shown, cells)
}

/// A statement whose ask is done, and leaves the variable and the event.
fn done(rt: &impl Abort, alloc: Global, s: Stmt, ask: &str) -> Result<(), Fail>
    requires { IsTrue (fits_there s) }
{
    row(rt, alloc, s, &Answer::Done, &[ask], [9, 1, 7, 2])
}

/// A statement whose ask is refused, and leaves the variable and the event.
fn refused(rt: &impl Abort, alloc: Global, s: Stmt, fault: Fault, ask: &str) -> Result<(), Fail>
    requires { IsTrue (fits_there s) }
{
    row(rt, alloc, s, &Answer::Refused(fault), &[ask], [9, 0, 7, 2])
}

#[test]
#[tactic(auto, using(crate::proofs::OneStatementFits::fitting))]
fn values_and_handles(rt: HostRuntime) -> Result<(), Fail> {
    let alloc = rt.alloc();
    let set = Stmt::Set {
        v: 0,
        value: Expr::Number(5),
    };
    row(&rt, alloc, set, &Answer::Done, &["Silent"], [5, 1, 7, 2])?;
    done(&rt, alloc, Stmt::Say(Expr::Number(3)), "Ask(Say(3))")?;
    done(&rt, alloc, Stmt::Keep(Expr::Me), "Ask(Keep(65536))")?;
    let spent = Fault::SpentByFree(4);
    refused(&rt, alloc, Stmt::Free(Expr::Me), spent, "Ask(Free(65536))")?;
    Ok(())
}

#[test]
#[tactic(auto, using(crate::proofs::OneStatementFits::fitting))]
fn queues(rt: HostRuntime) -> Result<(), Fail> {
    let alloc = rt.alloc();
    let queue = QueueId(0);
    let send = Stmt::Send {
        word: Expr::Me,
        queue,
    };
    let ask = "Ask(Send { word: 65536, queue: QueueId(0), group: None })";
    done(&rt, alloc, send, ask)?;
    let group = EventGroupId(0);
    let send = Stmt::SendG {
        word: Expr::Me,
        queue,
        group,
    };
    let ask = "Ask(Send { word: 65536, queue: QueueId(0), group: Some(EventGroupId(0)) })";
    refused(&rt, alloc, send, Fault::GroupIdle(group), ask)?;
    done(&rt, alloc, Stmt::Enable(queue), "Ask(Enable(QueueId(0)))")?;
    done(&rt, alloc, Stmt::Disable(queue), "Ask(Disable(QueueId(0)))")?;
    Ok(())
}

#[test]
#[tactic(auto, using(crate::proofs::OneStatementFits::fitting))]
fn claims(rt: HostRuntime) -> Result<(), Fail> {
    let alloc = rt.alloc();
    let minted = Answer::Minted(event(131072, 8, &[1, 2, 3]));
    let asks = ["Ask(Claim)"];
    let claim = Stmt::Claim { v: 0 };
    row(&rt, alloc, claim, &minted, &asks, [131072, 1, 8, 3])?;
    let claim = Stmt::Claim { v: 0 };
    row(&rt, alloc, claim, &Answer::Nothing, &asks, [0, 1, 7, 2])?;
    Ok(())
}

#[tactic(auto, using(crate::proofs::OneStatementFits::fitting))]
fn dequeue() -> Stmt
    ensures { IsTrue (fits_there result) }
{
    Stmt::Dequeue {
        v: 0,
        queue: QueueId(0),
    }
}

#[test]
#[tactic(auto, using(crate::proofs::OneStatementFits::fitting))]
fn dequeues(rt: HostRuntime) -> Result<(), Fail> {
    let alloc = rt.alloc();
    let minted = Answer::Minted(event(131072, 8, &[1, 2, 3]));
    let wrong = Answer::Refused(Fault::WrongKind(Kind::Parallel));
    let asks = ["Ask(Dequeue(QueueId(0)))"];
    row(&rt, alloc, dequeue(), &minted, &asks, [131072, 1, 8, 3])?;
    row(&rt, alloc, dequeue(), &Answer::Nothing, &asks, [0, 1, 7, 2])?;
    row(&rt, alloc, dequeue(), &wrong, &asks, [0, 0, 7, 2])?;
    Ok(())
}

#[tactic(auto, using(crate::proofs::OneStatementFits::fitting))]
fn allocation(alloc: Global) -> Result<Stmt, NoMemory>
    ensures { IfOk result (λ s. IsTrue (fits_there s)) }
{
    let mut words = List::new(alloc);
    words.push(Expr::Var(0))?;
    words.push(Expr::Me)?;
    Ok(Stmt::Alloc {
        v: 0,
        pool: PoolId(0),
        kind: Expr::Number(4294967297),
        words,
    })
}

#[test]
#[tactic(auto, using(crate::proofs::OneStatementFits::fitting))]
fn allocations(rt: HostRuntime) -> Result<(), Fail> {
    let alloc = rt.alloc();
    let asks = ["Ask(Alloc { pool: PoolId(0), kind: 1, words: Words { items: [9, 65536] } })"];
    let minted = Answer::Minted(event(131072, 1, &[9, 65536]));
    let s = allocation(alloc)?;
    row(&rt, alloc, s, &minted, &asks, [131072, 1, 7, 2])?;
    let empty = Answer::Refused(Fault::PoolEmpty(4));
    let s = allocation(alloc)?;
    row(&rt, alloc, s, &empty, &asks, [0, 0, 7, 2])?;
    Ok(())
}

#[tactic(auto, using(crate::proofs::OneStatementFits::fitting))]
fn write() -> Stmt
    ensures { IsTrue (fits_there result) }
{
    Stmt::CellWrite {
        cell: Expr::Number(9),
        value: Expr::Number(77),
    }
}

#[test]
#[tactic(auto, using(crate::proofs::OneStatementFits::fitting))]
fn atomic(rt: HostRuntime) -> Result<(), Fail> {
    let alloc = rt.alloc();
    let given = Some(CELLS);
    let left = Some(Cells([40, 77, 42, 43, 44, 45, 46, 47]));
    let shown = [9, 1, 7, 2];
    with_cells(
        &rt,
        alloc,
        write(),
        given,
        &Answer::Done,
        &["Silent"],
        shown,
        left,
    )?;
    let not = Answer::Refused(Fault::NotAtomic);
    with_cells(
        &rt,
        alloc,
        write(),
        None,
        &not,
        &["Ask(Cell)"],
        [9, 0, 7, 2],
        None,
    )?;
    let asks = ["Ask(EndAtomic(Cells([40, 41, 42, 43, 44, 45, 46, 47])))"];
    with_cells(
        &rt,
        alloc,
        Stmt::EndAtomic,
        given,
        &Answer::Done,
        &asks,
        shown,
        None,
    )?;
    row(&rt, alloc, Stmt::EndAtomic, &not, &asks, [9, 0, 7, 2])?;
    Ok(())
}

#[test]
#[tactic(auto, using(crate::proofs::OneStatementFits::fitting))]
fn early_ends(rt: HostRuntime) -> Result<(), Fail> {
    let alloc = rt.alloc();
    done(&rt, alloc, Stmt::EndGroup, "Ask(EndGroup)")?;
    let not = Fault::NotOrdered;
    refused(&rt, alloc, Stmt::EndOrdered, not, "Ask(EndOrdered)")?;
    Ok(())
}

#[tactic(auto, using(crate::proofs::OneStatementFits::fitting))]
fn application(alloc: Global) -> Result<Stmt, NoMemory>
    ensures { IfOk result (λ s. IsTrue (fits_there s)) }
{
    Ok(Stmt::Apply {
        group: EventGroupId(0),
        count: Expr::Number(3),
        notes: single(alloc, (Expr::Var(0), QueueId(0)))?,
    })
}

#[test]
#[tactic(auto, using(crate::proofs::OneStatementFits::fitting))]
fn groups_of_events(rt: HostRuntime) -> Result<(), Fail> {
    let alloc = rt.alloc();
    let ask =
        "Ask(Apply { group: EventGroupId(0), count: 3, notes: Notes { items: [Note { word: 9, queue: QueueId(0) }] } })";
    let s = application(alloc)?;
    done(&rt, alloc, s, ask)?;
    let s = Stmt::Increment(Expr::Number(4));
    done(&rt, alloc, s, "Ask(Increment(4))")?;
    let group = EventGroupId(0);
    let busy = Fault::GroupIdle(group);
    refused(
        &rt,
        alloc,
        Stmt::Abort(group),
        busy,
        "Ask(Abort(EventGroupId(0)))",
    )?;
    Ok(())
}

#[tactic(auto, using(crate::proofs::OneStatementFits::fitting))]
fn starting(alloc: Global) -> Result<Stmt, NoMemory>
    ensures { IfOk result (λ s. IsTrue (fits_there s)) }
{
    Ok(Stmt::Start {
        eo: EoId(0),
        notes: single(alloc, (Expr::Var(0), QueueId(0)))?,
    })
}

#[tactic(auto, using(crate::proofs::OneStatementFits::fitting))]
fn stopping(alloc: Global) -> Stmt
    ensures { IsTrue (fits_there result) }
{
    Stmt::Stop {
        eo: EoId(0),
        notes: List::new(alloc),
    }
}

#[tactic(auto, using(crate::proofs::OneStatementFits::fitting))]
fn modification(alloc: Global) -> Stmt
    ensures { IsTrue (fits_there result) }
{
    Stmt::Modify {
        group: GroupId(0),
        mask: Expr::Number(2),
        notes: List::new(alloc),
    }
}

#[test]
#[tactic(auto, using(crate::proofs::OneStatementFits::fitting))]
fn objects_and_groups(rt: HostRuntime) -> Result<(), Fail> {
    let alloc = rt.alloc();
    let ask =
        "Ask(Start { eo: EoId(0), notes: Notes { items: [Note { word: 9, queue: QueueId(0) }] } })";
    let s = starting(alloc)?;
    done(&rt, alloc, s, ask)?;
    let ask = "Ask(Stop { eo: EoId(0), notes: Notes { items: [] } })";
    done(&rt, alloc, stopping(alloc), ask)?;
    let ask = "Ask(Modify { group: GroupId(0), mask: 2, notes: Notes { items: [] } })";
    refused(&rt, alloc, modification(alloc), Fault::BadMask(2), ask)?;
    Ok(())
}

// blocks, and a start

#[tactic(auto, using(crate::proofs::OneStatementFits::fitting))]
fn branching(alloc: Global) -> Result<Stmt, NoMemory>
    ensures { IfOk result (λ s. IsTrue (fits_there s)) }
{
    let yes = single(alloc, Stmt::Free(Expr::Me))?;
    let no = single(alloc, Stmt::EndGroup)?;
    Ok(Stmt::If {
        test: Expr::Kind,
        yes,
        no,
        has_else: true,
    })
}

#[tactic(auto, using(crate::proofs::OneStatementFits::fitting))]
fn repeating(alloc: Global) -> Result<Stmt, NoMemory>
    ensures { IfOk result (λ s. IsTrue (fits_there s)) }
{
    let block = single(alloc, Stmt::Increment(Expr::Var(0)))?;
    Ok(Stmt::Repeat { times: 3, block })
}

/// A receive of an event whose kind is 0.
fn of_kind_zero() -> Context {
    Context::Receive(Receive {
        queue: QueueId(0),
        eo: EoId(0),
        event: event(65536, 0, &[5]),
        stamp: None,
        ticket: None,
        cells: None,
        rest: Rest::new(),
    })
}

#[test]
#[tactic(auto, using(crate::proofs::OneStatementFits::fitting))]
fn branches(rt: HostRuntime) -> Result<(), Fail> {
    let alloc = rt.alloc();
    let s = branching(alloc)?;
    let config = graph_of(alloc, s)?;
    let mut run = BodyRun::new(&config, CoreId(2));
    let moves = ["Silent", "Ask(Free(65536))"];
    let context = received(None);
    compare(
        &rt,
        alloc,
        &mut run,
        &context,
        &Answer::Done,
        &moves,
        [9, 1, 7, 2],
        None,
    )?;
    let moves = ["Silent", "Ask(EndGroup)"];
    compare(
        &rt,
        alloc,
        &mut run,
        &of_kind_zero(),
        &Answer::Done,
        &moves,
        [9, 1, 0, 1],
        None,
    )?;
    Ok(())
}

#[test]
#[tactic(auto, using(crate::proofs::OneStatementFits::fitting))]
fn repeats(rt: HostRuntime) -> Result<(), Fail> {
    let alloc = rt.alloc();
    let moves = [
        "Silent",
        "Ask(Increment(9))",
        "Ask(Increment(9))",
        "Ask(Increment(9))",
    ];
    let s = repeating(alloc)?;
    row(&rt, alloc, s, &Answer::Done, &moves, [9, 1, 7, 2])?;
    Ok(())
}

#[test]
#[tactic(auto, using(crate::proofs::OneStatementFits::fitting))]
fn fails(rt: HostRuntime) -> Result<(), Fail> {
    let alloc = rt.alloc();
    let config = graph_of(alloc, Stmt::EndGroup)?;
    let mut run = BodyRun::new(&config, CoreId(2));
    let context = Context::GlobalStart(OpId(5), EoId(0));
    let failed = Answer::Refused(Fault::StartFailed(OpId(5)));
    compare(
        &rt,
        alloc,
        &mut run,
        &context,
        &failed,
        &["Ask(Fail)"],
        [9, 0, 0, 0],
        None,
    )?;
    Ok(())
}
