//! The generated graph, and its script.
ghost use Rattle.std.specs.Prelude.{◌≡◌, ◌+◌, ◌<◌, ◌≤◌, ◌%◌, [], ◌∷◌, ◌++◌, codes, decimal, length, map, Some, IfOk};
ghost use Rattle.em_log.specs.WellFormed.{IsWellFormed};
ghost use Rattle.em_script.specs.Scripts.{IsScript};
ghost use Rattle.em_script.specs.Spelling.{spelling};
ghost use Rattle.em_generated.specs.Graph.{numbers, named, next_queue, rounds, made, sent, forwarded, begun, filled, boot_of, another_round, counted, received, object_of, kind_at, queue_of, output, order_of, generated_graph};

use arrayvec::ArrayString;
use em_log::{
    Block, Config, Decl, EoDecl, EoId, Expr, Given, GroupId, Kind, List, Name, NoMemory, PoolDecl,
    PoolId, Priority, QueueDecl, QueueId, Stmt,
};
use em_script::{print, spellings_are_scripts};
use itoa::Buffer;
use sqlite_items::Boxed;
use std::alloc::Global;

/// The name that these letters and a number make.
fn named(letters: &str, number: u8) -> Name
    requires { length letters.now ≤ 8 }
    ensures { result ≡ named letters.now number }
{
    let mut digits = Buffer::new();
    let mut text = ArrayString::<16>::new();
    text.push_str(letters);
    text.push_str(digits.format(number));
    match Name::new(text.as_str()) {
        Some(name) => name,
        None => unreachable!(),
    }
}

/// The name of one letter.
fn word(letters: &str) -> Name
    requires { length letters.now ≤ 16 }
    ensures { result ≡ letters.now }
{
    match Name::new(letters) {
        Some(name) => name,
        None => unreachable!(),
    }
}

/// The queue that follows queue `i` of `n` queues in a ring.
fn next_queue(n: u8, i: u8) -> QueueId
    requires { (i < n) × (n ≤ 40) }
    ensures { result ≡ next_queue n i }
{
    QueueId(u16::from((i + 1) % n))
}

fn boxed(alloc: Global, operand: Expr) -> Result<Boxed<Expr>, NoMemory>
    ensures { IfOk result (λ it. it ≡ operand) }
{
    match Boxed::new(alloc, operand) {
        Ok(operand) => Ok(operand),
        Err(_) => Err(NoMemory),
    }
}

/// The first word of the current event.
fn rounds(alloc: Global) -> Result<Boxed<Expr>, NoMemory>
    ensures { IfOk result (λ it. it ≡ rounds) }
{
    boxed(alloc, Expr::Word(boxed(alloc, Expr::Number(0))?))
}

/// A block of one statement.
fn single(alloc: Global, statement: Stmt) -> Result<Block, NoMemory>
    ensures { IfOk result (λ block. block ≡ statement ∷ []) }
{
    let mut block = List::new(alloc);
    block.push(statement)?;
    Ok(block)
}

/// A new event whose word is `left`.
fn made(alloc: Global, left: Expr) -> Result<Stmt, NoMemory>
    ensures { IfOk result (λ it. it ≡ made left) }
{
    let mut words = List::new(alloc);
    words.push(left)?;
    Ok(Stmt::Alloc {
        v: 0,
        pool: PoolId(0),
        kind: Expr::Number(0),
        words,
    })
}

/// The statement that sends the new event to a queue.
fn sent(queue: QueueId) -> Stmt
    ensures { result ≡ sent queue }
{
    Stmt::Send {
        word: Expr::Var(0),
        queue,
    }
}

/// The statement that sends the received event to a queue.
fn forwarded(queue: QueueId) -> Stmt
    ensures { result ≡ forwarded queue }
{
    Stmt::Send {
        word: Expr::Me,
        queue,
    }
}

/// The statement that begins to start object `i`.
fn begun(alloc: Global, i: u8) -> Stmt
    ensures { result ≡ begun i }
{
    Stmt::Start {
        eo: EoId(i),
        notes: List::new(alloc),
    }
}

/// The statement that makes forty events.
fn filled(alloc: Global) -> Result<Stmt, NoMemory>
    ensures { IfOk result (λ it. it ≡ filled) }
{
    let mut block = single(alloc, made(alloc, Expr::Number(6))?)?;
    block.push(sent(QueueId(0)))?;
    Ok(Stmt::Repeat { times: 40, block })
}

/// The boot body: it starts `n` objects, and makes forty events.
fn boot_of(alloc: Global, n: u8) -> Result<Block, NoMemory>
    requires { n ≤ 40 }
    ensures { IfOk result (λ boot. boot ≡ boot_of n) }
{
    let mut boot = List::new(alloc);
    for object in 0..n {
        boot.push(begun(alloc, object))?;
    }
    boot.push(filled(alloc)?)?;
    Ok(boot)
}

/// What the first object does with an event that goes another round.
fn another_round(alloc: Global, n: u8) -> Result<Block, NoMemory>
    requires { (1 ≤ n) × (n ≤ 40) }
    ensures { IfOk result (λ block. block ≡ another_round n) }
{
    let left = Expr::Sub(rounds(alloc)?, boxed(alloc, Expr::Number(1))?);
    let mut block = single(alloc, made(alloc, left)?)?;
    block.push(Stmt::Free(Expr::Me))?;
    block.push(sent(next_queue(n, 0)))?;
    Ok(block)
}

/// The receive body of the first object.
fn counted(alloc: Global, n: u8) -> Result<Block, NoMemory>
    requires { (1 ≤ n) × (n ≤ 40) }
    ensures { IfOk result (λ block. block ≡ counted n) }
{
    let test = Expr::Eq(rounds(alloc)?, boxed(alloc, Expr::Number(0))?);
    let yes = single(alloc, forwarded(QueueId(u16::from(n))))?;
    let no = another_round(alloc, n)?;
    single(
        alloc,
        Stmt::If {
            test,
            yes,
            no,
            has_else: true,
        },
    )
}

/// The receive body of object `i`.
fn received(alloc: Global, n: u8, i: u8) -> Result<Block, NoMemory>
    requires { (i < n) × (n ≤ 40) }
    ensures { IfOk result (λ block. block ≡ received n i) }
{
    if i == 0 {
        counted(alloc, n)
    } else {
        single(alloc, forwarded(next_queue(n, i)))
    }
}

fn object_of(alloc: Global, n: u8, i: u8) -> Result<EoDecl, NoMemory>
    requires { (i < n) × (n ≤ 40) }
    ensures { IfOk result (λ eo. eo ≡ object_of n i) }
{
    Ok(EoDecl {
        name: named("x", i),
        running: false,
        receive: received(alloc, n, i)?,
        start: List::new(alloc),
        stop: List::new(alloc),
        lstart: List::new(alloc),
        lstop: List::new(alloc),
        error: None,
        given: Given {
            receive: true,
            start: false,
            stop: false,
            lstart: false,
            lstop: false,
        },
    })
}

fn kind_at(i: u8) -> Kind
    ensures { result ≡ kind_at i }
{
    match i % 3 {
        0 => Kind::Atomic,
        1 => Kind::Parallel,
        _ => Kind::Ordered,
    }
}

fn queue_of(i: u8) -> QueueDecl
    ensures { result ≡ queue_of i }
{
    QueueDecl {
        name: named("q", i),
        kind: kind_at(i),
        eo: Some(EoId(i)),
        priority: Some(Priority::Normal),
        group: Some(GroupId(0)),
        agroup: None,
    }
}

fn output() -> QueueDecl
    ensures { result ≡ output }
{
    QueueDecl {
        name: word("o"),
        kind: Kind::Output,
        eo: None,
        priority: None,
        group: None,
        agroup: None,
    }
}

fn order_of(alloc: Global, n: u8) -> Result<List<Decl>, NoMemory>
    requires { n ≤ 40 }
    ensures { IfOk result (λ order. order ≡ order_of n) }
{
    let mut order = List::new(alloc);
    order.push(Decl::Pool(0))?;
    for i in 0..n {
        order.push(Decl::Eo(i))?;
    }
    for i in 0..n + 1 {
        order.push(Decl::Queue(u16::from(i)))?;
    }
    Ok(order)
}

fn objects_of(alloc: Global, n: u8) -> Result<List<EoDecl>, NoMemory>
    requires { n ≤ 40 }
    ensures { IfOk result (λ eos. eos ≡ map (object_of n) (numbers n)) }
{
    let mut eos = List::new(alloc);
    for i in 0..n {
        eos.push(object_of(alloc, n, i)?)?;
    }
    Ok(eos)
}

fn queues_of(alloc: Global, n: u8) -> Result<List<QueueDecl>, NoMemory>
    requires { n ≤ 40 }
    ensures { IfOk result (λ queues. queues ≡ map queue_of (numbers n) ++ output ∷ []) }
{
    let mut queues = List::new(alloc);
    for i in 0..n {
        queues.push(queue_of(i))?;
    }
    queues.push(output())?;
    Ok(queues)
}

#[tactic(auto, unfolding(crate::specs::Graph::generated_graph))]
fn assembled(alloc: Global, n: u8) -> Result<Config, NoMemory>
    requires { (1 ≤ n) × (n ≤ 40) }
    ensures { IfOk result (λ graph. graph ≡ generated_graph n) }
{
    let mut pools = List::new(alloc);
    pools.push(PoolDecl {
        name: word("p"),
        events: 64,
        words: 1,
    })?;
    Ok(Config {
        cores: 4,
        order: order_of(alloc, n)?,
        pools,
        groups: List::new(alloc),
        eos: objects_of(alloc, n)?,
        agroups: List::new(alloc),
        queues: queues_of(alloc, n)?,
        egroups: List::new(alloc),
        boot: boot_of(alloc, n)?,
        error: None,
    })
}

/// The graph of `n` objects, for `n` of 1 to 40. The only error is a want of memory.
pub fn graph_of(alloc: Global, n: u8) -> Result<Config, NoMemory>
    requires { (1 ≤ n) × (n ≤ 40) }
    ensures graph { IfOk result (λ graph. graph ≡ generated_graph n) }
    ensures well_formed { IfOk result (λ graph. IsWellFormed graph) }
{
    assembled(alloc, n)
}

/// The script of the graph of `n` objects, for `n` of 1 to 40, in its canonical spelling. The only error is a want of memory.
pub fn generated(alloc: Global, n: u8) -> Result<Vec<u8>, NoMemory>
    requires { (1 ≤ n) × (n ≤ 40) }
    ensures spelling { IfOk result (λ bytes. bytes.items ≡ spelling (generated_graph n)) }
    ensures script { IfOk result (λ bytes. IsScript bytes.items (generated_graph n)) }
{
    let graph = graph_of(alloc, n)?;
    spellings_are_scripts();
    print(alloc, &graph)
}
