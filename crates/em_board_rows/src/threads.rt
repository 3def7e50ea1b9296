//! Cores that work with asks of their own, each in a thread.
ghost use Rattle.std.specs.Prelude.{◌≡◌, ◌+◌, ◌<◌, ◌≤◌, ◌++◌, [], ◌∷◌, true, false, is_some, length, map, IfSome, option_to_list};
ghost use Rattle.em_board_rows.specs.Cores.{is_context};
ghost use Rattle.em_board_rows.specs.Passes.{AreBetween, IsAt, left_of, rights};
ghost use denote.Param.Send.{IsSync};

use crate::callers::{ask, end, halt, take};
use em_board::{Board, Pass, Passes};
use em_log::{Answer, Ask, Context, PoolId, QueueId, Words};
use std::sync::Wait;
use std::thread::{Threads, join};

/// How many events boot sends.
pub const EVENTS: u32 = 8;

/// How long a core works.
#[derive(Clone, Copy)]
pub enum Plan {
    /// So many takes, with all asks of the contexts that they open.
    Takes(u32),
    /// So many, and then a halt.
    TakesAndHalts(u32),
    /// Until it is told that the run was halted.
    UntilHalted,
    /// Until the run has ended. Each receive says its kind and sends its event again.
    Forwards,
}

/// What a take was answered, where it opened no context.
#[derive(Clone, Copy, PartialEq, Eq)]
pub enum Told {
    Halted,
    Ended,
    Other,
}

/// An alloc, and a send of the event that it minted.
fn send_one(wait: &impl Wait, board: &Board, pass: &mut Pass, kind: u32)
    requires inside { IsAt board.now true pass.old }
    requires room { 3 ≤ left_of pass.old }
    ensures inside { IsAt board.now true pass.new }
    ensures room { left_of pass.old ≤ left_of pass.new + 3 }
    ensures same { rights pass.new ≡ rights pass.old }
{
    let alloc = Ask::Alloc {
        pool: PoolId(0),
        kind,
        words: Words::new(),
    };
    if let Answer::Minted(event) = ask(wait, board, pass, alloc) {
        let send = Ask::Send {
            word: event.handle.0,
            queue: QueueId(0),
            group: None,
        };
        ask(wait, board, pass, send);
    }
}

/// The asks of boot.
fn send_all(wait: &impl Wait, board: &Board, pass: &mut Pass)
    requires inside { IsAt board.now true pass.old }
    requires whole { 256 ≤ left_of pass.old }
    ensures inside { IsAt board.now true pass.new }
    ensures same { rights pass.new ≡ rights pass.old }
{
    for kind in 0..EVENTS {
        send_one(wait, board, pass, kind);
    }
}

/// The asks of a receive: it frees its event, once in vain, and sends another in its place.
fn replace(wait: &impl Wait, board: &Board, pass: &mut Pass, word: u64, kind: u32)
    requires inside { IsAt board.now true pass.old }
    requires whole { 256 ≤ left_of pass.old }
    ensures inside { IsAt board.now true pass.new }
    ensures same { rights pass.new ≡ rights pass.old }
{
    ask(wait, board, pass, Ask::Say(u64::from(kind)));
    ask(wait, board, pass, Ask::Free(word));
    ask(wait, board, pass, Ask::Free(word));
    send_one(wait, board, pass, kind);
}

/// The asks of a receive that says its kind and sends its event again.
fn forward(wait: &impl Wait, board: &Board, pass: &mut Pass, word: u64, kind: u32)
    requires inside { IsAt board.now true pass.old }
    requires whole { 256 ≤ left_of pass.old }
    ensures inside { IsAt board.now true pass.new }
    ensures same { rights pass.new ≡ rights pass.old }
{
    ask(wait, board, pass, Ask::Say(u64::from(kind)));
    let send = Ask::Send {
        word,
        queue: QueueId(0),
        group: None,
    };
    ask(wait, board, pass, send);
}

/// The asks of a context, but its end.
fn act(wait: &impl Wait, board: &Board, pass: &mut Pass, context: &Context, forwards: bool)
    requires inside { IsAt board.now true pass.old }
    requires whole { 256 ≤ left_of pass.old }
    ensures inside { IsAt board.now true pass.new }
    ensures same { rights pass.new ≡ rights pass.old }
{
    match context {
        Context::Boot => send_all(wait, board, pass),
        Context::Receive(receive) => {
            replace(
                wait,
                board,
                pass,
                receive.event.handle.0,
                receive.event.kind,
            )
        }
        _ => {}
    }
}

/// The context that a take has opened, if it has.
fn opened(answer: Answer) -> Option<Context>
    ensures { is_some result ≡ is_context answer }
{
    match answer {
        Answer::Context(context) => Some(context),
        _ => None,
    }
}

/// The asks of the context that a take has opened, if it has.
fn serve(wait: &impl Wait, board: &Board, pass: &mut Pass, answer: Answer, forwards: bool)
    requires at { IsAt board.now (is_context answer) pass.old }
    requires whole { is_context answer ≡ true → 256 ≤ left_of pass.old }
    ensures between { IsAt board.now false pass.new }
    ensures same { rights pass.new ≡ rights pass.old }
{
    if let Some(context) = opened(answer) {
        act(wait, board, pass, &context, forwards);
        end(wait, board, pass);
    }
}

fn told_by(answer: &Answer) -> Told {
    match answer {
        Answer::Halted => Told::Halted,
        Answer::Quiet | Answer::Limit => Told::Ended,
        _ => Told::Other,
    }
}

/// A take, with all asks of the context that it opens.
pub fn take_and_serve(wait: &impl Wait, board: &Board, pass: &mut Pass, forwards: bool) -> Told
    requires between { IsAt board.now false pass.old }
    ensures between { IsAt board.now false pass.new }
    ensures same { rights pass.new ≡ rights pass.old }
{
    let Ok(answer) = take(wait, board, pass) else {
        return Told::Other;
    };
    let told = told_by(&answer);
    serve(wait, board, pass, answer, forwards);
    told
}

/// So many takes, or fewer where the core is told that the run was halted.
fn take_often(wait: &impl Wait, board: &Board, pass: &mut Pass, takes: u32)
    requires between { IsAt board.now false pass.old }
    ensures between { IsAt board.now false pass.new }
    ensures same { rights pass.new ≡ rights pass.old }
{
    for _ in 0..takes {
        if take_and_serve(wait, board, pass, false) == Told::Halted {
            return;
        }
    }
}

/// Takes until the run has ended.
fn forward_all(wait: &impl Wait, board: &Board, pass: &mut Pass)
    requires between { IsAt board.now false pass.old }
    ensures between { IsAt board.now false pass.new }
    ensures same { rights pass.new ≡ rights pass.old }
{
    for _ in 0..u32::MAX {
        if take_and_serve(wait, board, pass, true) != Told::Other {
            return;
        }
    }
}

fn work(wait: &impl Wait, board: &Board, mut pass: Pass, plan: Plan) -> Pass
    requires between { IsAt board.now false pass }
    ensures between { IsAt board.now false result }
    ensures same { rights result ≡ rights pass }
{
    match plan {
        Plan::Takes(takes) => take_often(wait, board, &mut pass, takes),
        Plan::TakesAndHalts(takes) => {
            take_often(wait, board, &mut pass, takes);
            halt(wait, board, &mut pass);
        }
        Plan::UntilHalted => take_often(wait, board, &mut pass, u32::MAX),
        Plan::Forwards => forward_all(wait, board, &mut pass),
    }
    pass
}

/// Takes off the last pass, if there is one.
pub fn last_of(board: &Board, passes: &mut Passes, cores: u8) -> Option<Pass>
    requires between { AreBetween board.now cores passes.old }
    ensures rest { AreBetween board.now cores passes.new }
    ensures last { IfSome result (λ p. IsAt board.now false p) }
    ensures room { IfSome result (λ p. cores ≤ p.fixed.declarations.cores) }
    ensures count { IfSome result (λ p. length passes.old ≡ length passes.new + 1) }
    ensures same { map rights passes.old ≡ map rights (passes.new ++ option_to_list result) }
{
    let _ = board;
    let _ = cores;
    passes.pop()
}

/// Puts the pass at the end of the others.
pub fn put_last(board: &Board, mut passes: Passes, pass: Pass, cores: u8) -> Passes
    requires between { AreBetween board.now cores passes }
    requires pass { IsAt board.now false pass }
    requires room { length passes < cores }
    requires cores { cores ≤ (rights pass).fixed.declarations.cores }
    ensures between { AreBetween board.now cores result }
    ensures same { map rights result ≡ map rights passes ++ rights pass ∷ [] }
{
    let _ = board;
    let _ = cores;
    passes.push(pass);
    passes
}

/// Each core works in a thread of its own: the last one by its own plan.
pub fn work_in_threads<R: Threads + Wait + Sync>(
    rt: &R,
    board: &Board,
    mut passes: Passes,
    cores: u8,
    last: Plan,
    others: Plan,
) -> Passes
    requires between { AreBetween board.now cores passes }
    requires room { length passes ≤ cores }
    ensures between { AreBetween board.now cores result }
    ensures same { map rights result ≡ map rights passes }
{
    let Some(pass) = last_of(board, &mut passes, cores) else {
        return passes;
    };
    let (pass, passes) = join(
        rt,
        move || -> Pass
            requires { IsAt board.now false pass }
            ensures { (IsAt board.entry.now false result) × (rights result ≡ rights pass) }
        { work(rt, board, pass, last) },
        move || -> Passes
            requires { IsSync R.row × (AreBetween board.now cores passes) × (length passes + 1 ≤ cores) }
            ensures { (AreBetween board.entry.now cores result) × (map rights result ≡ map rights passes) }
        { work_in_threads(rt, board, passes, cores, others, others) },
    );
    put_last(board, passes, pass, cores)
}
