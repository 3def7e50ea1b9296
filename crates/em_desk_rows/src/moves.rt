//! Moves of the cores, and the runs that they make.
ghost use Rattle.std.specs.Prelude.{◌≡◌, ◌≤◌, None, OnOk, IfOk};
ghost use Rattle.em_log.specs.Declarations.{declarations_of};
ghost use Rattle.em_desk.specs.Graphs.{AreInBounds};
ghost use Rattle.em_log.specs.declared.ask.Ask.{Ask as TheAsk};
ghost use Rattle.em_desk_rows.specs.Moves.{ask_of, first_cell, fresh, Drives, Makes};

use em_desk::Desk;
use em_log::{Ask, Cells, Config, CoreId, Limits, Locals, NoMemory, PoolId, QueueId, Words};
use std::alloc::Global;

/// What a core does: it takes between contexts, and asks in one. Its allocs are of the first pool and without words, a send is
/// to the first queue where none is named, and of the cells that it gives back all but the first are 0.
#[derive(Clone, Copy)]
pub enum Move {
    Take,
    Alloc(u32),
    Free(u64),
    Send(u64),
    SendTo(u64, u16),
    Keep(u64),
    Claim,
    Dequeue(u16),
    Cell,
    Say(u64),
    EndAtomic(u64),
    End,
    EndWith(u64),
}

/// The send of an event, without a stamp.
fn sent(word: u64, queue: u16) -> Ask
    ensures { result ≡ TheAsk.Send word (record { 0 = queue }) None }
{
    Ask::Send {
        word,
        queue: QueueId(queue),
        group: None,
    }
}

/// Eight cells, all but the first of them 0.
fn cells(first: u64) -> Cells
    ensures { result ≡ first_cell first }
{
    Cells([first, 0, 0, 0, 0, 0, 0, 0])
}

/// The ask of a move: None where it takes.
fn asked(step: Move) -> Option<Ask>
    ensures { result ≡ ask_of step }
{
    let ask = match step {
        Move::Take => return None,
        Move::Alloc(kind) => Ask::Alloc {
            pool: PoolId(0),
            kind,
            words: Words::new(),
        },
        Move::Free(word) => Ask::Free(word),
        Move::Send(word) => sent(word, 0),
        Move::SendTo(word, queue) => sent(word, queue),
        Move::Keep(word) => Ask::Keep(word),
        Move::Claim => Ask::Claim,
        Move::Dequeue(queue) => Ask::Dequeue(QueueId(queue)),
        Move::Cell => Ask::Cell,
        Move::Say(value) => Ask::Say(value),
        Move::EndAtomic(first) => Ask::EndAtomic(cells(first)),
        Move::End => Ask::End(None),
        Move::EndWith(first) => Ask::End(Some(cells(first))),
    };
    Some(ask)
}

/// Makes each move, of the core beside it.
pub fn drive(desk: &mut Desk, moves: &[(u8, Move)]) -> Result<(), NoMemory>
    requires { Drives desk.old moves.now }
    ensures { OnOk result (Makes desk.old moves.now desk.new) }
{
    for (core, step) in moves {
        let core = CoreId(*core);
        match asked(*step) {
            None => {
                desk.take(core, &Locals::new())?;
            }
            Some(ask) => {
                desk.ask(core, ask, &Locals::new());
            }
        }
    }
    Ok(())
}

/// The desk after these moves of a run of at most so many receives, one event at a time.
pub fn run(
    alloc: Global,
    config: &Config,
    receives: u16,
    moves: &[(u8, Move)],
) -> Result<Desk, NoMemory>
    requires graph { AreInBounds (declarations_of config.now) }
    requires some { 1 ≤ receives }
    requires most { receives ≤ 10000 }
    requires drives { Drives (fresh (declarations_of config.now) receives) moves.now }
    ensures { IfOk result (λ d. Makes (fresh (declarations_of config.now) receives) moves.now d) }
{
    let limits = Limits { receives, burst: 1 };
    let mut desk = Desk::build(alloc, config, limits)?;
    drive(&mut desk, moves)?;
    Ok(desk)
}
