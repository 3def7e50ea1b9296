ghost use Rattle.std.specs.Prelude.{◌≡◌, [], false, None, Some, ◌∷◌, IsTrue};
ghost use Rattle.em_core.specs.FixedAsks.{IsReady, IsGoing, receive_of, received, dequeued, freed, claimed, refused};

use crate::{CoreRun, Step};
use em_log::{
    Answer, Ask, Cells, Context, CoreId, EndKind, EoId, Event, Fault, Handle, Move, QueueId,
    Receive, Reply, Rest, Words, Work,
};

/// A work whose asks stand from the start.
#[derive(Drop)]
struct FixedAsks {
    line: u8,
    waits: bool,
    cells: Option<Cells>,
}

impl Work for FixedAsks {
    ghost use Rattle.std.proofs.Common.{ap};
    ghost use Rattle.em_core.specs.FixedAsks.{Place, BeginsAt, MovesTo, LeavesAt, unanswered_at, unanswered_in};

    ghost Fixed = { Unit {0} };

    ghost State = { Place };

    ghost fixed = { λ w. tt };

    ghost state = { λ w. record { line = w.line; waits = w.waits; cells = w.cells } };

    ghost unanswered = { unanswered_in };

    ghost carried = { λ s. s.cells };

    ghost Begins = { BeginsAt };

    ghost Moves = { MovesTo };

    ghost Leaves = { LeavesAt };

    ghost begins_unasked = { λ f c s h. ap (unanswered_at s.line s.cells) h.1 };

    ghost moves_asked = { λ f s m t h. h.asks };

    ghost moves_no_end = { λ f s m t h. h.no_end };

    ghost leaves_unasked = { λ f s a t h. ap (unanswered_at t.line t.cells) h.0 };

    fn begin(&mut self, context: &Context) {
        self.line = 0;
        self.waits = false;
        self.cells = None;
        if let Context::Receive(receive) = context {
            if receive.queue.0 > 0 {
                self.line = 7;
            }
            self.cells = receive.cells;
        }
    }

    fn next(&mut self) -> Move {
        self.waits = self.line > 0 && self.line < 7;
        match self.line {
            0 => {
                self.line = 1;
                Move::Silent
            }
            1 => Move::Ask(Ask::Dequeue(QueueId(1))),
            2 => Move::Ask(Ask::Free(65537)),
            3 => Move::Ask(Ask::Claim),
            4 => Move::Ask(Ask::Free(5)),
            5 => Move::Ask(Ask::EndAtomic(self.cells.unwrap_or(Cells([0; 8])))),
            6 => Move::Ask(Ask::Cell),
            _ => Move::End,
        }
    }

    fn answer(&mut self, _answer: &Answer) {
        if self.line == 5 {
            self.cells = None;
        }
        self.line = self.line.saturating_add(1);
        self.waits = false;
    }

    fn cells(&self) -> Option<Cells> {
        self.cells
    }
}

fn reply(answer: Answer) -> Reply
    ensures { result ≡ record { answer = answer; owed = false } }
{
    Reply {
        answer,
        owed: false,
    }
}

fn event(handle: u64, kind: u32) -> Event
    ensures { result ≡ record { handle = record { 0 = handle }; kind = kind; words = [] } }
{
    Event {
        handle: Handle(handle),
        kind,
        words: Words::new(),
    }
}

/// A receive of this queue, with eight cells.
fn receive(queue: u16) -> Context
    ensures { result ≡ receive_of queue }
{
    Context::Receive(Receive {
        queue: QueueId(queue),
        eo: EoId(0),
        event: event(65537, 7),
        stamp: None,
        ticket: None,
        cells: Some(Cells([1, 2, 3, 4, 5, 6, 7, 8])),
        rest: Rest::new(),
    })
}

fn receives<W: Work>(run: &mut CoreRun<W>) -> bool
    requires { IsReady W.Work run.old [] }
    ensures { IsTrue result → IsReady W.Work run.new received }
{
    match run.next() {
        Step::Take => {
            run.told(&reply(Answer::Context(receive(0))));
            true
        }
        _ => false,
    }
}

fn pauses<W: Work>(run: &mut CoreRun<W>) -> bool
    requires { IsReady W.Work run.old received }
    ensures { IsTrue result → IsReady W.Work run.new received }
{
    matches!(run.next(), Step::Silent)
}

fn dequeues<W: Work>(run: &mut CoreRun<W>) -> bool
    requires { IsReady W.Work run.old received }
    ensures { IsTrue result → IsReady W.Work run.new dequeued }
{
    match run.next() {
        Step::Ask(Ask::Dequeue(queue)) if queue.0 == 1 => {
            run.told(&reply(Answer::Minted(event(131072, 3))));
            true
        }
        _ => false,
    }
}

fn frees<W: Work>(run: &mut CoreRun<W>) -> bool
    requires { IsReady W.Work run.old dequeued }
    ensures { IsTrue result → IsReady W.Work run.new freed }
{
    match run.next() {
        Step::Ask(Ask::Free(65537)) => {
            run.told(&reply(Answer::Done));
            true
        }
        _ => false,
    }
}

fn claims<W: Work>(run: &mut CoreRun<W>) -> bool
    requires { IsReady W.Work run.old freed }
    ensures { IsTrue result → IsReady W.Work run.new claimed }
{
    match run.next() {
        Step::Ask(Ask::Claim) => {
            run.told(&reply(Answer::Nothing));
            true
        }
        _ => false,
    }
}

fn is_refused<W: Work>(run: &mut CoreRun<W>) -> bool
    requires { IsReady W.Work run.old claimed }
    ensures { IsTrue result → IsReady W.Work run.new refused }
{
    match run.next() {
        Step::Ask(Ask::Free(5)) => {
            run.told(&reply(Answer::Refused(Fault::NeverMinted(5))));
            true
        }
        _ => false,
    }
}

/// The context leaves its atomic context early, with the work's cells.
fn leaves_early<W: Work>(run: &mut CoreRun<W>) -> bool
    requires { IsReady W.Work run.old refused }
    ensures { IsTrue result → IsGoing W.Work run.new }
{
    match run.next() {
        Step::Ask(Ask::EndAtomic(cells)) => {
            run.told(&reply(Answer::Done));
            cells == Cells([1, 2, 3, 4, 5, 6, 7, 8])
        }
        _ => false,
    }
}

/// A cell is written without an atomic context.
fn writes_no_cell<W: Work>(run: &mut CoreRun<W>) -> bool
    requires { IsGoing W.Work run.old }
    ensures { IsTrue result → IsGoing W.Work run.new }
{
    match run.next() {
        Step::Ask(Ask::Cell) => {
            run.told(&reply(Answer::Refused(Fault::NotAtomic)));
            true
        }
        _ => false,
    }
}

/// The context ends, with these cells or with none.
fn ends<W: Work>(run: &mut CoreRun<W>, expected: Option<Cells>) -> bool
    requires { IsGoing W.Work run.old }
    ensures { IsTrue result → IsGoing W.Work run.new }
{
    match run.next() {
        Step::Ask(Ask::End(cells)) => {
            run.told(&reply(Answer::Done));
            cells == expected
        }
        _ => false,
    }
}

/// A receive of another queue, whose body ends at once.
fn receives_again<W: Work>(run: &mut CoreRun<W>) -> bool
    requires { IsGoing W.Work run.old }
    ensures { IsTrue result → IsGoing W.Work run.new }
{
    match run.next() {
        Step::Take => {
            run.told(&reply(Answer::Context(receive(1))));
            true
        }
        _ => false,
    }
}

/// Nothing is to be done for now.
fn rests<W: Work>(run: &mut CoreRun<W>) -> bool
    requires { IsGoing W.Work run.old }
    ensures { IsTrue result → IsGoing W.Work run.new }
{
    match run.next() {
        Step::Take => {
            run.told(&reply(Answer::Idle));
            true
        }
        _ => false,
    }
}

/// The take is refused for want of memory.
fn hands<W: Work>(run: &mut CoreRun<W>) -> bool
    requires { IsGoing W.Work run.old }
    ensures { IsTrue result → IsGoing W.Work run.new }
{
    match run.next() {
        Step::Take => {
            run.handed();
            true
        }
        _ => false,
    }
}

/// Nothing is left to do, and the run says so from then on.
fn is_over<W: Work>(run: &mut CoreRun<W>) -> bool
    requires { IsGoing W.Work run.old }
{
    match run.next() {
        Step::Take => run.told(&reply(Answer::Quiet)),
        _ => return false,
    }
    matches!(run.next(), Step::Over(EndKind::Quiet))
        && matches!(run.next(), Step::Over(EndKind::Quiet))
}

#[test]
fn two_receives_are_run(rt: HostRuntime) {
    let mut run = CoreRun::new(
        CoreId(0),
        FixedAsks {
            line: 0,
            waits: false,
            cells: None,
        },
    );
    assert!(rt; run.locals().as_slice().is_empty());
    assert!(rt; receives(&mut run));
    assert!(rt; pauses(&mut run));
    assert!(rt; dequeues(&mut run));
    assert!(rt; frees(&mut run));
    assert!(rt; claims(&mut run));
    assert!(rt; is_refused(&mut run));
    assert!(rt; leaves_early(&mut run));
    assert!(rt; writes_no_cell(&mut run));
    assert!(rt; ends(&mut run, None));
    assert!(rt; receives_again(&mut run));
    assert!(rt; ends(&mut run, Some(Cells([1, 2, 3, 4, 5, 6, 7, 8]))));
    assert!(rt; rests(&mut run));
    assert!(rt; hands(&mut run));
    assert!(rt; is_over(&mut run));
}
