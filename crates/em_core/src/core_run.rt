//! The run of one core.
ghost use Rattle.std.specs.Prelude.{◌≡◌, ◌<◌, ◌≤◌, ◌^◌, length};
ghost use Rattle.em_core.specs.Spent.{words_in as the_words_in, handles_in, minted, AreWords, IsMinted, IsDone, count_after};

use em_log::{Answer, Ask, Cells, Context, CoreId, EndKind, Locals, Move, Reply, Work};

/// The next step of a core. `Take` and `Ask` are for the desk, and their replies are told to the run; `Untake` is too,
/// and does not come yet. `Silent` asks nothing. `Over` and `Halted` say how the run has ended, and come again.
#[derive(Debug, Drop)]
pub enum Step {
    Take,
    Untake,
    Ask(Ask),
    Silent,
    Over(EndKind),
    Halted,
}

/// Where a run stands.
#[derive(Clone, Copy, Debug, PartialEq, Eq)]
enum Stage {
    /// No context is open.
    Between,
    /// A take has no reply yet.
    Taking,
    /// A context is open. Its last ask, where that has no answer yet, spends so many handles when it is done.
    Open(u8),
    /// The end of the open context, with these cells, has no answer yet.
    Ending(Option<Cells>),
    /// The run has ended so.
    Over(EndKind),
    /// The run was halted.
    Halted,
}

/// How many handles the ask spends when it is done.
fn words_in(ask: &Ask) -> u8
    ensures { result ≡ length (the_words_in ask.now) }
{
    match ask {
        Ask::Free(_) | Ask::Send { .. } | Ask::Keep(_) => 1,
        Ask::Apply { notes, .. }
        | Ask::Start { notes, .. }
        | Ask::Stop { notes, .. }
        | Ask::Modify { notes, .. } => notes.as_slice().len() as u8,
        _ => 0,
    }
}

/// How many handles a context holds at first: that of the event that it receives.
fn opening_handles(context: &Context) -> u128
    ensures count { result ≡ length (handles_in context.now) }
    ensures words { AreWords (handles_in context.now) }
{
    match context {
        Context::Receive(receive) => {
            // Read here, so that it is known to be a word.
            let _handle = receive.event.handle.0;
            1
        }
        _ => 0,
    }
}

/// How many of so many handles are held after this answer to an ask that spends some when it is done.
fn held_after(held: u128, words: u8, answer: &Answer) -> u128
    requires minted { IsMinted answer.now → held < 2 ^ 65 }
    requires done { IsDone answer.now → words ≤ held }
    ensures count { result ≡ count_after held words answer.now }
    ensures words { AreWords (minted answer.now) }
{
    match answer {
        Answer::Minted(event) => {
            // Read here, so that it is known to be a word.
            let _handle = event.handle.0;
            held + 1
        }
        Answer::Done => held - u128::from(words),
        _ => held,
    }
}

/// The run of one core: it takes one context after another, and asks in each what its work asks.
#[derive(Drop)]
pub struct CoreRun<W> {
    core: CoreId,
    work: W,
    stage: Stage,
    // How many handles the open context holds: all words of 64 bits would fit.
    held: u128,
    locals: Locals,
}

impl<W: Work> CoreRun<W> {
    ghost use Rattle.std.specs.Prelude.{◌≡◌, ℕ, List, [], ◌∷◌, true, Some, None, IsTrue};
    ghost use Rattle.em_log.specs.declared.ask.Ask.{Ask as TheAsk};
    ghost use Rattle.em_log.specs.Handles.{held as held_by};
    ghost use Rattle.em_log.specs.Works.{Fits};
    ghost use Rattle.em_core.specs.Pieces.{Piece, HasNoRest, history};
    ghost use Rattle.em_core.specs.Stands.{Stands, HoldsHandles};
    ghost use Rattle.em_core.specs.Steps.{Steps, unreplied, awaited, is_open, FitsStep, fits_take, ToldNoRest, AreHandles, Grows, GrowsByTake, GrowsByAsk, over, over_by};
    ghost use Rattle.em_core.specs.declared.core_run.Stage.{Stage};
    ghost use Rattle.em_core.specs.declared.core_run.Step.{Step as TheStep};

    /// A run of this core that has done nothing yet.
    pub fn new(core: CoreId, work: W) -> CoreRun<W>
        ensures stands { Stands W.Work result core.0 (W.fixed work) [] }
        ensures unreplied { unreplied W.Work result ≡ None }
        ensures over { over result ≡ None }
    {
        CoreRun {
            core,
            work,
            stage: Stage::Between,
            held: 0,
            locals: Locals::new(),
        }
    }

    /// The next step. Each Take or Ask that it answered before has had its reply by `told`, or a Take `handed`.
    pub fn next(&mut self) -> Step
        requires { unreplied W.Work self.old ≡ None }
        ensures steps { Steps W.Work self.old result self.new }
        ensures unreplied { unreplied W.Work self.new ≡ awaited result }
        ensures stands { (c : ℕ) (f : W.Fixed) (m : List Piece) → Stands W.Work self.old c f m → Stands W.Work self.new c f m }
    {
        match self.stage {
            Stage::Open(_) => self.move_on(),
            Stage::Over(kind) => Step::Over(kind),
            Stage::Halted => Step::Halted,
            _ => {
                self.stage = Stage::Taking;
                Step::Take
            }
        }
    }

    /// One move of the work in the open context.
    fn move_on(&mut self) -> Step
        requires open { is_open self.old ≡ true }
        requires unreplied { unreplied W.Work self.old ≡ None }
        ensures steps { Steps W.Work self.old result self.new }
        ensures unreplied { unreplied W.Work self.new ≡ awaited result }
        ensures stands { (c : ℕ) (f : W.Fixed) (m : List Piece) → Stands W.Work self.old c f m → Stands W.Work self.new c f m }
    {
        match self.work.next() {
            Move::Silent => Step::Silent,
            Move::Ask(ask) => {
                self.stage = Stage::Open(words_in(&ask));
                Step::Ask(ask)
            }
            Move::End => {
                let cells = self.work.cells();
                self.stage = Stage::Ending(cells);
                Step::Ask(Ask::End(cells))
            }
        }
    }

    /// The local entries that go with the next ask: today none.
    pub fn locals(&self) -> &Locals
        ensures { (c : ℕ) (f : W.Fixed) (m : List Piece) → Stands W.Work self.now c f m → result.now ≡ [] }
    {
        &self.locals
    }

    /// The reply to the last Take or Ask. To a Take it is a context, an acknowledgement, or `Idle`, `Quiet`, `Limit` or
    /// `Halted`; to an Ask it is one that the ask may have. What a done ask spends are different handles that the open
    /// context holds, and what is minted is none of them. Today a context comes with no further events.
    pub fn told(&mut self, reply: &Reply)
        requires fits { FitsStep (unreplied W.Work self.old) reply.now.answer }
        requires no_rest { ToldNoRest reply.now.answer }
        requires handles { HoldsHandles W.Work self.old reply.now.answer }
        ensures stands { (c : ℕ) (f : W.Fixed) (m n : List Piece) → Stands W.Work self.old c f m → AreHandles (held_by (history c m) c) (unreplied W.Work self.old) reply.now.answer → Grows c (unreplied W.Work self.old) reply.now.answer m n → Stands W.Work self.new c f n }
        ensures unreplied { unreplied W.Work self.new ≡ None }
        ensures over { over self.new ≡ over_by reply.now.answer }
    {
        match self.stage {
            Stage::Taking => self.took(&reply.answer),
            Stage::Open(words) => self.answered(words, &reply.answer),
            Stage::Ending(_) => {
                self.held = 0;
                self.stage = Stage::Between;
            }
            _ => {}
        }
    }

    /// The answer to a take.
    fn took(&mut self, answer: &Answer)
        requires taking { self.old.stage ≡ Stage.Taking }
        requires fits { IsTrue (fits_take answer.now) }
        requires no_rest { ToldNoRest answer.now }
        ensures stands { (c : ℕ) (f : W.Fixed) (m n : List Piece) → Stands W.Work self.old c f m → GrowsByTake answer.now m n → Stands W.Work self.new c f n }
        ensures unreplied { unreplied W.Work self.new ≡ None }
        ensures over { over self.new ≡ over_by answer.now }
    {
        match answer {
            Answer::Context(context) => self.open(context),
            Answer::Quiet => self.stage = Stage::Over(EndKind::Quiet),
            Answer::Limit => self.stage = Stage::Over(EndKind::Limit),
            Answer::Halted => self.stage = Stage::Halted,
            _ => self.stage = Stage::Between,
        }
    }

    /// Begins a context.
    fn open(&mut self, context: &Context)
        requires taking { self.old.stage ≡ Stage.Taking }
        requires no_rest { HasNoRest context.now }
        ensures stands { (c : ℕ) (f : W.Fixed) (m : List Piece) → Stands W.Work self.old c f m → Stands W.Work self.new c f (Piece.Opened context.now ∷ m) }
        ensures unreplied { unreplied W.Work self.new ≡ None }
        ensures over { over self.new ≡ None }
    {
        self.work.begin(context);
        self.held = opening_handles(context);
        self.stage = Stage::Open(0);
    }

    /// The answer to an ask that spends so many handles when it is done.
    fn answered(&mut self, words: u8, answer: &Answer)
        requires stage { self.old.stage ≡ Stage.Open words }
        requires fits { Fits (W.unanswered (W.state self.old.work)) answer.now }
        requires handles { HoldsHandles W.Work self.old answer.now }
        ensures stands { (c : ℕ) (f : W.Fixed) (m n : List Piece) (a : TheAsk) → W.unanswered (W.state self.old.work) ≡ Some a → Stands W.Work self.old c f m → AreHandles (held_by (history c m) c) (Some (TheStep.Ask a)) answer.now → GrowsByAsk c a answer.now m n → Stands W.Work self.new c f n }
        ensures unreplied { unreplied W.Work self.new ≡ None }
        ensures over { over self.new ≡ None }
    {
        self.work.answer(answer);
        self.held = held_after(self.held, words, answer);
        self.stage = Stage::Open(0);
    }

    /// The last Take was refused: it comes again.
    pub fn handed(&mut self)
        requires { unreplied W.Work self.old ≡ Some TheStep.Take }
        ensures stands { (c : ℕ) (f : W.Fixed) (m : List Piece) → Stands W.Work self.old c f m → Stands W.Work self.new c f m }
        ensures unreplied { unreplied W.Work self.new ≡ None }
        ensures over { over self.new ≡ None }
    {
        self.stage = Stage::Between;
    }
}
