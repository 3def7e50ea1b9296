//! The board and its calls.
ghost use Rattle.std.specs.Prelude.{◌≡◌, ◌≤◌, ◌-◌, [], false, None, IfOk, OnErr, IsTrue};
ghost use Rattle.std.specs.Vec.{vec_capacity, vec_len};
ghost use Rattle.em_log.specs.Declarations.{declarations_of};
ghost use Rattle.em_log.specs.Contexts.{context};
ghost use Rattle.em_log.specs.Lawful.{Lawful, may_ask};
ghost use Rattle.em_log.specs.Allowance.{cost_of_ask, left};
ghost use Rattle.em_log.specs.Places.{taken};
ghost use Rattle.em_laws.specs.AllLaws.{KeepsLaws};
ghost use Rattle.em_desk.specs.Graphs.{AreInBounds, AreInRange};
ghost use Rattle.em_desk.specs.Served.{served};
ghost use Rattle.em_board.specs.Marked.{history};
ghost use Rattle.em_board.specs.SharedDesks.{fixed_of};
ghost use Rattle.em_board.specs.Passes.{passes_from, seat_before, AreOf, AreAll};
ghost use Rattle.em_board.specs.Joins.{IsJoined};
ghost use Rattle.em_board.specs.Calls.{IsAsked, IsTaken, IsUntaken, IsHalted, ClosesEach, any_marked};

use crate::pass::{Pass, Passes};
use crate::shared_desk::SharedDesk;
use em_desk::Desk;
use em_log::{Ask, Config, CoreId, Limits, Locals, MAX_CORES, NoMemory, Reply};
use em_replies::BriefReply;
use em_turn::{Turn, TurnSeat};
use std::alloc::Global;
use std::marker::Model;
use std::sync::Wait;

/// A desk that threads share. Contracts see which board it is.
#[derive(Drop)]
pub struct Board {
    turn: Turn<SharedDesk>,
}

impl Model for Board {
    ghost use Rattle.em_turn.specs.Seats.{TableId};

    ghost Value = { TableId };

    ghost view = { λ b. b.turn };
}

// Splits a seat off for each core but the first, and puts their passes into the list.
fn split_all(
    turn: &Turn<SharedDesk>,
    mut first: TurnSeat<SharedDesk>,
    mut list: Vec<Pass>,
    cores: u8,
) -> (TurnSeat<SharedDesk>, Vec<Pass>)
    requires first { first ≡ seat_before turn.now first.fixed 1 }
    requires cores { (first.fixed.declarations.cores ≡ cores) × (1 ≤ cores) × (cores ≤ 8) }
    requires list { (list.items ≡ []) × (vec_len list ≡ 0) × (8 ≤ vec_capacity list) }
    ensures first { result.0 ≡ seat_before turn.now first.fixed cores }
    ensures list { result.1.items ≡ passes_from turn.now first.fixed 1 (cores - 1) }
    ensures room { 8 ≤ vec_capacity result.1 }
{
    for core in 1..cores {
        let seat = turn.split(&mut first);
        list.push_reserved(Pass {
            core: CoreId(core),
            seat,
        });
    }
    (first, list)
}

// Joins the seats of the passes to the seat.
fn join_all(
    turn: &Turn<SharedDesk>,
    mut seat: TurnSeat<SharedDesk>,
    mut list: Vec<Pass>,
) -> TurnSeat<SharedDesk>
    requires here { (seat.turn ≡ turn.now) × (seat.inside ≡ false) }
    requires list { AreOf seat.turn seat.fixed list.items }
    ensures { IsJoined seat result list.items }
{
    while let Some(pass) = list.pop() {
        let Pass {
            core: _,
            seat: other,
        } = pass;
        turn.join(&mut seat, other);
    }
    seat
}

impl Board {
    /// A board over this graph with the empty history, and a pass for each core, in their order. Err is want of memory.
    pub fn build(
        alloc: Global,
        config: &Config,
        limits: Limits,
    ) -> Result<(Board, Passes), NoMemory>
        requires graph { AreInBounds (declarations_of config.now) }
        requires limits { AreInRange limits }
        ensures passes { IfOk result (λ r. r.1 ≡ passes_from r.0 (fixed_of (declarations_of config.now) limits) 0 config.now.cores) }
        ensures all { IfOk result (λ r. AreAll r.0 r.1) }
    {
        let desk = Desk::build(alloc, config, limits)?;
        let shared = SharedDesk::new(alloc, desk)?;
        let Ok((turn, first)) = Turn::new(alloc, shared) else {
            return Err(NoMemory);
        };
        let Ok(list) = Vec::with_capacity(alloc, usize::from(MAX_CORES)) else {
            return Err(NoMemory);
        };
        let (first, mut list) = split_all(&turn, first, list, config.cores);
        let pass = Pass {
            core: CoreId(0),
            seat: first,
        };
        let Ok(()) = list.insert(0, pass) else {
            return Err(NoMemory);
        };
        Ok((Board { turn }, Passes { list }))
    }

    /// The desk, where all passes of the board are given back. Its history begins with what each of them has seen.
    pub fn close(self, passes: Passes) -> Desk
        requires all { AreAll self passes }
        ensures each { ClosesEach result passes }
        ensures halted { result.halted ≡ any_marked passes }
        ensures lawful { Lawful result.declarations result.limits result.past }
        ensures laws { KeepsLaws result.declarations result.past }
    {
        let Board { turn } = self;
        let Passes { mut list } = passes;
        let Some(first) = list.pop() else {
            unreachable!()
        };
        let Pass { core: _, seat } = first;
        let seat = join_all(&turn, seat, list);
        let shared = turn.close(seat);
        shared.is_lawful();
        let desk = shared.into_desk();
        let _log = desk.log();
        desk
    }

    /// A take of the pass's core, in one turn, which waits until it comes. Err is want of memory, and adds nothing.
    pub fn take(&self, wait: &impl Wait, pass: &mut Pass, local: &Locals) -> Result<Reply, NoMemory>
        requires here { pass.old.board ≡ self.now }
        requires no_locals { local.now ≡ [] }
        requires closed { context (history pass.old.seen) pass.old.core ≡ None }
        requires untaken { taken pass.old.fixed.declarations (history pass.old.seen) pass.old.core ≡ [] }
        ensures ok { IfOk result (λ r. IsTaken pass.old pass.new r) }
        ensures err { OnErr result (IsUntaken pass.old pass.new) }
    {
        let brief = self.take_brief(wait, pass, local)?;
        Ok(brief.into_reply())
    }

    /// The same as `take`, with its reply in a small form.
    pub fn take_brief(
        &self,
        wait: &impl Wait,
        pass: &mut Pass,
        local: &Locals,
    ) -> Result<BriefReply, NoMemory>
        requires here { pass.old.board ≡ self.now }
        requires no_locals { local.now ≡ [] }
        requires closed { context (history pass.old.seen) pass.old.core ≡ None }
        requires untaken { taken pass.old.fixed.declarations (history pass.old.seen) pass.old.core ≡ [] }
        ensures ok { IfOk result (λ r. IsTaken pass.old pass.new r) }
        ensures err { OnErr result (IsUntaken pass.old pass.new) }
    {
        let mut shared = self.turn.enter(wait, &mut pass.seat);
        shared.is_lawful();
        let result = shared.take_brief(pass.core, local);
        self.turn.leave(&mut pass.seat, shared);
        result
    }

    /// An ask of the open context of the pass's core, in one turn.
    pub fn ask(&self, wait: &impl Wait, pass: &mut Pass, ask: Ask, local: &Locals) -> Reply
        requires here { pass.old.board ≡ self.now }
        requires no_locals { local.now ≡ [] }
        requires may_ask { IsTrue (may_ask pass.old.fixed.declarations (history pass.old.seen) pass.old.core ask) }
        requires allowance { cost_of_ask ask ≤ left pass.old.fixed.declarations (history pass.old.seen) pass.old.core }
        requires served { IsTrue (served pass.old.fixed.declarations ask) }
        ensures { IsAsked pass.old pass.new ask result }
    {
        self.ask_brief(wait, pass, ask, local).into_reply()
    }

    /// The same as `ask`, with its reply in a small form.
    pub fn ask_brief(
        &self,
        wait: &impl Wait,
        pass: &mut Pass,
        ask: Ask,
        local: &Locals,
    ) -> BriefReply
        requires here { pass.old.board ≡ self.now }
        requires no_locals { local.now ≡ [] }
        requires may_ask { IsTrue (may_ask pass.old.fixed.declarations (history pass.old.seen) pass.old.core ask) }
        requires allowance { cost_of_ask ask ≤ left pass.old.fixed.declarations (history pass.old.seen) pass.old.core }
        requires served { IsTrue (served pass.old.fixed.declarations ask) }
        ensures { IsAsked pass.old pass.new ask result }
    {
        let mut shared = self.turn.enter(wait, &mut pass.seat);
        shared.is_lawful();
        let reply = shared.ask_brief(pass.core, ask, local);
        self.turn.leave(&mut pass.seat, shared);
        reply
    }

    /// Halts the board, in one turn: each later take is answered that.
    pub fn halt(&self, wait: &impl Wait, pass: &mut Pass)
        requires here { pass.old.board ≡ self.now }
        ensures { IsHalted pass.old pass.new }
    {
        let mut shared = self.turn.enter(wait, &mut pass.seat);
        shared.is_lawful();
        shared.halt(pass.core);
        self.turn.leave(&mut pass.seat, shared);
    }
}
