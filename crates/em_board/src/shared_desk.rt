//! The value of the lock: the desk, and the mark of the halt.
ghost use Rattle.std.specs.Prelude.{◌≡◌, ◌<◌, ◌≤◌, ◌++◌, [], ◌∷◌, false, None, IfOk, OnErr, IsTrue, if◌then◌else◌};
ghost use Rattle.em_log.specs.Items.{Halted};
ghost use Rattle.em_log.specs.Contexts.{context};
ghost use Rattle.em_log.specs.Lawful.{Lawful, may_ask};
ghost use Rattle.em_log.specs.Allowance.{cost_of_ask, left};
ghost use Rattle.em_log.specs.Places.{taken};
ghost use Rattle.em_desk.specs.Served.{served};
ghost use Rattle.em_board.specs.Marked.{history, is_marked};
ghost use Rattle.em_board.specs.SharedDesks.{fixed_of, desk_in, HasOwner, SharedTook, SharedAnswered};

use em_desk::Desk;
use em_log::{Ask, CoreId, Limits, Locals, NoMemory};
use em_replies::BriefReply;
use em_turn::Listed;
use std::alloc::Global;
use std::marker::Model;

/// Who halted the desk, and how many entries there were.
#[derive(Clone, Copy)]
pub struct Mark {
    pub core: CoreId,
    pub place: usize,
}

/// A desk, and the mark of its halt where it was halted. Contracts see the fixed part and the items.
#[derive(Drop)]
pub struct SharedDesk {
    // In a box, since the lock moves the value at each turn.
    desk: Box<Desk>,
    mark: Option<Mark>,
}

impl Model for SharedDesk {
    ghost use Rattle.em_board.specs.Marked.{shown};
    ghost use Rattle.em_board.specs.SharedDesks.{SharedState, fixed_of, IsMarked};

    ghost Value = { SharedState };

    ghost view = { λ l. record { fixed = fixed_of l.desk.value.declarations l.desk.value.limits; items = shown l.desk.value.past l.mark } };

    ghost invariant = { λ l. IsMarked l.desk.value l.mark };
}

impl Listed for SharedDesk {
    ghost fixed = { λ l. l.fixed };

    ghost items = { λ l. l.items };
}

impl SharedDesk {
    /// The desk, with no mark. Err is want of memory.
    pub fn new(alloc: Global, desk: Desk) -> Result<SharedDesk, NoMemory>
        requires { (desk.past ≡ []) × (desk.halted ≡ false) }
        ensures { IfOk result (λ s. s ≡ record { fixed = fixed_of desk.declarations desk.limits; items = [] }) }
    {
        let Ok(desk) = Box::new(alloc, desk) else {
            return Err(NoMemory);
        };
        Ok(SharedDesk { desk, mark: None })
    }

    /// Does nothing: its clauses say what holds of the items.
    pub fn is_lawful(&self)
        ensures lawful { Lawful self.now.fixed.declarations self.now.fixed.limits (history self.now.items) }
        ensures owner { HasOwner self.now }
    {
        let _log = self.desk.log();
    }

    /// A take of the desk. Err is want of memory.
    pub fn take_brief(&mut self, core: CoreId, local: &Locals) -> Result<BriefReply, NoMemory>
        requires core { core.0 < self.old.fixed.declarations.cores }
        requires no_locals { local.now ≡ [] }
        requires closed { context (history self.old.items) core.0 ≡ None }
        requires untaken { taken self.old.fixed.declarations (history self.old.items) core.0 ≡ [] }
        ensures ok { IfOk result (λ r. SharedTook self.old self.new core.0 r) }
        ensures err { OnErr result (self.new ≡ self.old) }
    {
        let reply = self.desk.take_brief(core, local)?;
        let _log = self.desk.log();
        Ok(reply)
    }

    /// An ask of the desk.
    pub fn ask_brief(&mut self, core: CoreId, ask: Ask, local: &Locals) -> BriefReply
        requires core { core.0 < self.old.fixed.declarations.cores }
        requires no_locals { local.now ≡ [] }
        requires may_ask { IsTrue (may_ask self.old.fixed.declarations (history self.old.items) core.0 ask) }
        requires allowance { cost_of_ask ask ≤ left self.old.fixed.declarations (history self.old.items) core.0 }
        requires served { IsTrue (served self.old.fixed.declarations ask) }
        ensures { SharedAnswered self.old self.new core.0 ask result }
    {
        let reply = self.desk.ask_brief(core, ask, local);
        let _log = self.desk.log();
        reply
    }

    /// Halts the desk, and marks that where it was not halted.
    pub fn halt(&mut self, core: CoreId)
        requires core { core.0 < self.old.fixed.declarations.cores }
        ensures fixed { self.new.fixed ≡ self.old.fixed }
        ensures items { self.new.items ≡ self.old.items ++ (if is_marked self.old.items then [] else Halted core ∷ []) }
    {
        if self.mark.is_none() {
            let place = self.desk.log().len();
            self.desk.halt();
            self.mark = Some(Mark { core, place });
        }
    }

    /// The desk.
    pub fn into_desk(self) -> Desk
        ensures { result ≡ desk_in self }
    {
        let SharedDesk { desk, mark: _ } = self;
        Box::into_inner(desk)
    }
}
