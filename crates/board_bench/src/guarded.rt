//! A desk that tests what a caller of its board knows.
ghost use Rattle.std.specs.Prelude.{◌≡◌, ◌≤◌, [], replicate, IfOk, IsTrue, if◌then◌else◌};
ghost use Rattle.em_log.specs.Allowance.{cost_of_ask};
ghost use Rattle.em_board_rows.specs.Cores.{HasOneQueue, is_context, is_plain};

use crate::desks::{ask_of, end_of, take_of};
use em_board_rows::{LIMITS, POOL, receives};
use em_desk::Desk;
use em_desk_rows::graphs::with_queue;
use em_log::{Answer, Ask, CoreId, NoMemory};
use std::alloc::Global;
use std::marker::Model;

/// The allowance of a context.
const ALLOWANCE: u16 = 256;

/// A desk, and for each core what its open context has left; 0 where none is open.
#[derive(Drop)]
pub struct Guarded {
    desk: Desk,
    left: Vec<u16>,
}

impl Model for Guarded {
    ghost use Rattle.em_desk.specs.State.{DeskState};
    ghost use Rattle.board_bench.specs.Known.{AllHaveLeft};

    ghost Value = { DeskState };

    ghost view = { λ g. g.desk };

    ghost invariant = { λ g. AllHaveLeft g.desk g.left.items };
}

/// A desk of the graph of one queue. Err is want of memory.
fn build_desk(alloc: Global, cores: u8) -> Result<Desk, NoMemory>
    requires some { 1 ≤ cores }
    requires most { cores ≤ 8 }
    ensures run { IfOk result (λ d. HasOneQueue d.declarations d.limits) }
    ensures cores { IfOk result (λ d. d.declarations.cores ≡ cores) }
    ensures past { IfOk result (λ d. d.past ≡ []) }
{
    let config = with_queue(alloc, cores, POOL)?;
    Desk::build(alloc, &config, LIMITS)
}

/// A 0 for each core. Err is want of memory.
fn none_left(alloc: Global, cores: u8) -> Result<Vec<u16>, NoMemory>
    ensures { IfOk result (λ v. v.items ≡ replicate cores 0) }
{
    let Ok(left) = Vec::from_elem(alloc, 0, usize::from(cores)) else {
        return Err(NoMemory);
    };
    Ok(left)
}

/// What a take that is answered so leaves to the core.
fn allowance_by(answer: &Answer) -> u16
    ensures { result ≡ (if is_context answer.now then 256 else 0) }
{
    match answer {
        Answer::Context(_) => ALLOWANCE,
        _ => 0,
    }
}

impl Guarded {
    /// A desk of the graph of one queue. Err is want of memory.
    pub fn build(alloc: Global, cores: u8) -> Result<Guarded, NoMemory>
        requires some { 1 ≤ cores }
        requires most { cores ≤ 8 }
    {
        let desk = build_desk(alloc, cores)?;
        let left = none_left(alloc, cores)?;
        Ok(Guarded { desk, left })
    }

    /// A take, where the core is between contexts.
    pub fn take_of(&mut self, core: CoreId) -> Answer {
        let place = usize::from(core.0);
        if place >= self.left.len() || self.left[place] != 0 {
            return Answer::Idle;
        }
        let answer = take_of(&mut self.desk, core);
        self.left[place] = allowance_by(&answer);
        answer
    }

    /// An ask, where the core's context has more left than this, which is its cost.
    pub fn ask_of(&mut self, core: CoreId, ask: Ask, cost: u16) -> Answer
        requires plain { IsTrue (is_plain ask) }
        requires cost { cost ≡ cost_of_ask ask }
    {
        let place = usize::from(core.0);
        if place >= self.left.len() || self.left[place] <= cost {
            return Answer::Idle;
        }
        let answer = ask_of(&mut self.desk, core, ask);
        self.left[place] -= cost;
        answer
    }

    /// How many receives there were.
    pub fn receives(&self) -> usize {
        receives(self.desk.log())
    }

    /// The end of the core's context, where one is open.
    pub fn end_of(&mut self, core: CoreId) {
        let place = usize::from(core.0);
        if place >= self.left.len() || self.left[place] == 0 {
            return;
        }
        end_of(&mut self.desk, core);
        self.left[place] = 0;
    }
}
