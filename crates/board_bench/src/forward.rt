//! A core of a desk that no board guards: each receive says its kind and sends its event again.
ghost use Rattle.std.specs.Prelude.{◌≡◌, IsTrue};
ghost use Rattle.em_log.specs.Allowance.{cost_of_ask};
ghost use Rattle.em_board_rows.specs.Cores.{is_plain};

use crate::guarded::Guarded;
use em_board_rows::EVENTS;
use em_log::{Answer, Ask, Context, CoreId, PoolId, QueueId, Words};
use std::sync::{Mutex, Wait};

/// The calls of a desk.
pub trait Calls {
    fn take(&mut self, core: CoreId) -> Answer;

    fn ask(&mut self, core: CoreId, ask: Ask, cost: u16) -> Answer
        requires plain { IsTrue (is_plain ask) }
        requires cost { cost ≡ cost_of_ask ask };

    fn end(&mut self, core: CoreId);
}

impl Calls for Guarded {
    fn take(&mut self, core: CoreId) -> Answer {
        self.take_of(core)
    }

    fn ask(&mut self, core: CoreId, ask: Ask, cost: u16) -> Answer {
        self.ask_of(core, ask, cost)
    }

    fn end(&mut self, core: CoreId) {
        self.end_of(core);
    }
}

/// A desk under std's `Mutex`: each call locks it.
#[derive(Drop)]
pub struct Locked<'a, R: Wait> {
    pub rt: &'a R,
    pub desk: &'a Mutex<Guarded>,
}

impl<'a, R: Wait> Calls for Locked<'a, R> {
    fn take(&mut self, core: CoreId) -> Answer {
        self.desk.lock(self.rt).take_of(core)
    }

    fn ask(&mut self, core: CoreId, ask: Ask, cost: u16) -> Answer {
        self.desk.lock(self.rt).ask_of(core, ask, cost)
    }

    fn end(&mut self, core: CoreId) {
        self.desk.lock(self.rt).end_of(core);
    }
}

fn send_all<C: Calls>(calls: &mut C, core: CoreId) {
    for kind in 0..EVENTS {
        let alloc = Ask::Alloc {
            pool: PoolId(0),
            kind,
            words: Words::new(),
        };
        if let Answer::Minted(event) = calls.ask(core, alloc, 1) {
            let send = Ask::Send {
                word: event.handle.0,
                queue: QueueId(0),
                group: None,
            };
            calls.ask(core, send, 2);
        }
    }
}

fn forward<C: Calls>(calls: &mut C, core: CoreId, word: u64, kind: u32) {
    calls.ask(core, Ask::Say(u64::from(kind)), 1);
    let send = Ask::Send {
        word,
        queue: QueueId(0),
        group: None,
    };
    calls.ask(core, send, 2);
}

fn act<C: Calls>(calls: &mut C, core: CoreId, context: &Context) {
    match context {
        Context::Boot => send_all(calls, core),
        Context::Receive(receive) => {
            forward(calls, core, receive.event.handle.0, receive.event.kind)
        }
        _ => {}
    }
}

/// Takes, and makes the asks of each context, until the run has ended.
pub fn forward_all<C: Calls>(calls: &mut C, core: CoreId) {
    for _ in 0..u32::MAX {
        match calls.take(core) {
            Answer::Context(context) => {
                act(calls, core, &context);
                calls.end(core);
            }
            Answer::Quiet | Answer::Limit | Answer::Halted => return,
            _ => {}
        }
    }
}
