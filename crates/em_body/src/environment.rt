//! What a body's statements see, and what the answers to their asks leave of it.
ghost use Rattle.std.specs.Prelude.{◌≡◌, Some, ◌%◌, slice_set, map};
ghost use Rattle.std.specs.Option.{option_map};
ghost use Rattle.em_log.specs.Expressions.{with_var};
ghost use Rattle.em_log.specs.Bodies.{set_in, variable, error_env};
ghost use Rattle.em_log.specs.Legal.{plain_env};

use crate::faults::{detail_of, number_of};
use em_log::ask::{Answer, Context, Receive};
use em_log::body::Stmt;
use em_log::entry::Event;
use em_log::fault::Fault;
use em_log::ids::{Cells, CoreId, QueueId};
use em_log::lists::Words;

/// What a body's statements see: its variables, the current event's kind and words, the handle and the queue of the
/// receive, the core, the cells where the context holds an atomic context, whether the last ask was accepted, and in an
/// error body its fault's number and detail.
#[derive(Debug, Drop)]
pub struct Environment {
    pub variables: [u64; 16],
    pub kind: u32,
    pub words: Words,
    pub me: u64,
    pub queue: QueueId,
    pub core: CoreId,
    pub cells: Option<Cells>,
    pub ok: bool,
    pub fault: u64,
    pub detail: u64,
}

/// The variable that a statement's answer sets, if it does.
pub fn variable_of(s: &Stmt) -> Option<u8>
    ensures { result ≡ variable s.now }
{
    match s {
        Stmt::Alloc { v, .. } => Some(*v),
        Stmt::Claim { v } => Some(*v),
        Stmt::Dequeue { v, .. } => Some(*v),
        _ => None,
    }
}

impl Environment {
    ghost use Rattle.em_body.specs.Environments.{env_of, with_event};
    ghost use Rattle.em_body.specs.Standings.{minted, done, answered, after_error, opening, received};

    /// An environment without an event.
    pub fn plain(core: CoreId) -> Self
        ensures { env_of result ≡ plain_env core.0 }
    {
        Environment {
            variables: [0; 16],
            kind: 0,
            words: Words::new(),
            me: 0,
            queue: QueueId(0),
            core,
            cells: None,
            ok: true,
            fault: 0,
            detail: 0,
        }
    }

    fn received(core: CoreId, receive: &Receive) -> Self
        ensures { env_of result ≡ received core.0 receive.now }
    {
        Environment {
            kind: receive.event.kind,
            words: receive.event.words.copy(),
            me: receive.event.handle.0,
            queue: receive.queue,
            cells: receive.cells,
            ..Environment::plain(core)
        }
    }

    /// The environment in which the body of a context begins.
    pub fn opening(core: CoreId, context: &Context) -> Self
        ensures { env_of result ≡ opening core.0 context.now }
    {
        match context {
            Context::Receive(receive) => Environment::received(core, receive),
            _ => Environment::plain(core),
        }
    }

    pub fn set(&mut self, variable: u8, value: u64)
        ensures { env_of self.new ≡ with_var variable value (env_of self.old) }
    {
        if (variable as usize) < self.variables.len() {
            self.variables[variable as usize] = value;
        }
    }

    /// Writes the cell of this number modulo 8, where there are cells.
    pub fn write(&mut self, cell: u64, value: u64)
        ensures { env_of self.new ≡ record (env_of self.old) { cells = option_map (λ cs. slice_set cs (cell % 8) value) (env_of self.old).cells } }
    {
        if let Some(cells) = &mut self.cells {
            cells.0[(cell % 8) as usize] = value;
        }
    }

    /// Sets this variable, if it is one.
    fn set_in(&mut self, variable: Option<u8>, value: u64)
        ensures { env_of self.new ≡ set_in variable value (env_of self.old) }
    {
        if let Some(v) = variable {
            self.set(v, value);
        }
    }

    /// Makes an event the current one.
    fn bring(&mut self, event: &Event)
        ensures { env_of self.new ≡ with_event event.now (env_of self.old) }
    {
        self.kind = event.kind;
        self.words = event.words.copy();
    }

    fn mint(&mut self, s: &Stmt, event: &Event)
        ensures { env_of self.new ≡ minted s.now event.now (env_of self.old) }
    {
        match s {
            Stmt::Alloc { v, .. } => self.set(*v, event.handle.0),
            _ => {
                self.bring(event);
                self.set_in(variable_of(s), event.handle.0);
            }
        }
    }

    fn done(&mut self, s: &Stmt)
        ensures { env_of self.new ≡ done s.now (env_of self.old) }
    {
        match s {
            Stmt::EndAtomic => self.cells = None,
            _ => {}
        }
    }

    /// After a refused ask, whose statement has this variable.
    pub fn refused(&mut self, variable: Option<u8>)
        ensures { env_of self.new ≡ set_in variable 0 (record (env_of self.old) { ok = 0 }) }
    {
        self.ok = false;
        self.set_in(variable, 0);
    }

    /// The environment in which the error body of this fault begins.
    pub fn in_error(&self, fault: Fault) -> Self
        ensures { env_of result ≡ error_env fault (env_of self.now) }
    {
        Environment {
            variables: [0; 16],
            kind: self.kind,
            words: self.words.copy(),
            me: self.me,
            queue: self.queue,
            core: self.core,
            cells: self.cells,
            ok: true,
            fault: number_of(fault),
            detail: detail_of(fault),
        }
    }

    /// The same after the error body that has served the fault, and has ended in this environment.
    pub fn served(&mut self, variable: Option<u8>, error: &Environment)
        ensures { env_of self.new ≡ after_error variable (env_of self.old) (env_of error.now) }
    {
        self.kind = error.kind;
        self.words = error.words.copy();
        self.cells = error.cells;
        self.refused(variable);
    }

    /// What the answer to this statement's ask leaves.
    pub fn answered(&mut self, s: &Stmt, answer: &Answer)
        ensures { env_of self.new ≡ answered s.now answer.now (env_of self.old) }
    {
        match answer {
            Answer::Refused(_) => self.refused(variable_of(s)),
            Answer::Minted(event) => {
                self.mint(s, event);
                self.ok = true;
            }
            Answer::Nothing => {
                self.set_in(variable_of(s), 0);
                self.ok = true;
            }
            Answer::Done => {
                self.done(s);
                self.ok = true;
            }
            _ => {}
        }
    }
}
