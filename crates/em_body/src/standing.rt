//! Where a body stands.
ghost use Rattle.std.specs.Prelude.{◌≡◌, ◌<◌, IsTrue, length, [], None};
ghost use Rattle.std.specs.Option.{option_copied};
ghost use Rattle.em_body.specs.Environments.{env_of};
ghost use Rattle.em_body.specs.Kept.{outer_of, standing_of};
ghost use Rattle.em_body.specs.Standings.{entered, Does, is_small, nests, chosen as branch_of, left_by, refused, serving, settled};

use crate::asks::ask_of;
use crate::environment::{Environment, variable_of};
use crate::stack::Stack;
use crate::values::value;
use em_log::ask::Answer;
use em_log::body::{Block, Stmt};
use em_log::fault::Fault;
use em_log::work::Move;
use std::mem;

/// The body that an error body serves: the variable of its refused statement, its environment, and what is left of its
/// blocks.
#[derive(Drop)]
pub struct Outer<'a> {
    variable: Option<u8>,
    environment: Environment,
    stack: Stack<'a>,
}

/// Where a body stands: its environment, what is left of its blocks, the statement whose ask is not answered yet, the error
/// body that serves its context, and, in that error body, the body that it serves.
#[derive(Drop)]
pub struct Standing<'a> {
    pub environment: Environment,
    pub stack: Stack<'a>,
    pub asking: Option<&'a Stmt>,
    pub error: Option<&'a Block>,
    pub outer: Option<Outer<'a>>,
}

fn chosen<'a>(test: u64, yes: &'a [Stmt], no: &'a [Stmt]) -> &'a [Stmt]
    ensures { result.now ≡ branch_of test yes.now no.now }
{
    if test == 0 { no } else { yes }
}

impl<'a> Standing<'a> {
    /// In this environment, with nothing left.
    pub fn new(environment: Environment) -> Self
        ensures { standing_of result ≡ record { env = env_of environment; left = []; asking = None; error = None; outer = None } }
    {
        Standing {
            environment,
            stack: Stack::new(),
            asking: None,
            error: None,
            outer: None,
        }
    }

    /// Begins a body in this environment, which this error body serves.
    pub fn begin(&mut self, environment: Environment, body: &'a [Stmt], error: Option<&'a Block>)
        ensures { standing_of self.new ≡ record { env = env_of environment; left = entered body.now 1 []; asking = None; error = option_copied error.entry; outer = None } }
    {
        self.environment = environment;
        self.stack.clear();
        self.stack.enter(body, 1);
        self.asking = None;
        self.error = error;
        self.outer = None;
    }

    /// Where nothing is left of an error body, the body that it has served goes on.
    pub fn settle(&mut self)
        ensures { standing_of self.new ≡ settled (standing_of self.old) }
    {
        if !self.stack.is_empty() {
            return;
        }
        if let Some(outer) = mem::replace(&mut self.outer, None) {
            let error = mem::replace(&mut self.environment, outer.environment);
            self.environment.served(outer.variable, &error);
            self.stack = outer.stack;
        }
    }

    /// Carries out a statement: its move.
    pub fn carry_out(&mut self, s: &'a Stmt) -> Move
        requires asking { (standing_of self.old).asking ≡ None }
        requires small { IsTrue (is_small s.now) }
        requires room { IsTrue (nests s.now) → length self.old.stack < 17 }
        ensures { Does s.now (standing_of self.old) result (standing_of self.new) }
    {
        match s {
            Stmt::Set { v, value: e } => {
                let n = value(e, &self.environment);
                self.environment.set(*v, n);
                Move::Silent
            }
            Stmt::If { test, yes, no, .. } => {
                let test = value(test, &self.environment);
                self.stack
                    .enter(chosen(test, yes.as_slice(), no.as_slice()), 1);
                Move::Silent
            }
            Stmt::Repeat { times, block } => {
                self.stack.enter(block.as_slice(), *times);
                Move::Silent
            }
            Stmt::CellWrite { cell, value: e } if self.environment.cells.is_some() => {
                let cell = value(cell, &self.environment);
                let n = value(e, &self.environment);
                self.environment.write(cell, n);
                Move::Silent
            }
            _ => {
                self.asking = Some(s);
                Move::Ask(ask_of(s, &self.environment))
            }
        }
    }

    /// Begins the error body of this fault.
    fn serve(&mut self, s: &'a Stmt, fault: Fault, body: &'a Block)
        ensures { standing_of self.new ≡ serving s.now fault body.now (standing_of self.old) }
    {
        let environment = self.environment.in_error(fault);
        let environment = mem::replace(&mut self.environment, environment);
        let stack = mem::replace(&mut self.stack, Stack::new());
        self.stack.enter(body.as_slice(), 1);
        self.asking = None;
        self.outer = Some(Outer {
            variable: variable_of(s),
            environment,
            stack,
        });
    }

    fn refused(&mut self, s: &'a Stmt, fault: Fault)
        ensures { standing_of self.new ≡ refused (standing_of self.old).error (standing_of self.old).outer s.now fault (standing_of self.old) }
    {
        match self.error {
            Some(body) if self.outer.is_none() => self.serve(s, fault, body),
            _ => {
                self.environment.refused(variable_of(s));
                self.asking = None;
            }
        }
    }

    /// What the answer to the last ask leaves.
    pub fn answered(&mut self, answer: &Answer)
        ensures { standing_of self.new ≡ left_by (standing_of self.old).asking answer.now (standing_of self.old) }
    {
        let Some(s) = self.asking else {
            return;
        };
        match answer {
            Answer::Refused(fault) => self.refused(s, *fault),
            _ => {
                self.environment.answered(s, answer);
                self.asking = None;
            }
        }
    }
}
