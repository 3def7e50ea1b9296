//! What is left of a body's blocks.
ghost use Rattle.std.specs.Prelude.{◌≡◌, ◌<◌, ◌==◌, [], length};
ghost use Rattle.std.specs.Option.{option_copied};
ghost use Rattle.em_body.specs.Standings.{entered, resumed, first_of, after_first};

use arrayvec::ArrayVec;
use em_log::body::Stmt;
use std::marker::Model;

/// A block on its way: its statements that are left, and how many times it comes again after them.
#[derive(Clone, Copy, Default)]
struct Frame<'a> {
    rest: &'a [Stmt],
    block: &'a [Stmt],
    again: u16,
}

/// What is left of a body's blocks: the body's own, and those nested in it, up to 16.
#[derive(Drop)]
pub struct Stack<'a> {
    frames: ArrayVec<Frame<'a>, 17>,
}

impl<'a> Model for Stack<'a> {
    ghost use Rattle.std.specs.Prelude.{◌≤◌, List, length, map, reverse};
    ghost use Rattle.em_body.specs.Standings.{Left};
    ghost use Rattle.em_body.specs.Frames.{left_of};
    ghost use Rattle.em_log.specs.contracts.body.Stmt as stmt;
    ghost use Rattle.std.specs.Coded.{codes};

    ghost Value = { List Left };

    ghost coded = { Prim.hlevel (codes, stmt.the_row.coded) };

    ghost view = { λ s. reverse (map left_of s.frames.items) };

    ghost invariant = { λ s. length s.frames.items ≤ 17 };
}

impl<'a> Stack<'a> {
    pub fn new() -> Self
        ensures { result ≡ [] }
    {
        Stack {
            frames: ArrayVec::new(),
        }
    }

    pub fn clear(&mut self)
        ensures { self.new ≡ [] }
    {
        self.frames.clear();
    }

    pub fn is_empty(&self) -> bool
        ensures { result ≡ (length self.now == 0) }
    {
        self.frames.is_empty()
    }

    /// Begins a block, which comes so many times.
    pub fn enter(&mut self, block: &'a [Stmt], times: u16)
        requires { length self.old < 17 }
        ensures { self.new ≡ entered block.now times self.old }
    {
        if !block.is_empty() && times > 0 {
            self.frames.push(Frame {
                rest: block,
                block,
                again: times - 1,
            });
        }
    }

    /// Goes on in a block after a statement, or begins the block again.
    fn resume(&mut self, rest: &'a [Stmt], block: &'a [Stmt], again: u16)
        requires { length self.old < 17 }
        ensures { self.new ≡ resumed rest.now block.now again self.old }
    {
        if rest.is_empty() {
            self.enter(block, again);
        } else {
            self.frames.push(Frame { rest, block, again });
        }
    }

    /// Takes the next statement.
    pub fn take(&mut self) -> Option<&'a Stmt>
        ensures first { option_copied result ≡ first_of self.old }
        ensures rest { self.new ≡ after_first self.old }
    {
        let Some(frame) = self.frames.pop() else {
            return None;
        };
        match frame.rest {
            [first, rest @ ..] => {
                self.resume(rest, frame.block, frame.again);
                Some(first)
            }
            [] => {
                self.enter(frame.block, frame.again);
                None
            }
        }
    }
}
