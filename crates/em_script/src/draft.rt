//! The graph that is being read, and what each line does to it.
ghost use Rattle.std.specs.Prelude.{◌≡◌, IfOk, OnOk};
ghost use Rattle.em_script.specs.Judging.{rule_of};
ghost use Rattle.em_script.specs.State.{State, after, body_ended, closed_block, declared, ended, first_state, graph_of, new_eo, opened_by, state_of, turned, with_body_at, with_part};

use crate::line::{Line, Part, Place};
use crate::named::Named;
use crate::names::Names;
use crate::phase::Phase;
use crate::stack::Stack;
use bitflags::Flags;
use em_log::{
    AgroupDecl, Block, Config, CoreMask, Decl, EoDecl, EoId, EventGroupId, Expr, Given, GroupDecl,
    GroupId, List, Name, NoMemory, PoolDecl, PoolId, QueueDecl, QueueId, Stmt,
};
use std::alloc::Global;
use std::mem;

/// What opened a block: an `if`, the `else` of an `if` with its first branch, or a `repeat`.
#[derive(Debug, Drop)]
pub enum Opened {
    If(Expr),
    Else(Expr, Block),
    Repeat(u16),
}

/// A block that stands open: the statements before it in the block around it, and what opened it.
#[derive(Debug, Drop)]
pub struct Frame {
    pub before: Block,
    pub opened: Opened,
}

/// What has been read of a script.
#[derive(Drop)]
pub(crate) struct Draft {
    pub cores: u8,
    pub order: List<Decl>,
    pub pools: List<PoolDecl>,
    pub groups: List<GroupDecl>,
    pub eos: Vec<EoDecl>,
    pub agroups: List<AgroupDecl>,
    pub queues: List<QueueDecl>,
    pub egroups: List<Name>,
    pub boot: Block,
    pub error: Option<Block>,
    pub names: Names,
    pub has_boot: bool,
    pub phase: Phase,
    pub block: Block,
    pub nest: Stack<Frame>,
}

fn new_eo(alloc: Global, name: Name, running: bool) -> EoDecl
    ensures { result ≡ new_eo name running }
{
    EoDecl {
        name,
        running,
        receive: List::new(alloc),
        start: List::new(alloc),
        stop: List::new(alloc),
        lstart: List::new(alloc),
        lstop: List::new(alloc),
        error: None,
        given: Given {
            receive: false,
            start: false,
            stop: false,
            lstart: false,
            lstop: false,
        },
    }
}

/// Gives an object a body.
fn give(eo: &mut EoDecl, part: Part, block: Block)
    ensures { eo.new ≡ with_part part block eo.old }
{
    match part {
        Part::Receive => {
            eo.receive = block;
            eo.given.receive = true;
        }
        Part::Start => {
            eo.start = block;
            eo.given.start = true;
        }
        Part::Stop => {
            eo.stop = block;
            eo.given.stop = true;
        }
        Part::LocalStart => {
            eo.lstart = block;
            eo.given.lstart = true;
        }
        Part::LocalStop => {
            eo.lstop = block;
            eo.given.lstop = true;
        }
        Part::Error => eo.error = Some(block),
    }
}

/// Gives the object of this number a body.
fn give_at(eos: &mut Vec<EoDecl>, id: EoId, part: Part, block: Block)
    ensures { eos.new.items ≡ with_body_at id.0 part block eos.old.items }
{
    let at = usize::from(id.0);
    if at < eos.len() {
        give(&mut eos[at], part, block);
    }
}

/// The statement that a block makes with what opened it.
fn closed_block(alloc: Global, opened: Opened, block: Block) -> Stmt
    ensures { result ≡ closed_block opened block }
{
    match opened {
        Opened::If(test) => Stmt::If {
            test,
            yes: block,
            no: List::new(alloc),
            has_else: false,
        },
        Opened::Else(test, yes) => Stmt::If {
            test,
            yes,
            no: block,
            has_else: true,
        },
        Opened::Repeat(times) => Stmt::Repeat { times, block },
    }
}

impl Draft {
    /// Nothing has been read.
    pub(crate) fn new(alloc: Global) -> Result<Draft, NoMemory>
        ensures { IfOk result (λ draft. state_of draft ≡ first_state) }
    {
        Ok(Draft {
            cores: 0,
            order: List::new(alloc),
            pools: List::new(alloc),
            groups: List::new(alloc),
            eos: Vec::new(alloc),
            agroups: List::new(alloc),
            queues: List::new(alloc),
            egroups: List::new(alloc),
            boot: List::new(alloc),
            error: None,
            names: Names::first(alloc)?,
            has_boot: false,
            phase: Phase::First,
            block: List::new(alloc),
            nest: Stack::new(alloc),
        })
    }

    /// Takes note of what a name stands for, and of the order of declarations.
    fn declare(
        &mut self,
        alloc: Global,
        name: &str,
        meaning: Named,
        decl: Decl,
    ) -> Result<(), NoMemory>
        ensures { OnOk result (state_of self.new ≡ declared name.now meaning decl (graph_of self.old) (state_of self.old)) }
    {
        self.names.insert(alloc, name.as_bytes(), meaning)?;
        self.order.push(decl)
    }

    fn pool(&mut self, alloc: Global, decl: PoolDecl) -> Result<(), NoMemory>
        requires { rule_of (state_of self.old) (Line.Pool decl) ≡ 12 }
        ensures { OnOk result (state_of self.new ≡ after (Line.Pool decl) (state_of self.old)) }
    {
        let n = self.pools.as_slice().len() as u8;
        self.declare(
            alloc,
            decl.name.as_str(),
            Named::Pool(PoolId(n)),
            Decl::Pool(n),
        )?;
        self.pools.push(decl)
    }

    fn group(&mut self, alloc: Global, name: Name, mask: u64) -> Result<(), NoMemory>
        requires { rule_of (state_of self.old) (Line.Group name mask) ≡ 12 }
        ensures { OnOk result (state_of self.new ≡ after (Line.Group name mask) (state_of self.old)) }
    {
        let n = self.groups.as_slice().len() as u8;
        self.declare(
            alloc,
            name.as_str(),
            Named::Group(GroupId(n + 1)),
            Decl::Group(n),
        )?;
        self.groups.push(GroupDecl {
            name,
            mask: CoreMask::from_bits_retain(mask),
        })
    }

    fn eo(&mut self, alloc: Global, name: Name, running: bool) -> Result<(), NoMemory>
        requires { rule_of (state_of self.old) (Line.Eo name running) ≡ 12 }
        ensures { OnOk result (state_of self.new ≡ after (Line.Eo name running) (state_of self.old)) }
    {
        let n = self.eos.len() as u8;
        self.declare(alloc, name.as_str(), Named::Eo(EoId(n)), Decl::Eo(n))?;
        match self.eos.push(new_eo(alloc, name, running)) {
            Ok(()) => Ok(()),
            Err(_) => Err(NoMemory),
        }
    }

    fn agroup(&mut self, alloc: Global, decl: AgroupDecl) -> Result<(), NoMemory>
        requires { rule_of (state_of self.old) (Line.Agroup decl) ≡ 12 }
        ensures { OnOk result (state_of self.new ≡ after (Line.Agroup decl) (state_of self.old)) }
    {
        let n = self.agroups.as_slice().len() as u8;
        self.declare(alloc, decl.name.as_str(), Named::Agroup(n), Decl::Agroup(n))?;
        self.agroups.push(decl)
    }

    fn queue(&mut self, alloc: Global, decl: QueueDecl) -> Result<(), NoMemory>
        requires { rule_of (state_of self.old) (Line.Queue decl) ≡ 12 }
        ensures { OnOk result (state_of self.new ≡ after (Line.Queue decl) (state_of self.old)) }
    {
        let n = self.queues.as_slice().len() as u16;
        self.declare(
            alloc,
            decl.name.as_str(),
            Named::Queue(QueueId(n)),
            Decl::Queue(n),
        )?;
        self.queues.push(decl)
    }

    fn egroup(&mut self, alloc: Global, name: Name) -> Result<(), NoMemory>
        requires { rule_of (state_of self.old) (Line.Egroup name) ≡ 12 }
        ensures { OnOk result (state_of self.new ≡ after (Line.Egroup name) (state_of self.old)) }
    {
        let n = self.egroups.as_slice().len() as u8;
        self.declare(
            alloc,
            name.as_str(),
            Named::Egroup(EventGroupId(n)),
            Decl::Egroup(n),
        )?;
        self.egroups.push(name)
    }

    /// Opens a block.
    fn open(&mut self, alloc: Global, opened: Opened) -> Result<(), NoMemory>
        ensures { OnOk result (state_of self.new ≡ opened_by opened (state_of self.old)) }
    {
        let before = mem::replace(&mut self.block, List::new(alloc));
        self.nest.push(Frame { before, opened })
    }

    /// Ends the first branch of the innermost block, and begins the second.
    fn turn(&mut self, alloc: Global) -> Result<(), NoMemory>
        ensures { OnOk result (state_of self.new ≡ turned (state_of self.old).nest (state_of self.old)) }
    {
        match self.nest.pop() {
            None => Ok(()),
            Some(Frame { before, opened }) => {
                let block = mem::replace(&mut self.block, List::new(alloc));
                let opened = match opened {
                    Opened::If(test) => Opened::Else(test, block),
                    other => other,
                };
                self.nest.push(Frame { before, opened })
            }
        }
    }

    /// Ends the body that stands open.
    fn end_body(&mut self, alloc: Global)
        ensures { state_of self.new ≡ body_ended self.old.phase (state_of self.old) }
    {
        let Phase::Body(place) = self.phase else {
            return;
        };
        let block = mem::replace(&mut self.block, List::new(alloc));
        match place {
            Place::Boot => {
                self.boot = block;
                self.has_boot = true;
            }
            Place::Error => self.error = Some(block),
            Place::Object(id, part) => give_at(&mut self.eos, id, part, block),
        }
        self.phase = Phase::Bodies;
    }

    /// Ends the innermost block, or the body.
    fn end(&mut self, alloc: Global) -> Result<(), NoMemory>
        ensures { OnOk result (state_of self.new ≡ ended (state_of self.old).nest (state_of self.old)) }
    {
        match self.nest.pop() {
            None => {
                self.end_body(alloc);
                Ok(())
            }
            Some(Frame { mut before, opened }) => {
                let block = mem::replace(&mut self.block, List::new(alloc));
                before.push(closed_block(alloc, opened, block))?;
                self.block = before;
                Ok(())
            }
        }
    }

    /// Takes a line that no rule refuses.
    pub(crate) fn take(&mut self, alloc: Global, line: Line) -> Result<(), NoMemory>
        requires { rule_of (state_of self.old) line ≡ 12 }
        ensures { OnOk result (state_of self.new ≡ after line (state_of self.old)) }
    {
        match line {
            Line::Cores(cores) => {
                self.cores = cores;
                self.phase = Phase::Declarations;
                Ok(())
            }
            Line::Pool(decl) => self.pool(alloc, decl),
            Line::Group { name, mask } => self.group(alloc, name, mask),
            Line::Eo { name, running } => self.eo(alloc, name, running),
            Line::Agroup(decl) => self.agroup(alloc, decl),
            Line::Queue(decl) => self.queue(alloc, decl),
            Line::Egroup(name) => self.egroup(alloc, name),
            Line::Body(place) => {
                self.phase = Phase::Body(place);
                Ok(())
            }
            Line::Done => {
                self.phase = Phase::Done;
                Ok(())
            }
            Line::Statement(statement) => self.block.push(statement),
            Line::If(test) => self.open(alloc, Opened::If(test)),
            Line::Repeat(times) => self.open(alloc, Opened::Repeat(times)),
            Line::Else => self.turn(alloc),
            Line::End => self.end(alloc),
        }
    }

    /// The graph that was read.
    pub(crate) fn finish(self, alloc: Global) -> Result<Config, NoMemory>
        ensures { IfOk result (λ graph. graph ≡ graph_of self) }
    {
        let mut eos = List::new(alloc);
        for eo in self.eos {
            eos.push(eo)?;
        }
        Ok(Config {
            cores: self.cores,
            order: self.order,
            pools: self.pools,
            groups: self.groups,
            eos,
            agroups: self.agroups,
            queues: self.queues,
            egroups: self.egroups,
            boot: self.boot,
            error: self.error,
        })
    }
}
