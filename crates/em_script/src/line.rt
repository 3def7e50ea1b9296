//! What a line of a script says.

use em_log::{AgroupDecl, EoId, Expr, GroupId, Name, PoolDecl, QueueDecl, Stmt};

/// The bodies of an execution object.
#[derive(Clone, Copy, Debug, PartialEq, Eq)]
pub enum Part {
    Receive,
    Start,
    Stop,
    LocalStart,
    LocalStop,
    Error,
}

/// Where a body stands: boot, the error body of the whole, or a body of an execution object.
#[derive(Clone, Copy, Debug, PartialEq, Eq)]
pub enum Place {
    Boot,
    Error,
    Object(EoId, Part),
}

/// Where an atomic queue belongs: to a queue group, or to an atomic group.
#[derive(Clone, Copy, Debug, PartialEq, Eq)]
pub enum Membership {
    Group(GroupId),
    Agroup(u8),
}

/// A line with tokens.
#[derive(Debug, Drop)]
pub enum Line {
    Cores(u8),
    Pool(PoolDecl),
    /// A queue group, with its mask as bits.
    Group { name: Name, mask: u64 },
    Eo { name: Name, running: bool },
    Agroup(AgroupDecl),
    Queue(QueueDecl),
    Egroup(Name),
    /// The begin of a body.
    Body(Place),
    Done,
    /// A statement that is no block.
    Statement(Stmt),
    If(Expr),
    Repeat(u16),
    Else,
    End,
}
