//! The statements and expressions of a script's bodies.

use crate::ids::{EoId, EventGroupId, GroupId, PoolId, QueueId};
use crate::list::List;
use sqlite_items::Boxed;

#[derive(Debug, Drop)]
pub enum Expr {
    Number(u64),
    Var(u8),
    Kind,
    Size,
    Word(Boxed<Expr>),
    Me,
    Queue,
    Core,
    Cell(Boxed<Expr>),
    LastOk,
    FaultNumber,
    Detail,
    Add(Boxed<Expr>, Boxed<Expr>),
    Sub(Boxed<Expr>, Boxed<Expr>),
    Mul(Boxed<Expr>, Boxed<Expr>),
    And(Boxed<Expr>, Boxed<Expr>),
    Or(Boxed<Expr>, Boxed<Expr>),
    Xor(Boxed<Expr>, Boxed<Expr>),
    Shr(Boxed<Expr>, Boxed<Expr>),
    Lt(Boxed<Expr>, Boxed<Expr>),
    Eq(Boxed<Expr>, Boxed<Expr>),
}

pub type Block = List<Stmt>;

#[derive(Debug, Drop)]
pub enum Stmt {
    Set {
        v: u8,
        value: Expr,
    },
    If {
        test: Expr,
        yes: Block,
        no: Block,
        has_else: bool,
    },
    Repeat {
        times: u16,
        block: Block,
    },
    CellWrite {
        cell: Expr,
        value: Expr,
    },
    Say(Expr),
    Alloc {
        v: u8,
        pool: PoolId,
        kind: Expr,
        words: List<Expr>,
    },
    Free(Expr),
    Keep(Expr),
    Send {
        word: Expr,
        queue: QueueId,
    },
    SendG {
        word: Expr,
        queue: QueueId,
        group: EventGroupId,
    },
    Claim {
        v: u8,
    },
    Dequeue {
        v: u8,
        queue: QueueId,
    },
    Enable(QueueId),
    Disable(QueueId),
    EndAtomic,
    EndOrdered,
    EndGroup,
    Apply {
        group: EventGroupId,
        count: Expr,
        notes: List<(Expr, QueueId)>,
    },
    Increment(Expr),
    Abort(EventGroupId),
    Start {
        eo: EoId,
        notes: List<(Expr, QueueId)>,
    },
    Stop {
        eo: EoId,
        notes: List<(Expr, QueueId)>,
    },
    Modify {
        group: GroupId,
        mask: Expr,
        notes: List<(Expr, QueueId)>,
    },
    Fail,
}
