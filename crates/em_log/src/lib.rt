//! The plain values of the event machine: names, events, asks, answers, the entries of a history, and the graph.
#![tactic(auto)]

pub mod ask;
pub mod body;
pub mod bounds;
pub mod declarations;
pub mod entry;
pub mod fault;
pub mod gate;
pub mod graph;
pub mod ids;
pub mod list;
pub mod lists;
pub mod mask;
pub mod shapes;
pub mod work;

pub use ask::{Answer, Ask, Context, Receive, Reply};
pub use body::{Block, Expr, Stmt};
pub use bounds::{MAX_CORES, MAX_OPERATIONS};
pub use declarations::{Declarations, PoolShape, QueueShape};
pub use entry::{Begun, Body, Entry, Event, Locals, Rest, Taken, What};
pub use fault::{Call, Fault};
pub use gate::{Gate, NoGate};
pub use graph::{
    AgroupDecl, Config, Decl, EoDecl, Given, GroupDecl, Name, PoolDecl, Priority, QueueDecl,
};
pub use ids::{
    AtomicId, Cells, CoreId, EndKind, EoId, EoState, EventGroupId, GroupId, Handle, Kind, Limits,
    NoMemory, Note, OpId, PoolId, QueueId, Stamp,
};
pub use list::List;
pub use lists::{Notes, Words};
pub use mask::{CoreMask, mask_of};
pub use shapes::declare;
pub use work::{Move, Work};
