//! What a graph declares, apart from names and bodies.
use crate::graph::Priority;
use crate::ids::{EoId, GroupId, Kind};
use crate::list::List;
use crate::mask::CoreMask;

/// A pool: how many events it has, and how many words one of them has at most.
#[derive(Clone, Copy, Debug, PartialEq, Eq)]
pub struct PoolShape {
    pub events: u16,
    pub words: u8,
}

/// A queue: its kind, and its object, priority, queue group and atomic group where it has one.
#[derive(Clone, Copy, Debug, PartialEq, Eq)]
pub struct QueueShape {
    pub kind: Kind,
    pub eo: Option<EoId>,
    pub priority: Option<Priority>,
    pub group: Option<GroupId>,
    pub agroup: Option<u8>,
}

/// The declarations of a graph without names and bodies: the cores, the pools, the masks of the declared queue
/// groups, which objects run at first, the queue groups of the atomic groups, the queues, and how many event
/// groups there are.
#[derive(Debug, Drop)]
pub struct Declarations {
    pub cores: u8,
    pub pools: List<PoolShape>,
    pub groups: List<CoreMask>,
    pub running: List<bool>,
    pub agroups: List<GroupId>,
    pub queues: List<QueueShape>,
    pub egroups: usize,
}
