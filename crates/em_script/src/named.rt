//! What a name stands for.

use em_log::{EoId, EventGroupId, GroupId, PoolId, QueueId};

/// What a name stands for: a pool, a queue group, an execution object, an atomic group, a queue or an event group.
#[derive(Clone, Copy, Debug, PartialEq, Eq)]
pub enum Named {
    Pool(PoolId),
    Group(GroupId),
    Eo(EoId),
    Agroup(u8),
    Queue(QueueId),
    Egroup(EventGroupId),
}
