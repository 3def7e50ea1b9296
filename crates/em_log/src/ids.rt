//! The numbers by which things are named, and the small enums.

/// A core, from 0.
#[derive(Clone, Copy, Debug, PartialEq, Eq, Default)]
pub struct CoreId(pub u8);

/// A queue, in order of declaration from 0.
#[derive(Clone, Copy, Debug, PartialEq, Eq, Default)]
pub struct QueueId(pub u16);

/// A queue group: 0 is `all`, the declared ones follow from 1.
#[derive(Clone, Copy, Debug, PartialEq, Eq, Default)]
pub struct GroupId(pub u8);

/// An atomic context: first the atomic groups, then the atomic queues outside groups.
#[derive(Clone, Copy, Debug, PartialEq, Eq, Default)]
pub struct AtomicId(pub u16);

/// An execution object, in order of declaration from 0.
#[derive(Clone, Copy, Debug, PartialEq, Eq, Default)]
pub struct EoId(pub u8);

/// An event group, in order of declaration from 0.
#[derive(Clone, Copy, Debug, PartialEq, Eq, Default)]
pub struct EventGroupId(pub u8);

/// A pool, in order of declaration from 0.
#[derive(Clone, Copy, Debug, PartialEq, Eq, Default)]
pub struct PoolId(pub u8);

/// An operation, in the order in which they begin, from 0.
#[derive(Clone, Copy, Debug, PartialEq, Eq, Default)]
pub struct OpId(pub u16);

/// An event handle: the generation of an index times 65536, and the index.
#[derive(Clone, Copy, Debug, PartialEq, Eq, Default)]
pub struct Handle(pub u64);

/// The eight cells of an atomic context.
#[derive(Clone, Copy, Debug, PartialEq, Eq)]
pub struct Cells(pub [u64; 8]);

/// An event handed in with an ask, and the queue that it enters at completion.
#[derive(Clone, Copy, Debug, PartialEq, Eq, Default)]
pub struct Note {
    pub word: u64,
    pub queue: QueueId,
}

/// The application of an event group under which an event was sent.
#[derive(Clone, Copy, Debug, PartialEq, Eq, Default)]
pub struct Stamp {
    pub group: EventGroupId,
    pub app: u32,
}

/// The limits of a run: `receives` is 1 to 10,000, `burst` 1 to 32.
#[derive(Clone, Copy, Debug, PartialEq, Eq)]
pub struct Limits {
    pub receives: u16,
    pub burst: u8,
}

/// The state of an execution object.
#[derive(Clone, Copy, Debug, PartialEq, Eq)]
pub enum EoState {
    Created,
    Starting,
    Running,
    Stopping,
}

/// The kind of a queue.
#[derive(Clone, Copy, Debug, PartialEq, Eq)]
pub enum Kind {
    Atomic,
    Parallel,
    Ordered,
    Local,
    Unscheduled,
    Output,
}

/// How a run ends: nothing is left to do, or the stated number of receives has started.
#[derive(Clone, Copy, Debug, PartialEq, Eq)]
pub enum EndKind {
    Quiet,
    Limit,
}

/// Want of memory.
#[derive(Clone, Copy, Debug, PartialEq, Eq)]
pub struct NoMemory;
