//! The kinds of entries.

/// A kind of entry.
#[derive(Clone, Copy, Debug, PartialEq, Eq)]
pub enum EntryKind {
    Enter,
    Take,
    Start,
    Untake,
    End,
    EndAtomic,
    EndOrdered,
    EndGroup,
    Alloc,
    Free,
    Send,
    Keep,
    Claim,
    Dequeue,
    Out,
    Say,
    Enable,
    Disable,
    Begin,
    GlobalDone,
    Ack,
    Done,
    Apply,
    Increment,
    Abort,
    Notify,
    Fault,
}
