//! What the entries of a history are called in a picture.

use crate::tag::Class;
use em_log::{Fault, What};

/// The mark of an entry that a reader looks for: a fault, a completion, a notification, an event that leaves.
pub(crate) fn mark(what: &What) -> Option<Class> {
    match what {
        What::Fault { .. } => Some(Class::Fault),
        What::Done { .. } => Some(Class::Done),
        What::Notify { .. } => Some(Class::Notify),
        What::Out { .. } => Some(Class::Out),
        _ => None,
    }
}

/// How the text of an entry looks.
pub(crate) fn text_class(what: &What) -> Class {
    match what {
        What::Fault { .. } => Class::Refused,
        _ => Class::Entry,
    }
}

/// Why the ask was refused, in words.
fn fault_name(fault: Fault) -> &'static str {
    match fault {
        Fault::NeverMinted(_) => "no such handle was ever given out",
        Fault::SpentBySend(_) => "the handle was spent by a send, a keep or a note",
        Fault::SpentByFree(_) => "the handle was spent by a free or by the end of its context",
        Fault::HeldElsewhere(_) => "another core holds the handle",
        Fault::QueueClosed(_) => "the queue is closed",
        Fault::WrongKind(_) => "the queue is of a wrong kind",
        Fault::NotAtomic => "the context holds no atomic context",
        Fault::NotOrdered => "the context has no open ticket",
        Fault::NoGroup => "the context has no event group",
        Fault::GroupBusy(_) => "the event group is busy",
        Fault::GroupIdle(_) => "the event group is idle, or the event is of an old application",
        Fault::OpPending(_) => "the target has a pending operation",
        Fault::EoState(_) => "the object is in a wrong state",
        Fault::BadMask(_) => "the mask is empty or names a core that is not there",
        Fault::PoolEmpty(_) => "the pool has no free event",
        Fault::BadSize(_) => "there are more words than an event of the pool has",
        Fault::NoteLost(_) => "a note was lost, since its queue is closed",
        Fault::BadCount(_) => "the count is 0 or too great",
        Fault::StartFailed(_) => "the start is to fail",
        Fault::OpsSpent(_) => "no more operations may begin",
    }
}

/// What is said of an entry beside its line, if anything.
pub(crate) fn remark(what: &What) -> Option<&'static str> {
    match what {
        What::Fault { fault, .. } => Some(fault_name(*fault)),
        What::Done { .. } => Some("an operation is complete"),
        What::Notify { .. } => Some("an event group has come to zero and sends its notes"),
        What::Out { .. } => Some("an event leaves the machine"),
        _ => None,
    }
}
