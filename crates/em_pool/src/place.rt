//! Where an event is, and where it goes when its handle is spent.

ghost use Rattle.std.specs.Prelude.{◌≡◌};
ghost use Rattle.em_pool.specs.Handles.{place_of_spend};
ghost use Rattle.em_pool.specs.Places.{is_free as is_free_place};

use em_log::{CoreId, EoId, QueueId};

/// The place of an event.
#[derive(Clone, Copy, Debug, PartialEq, Eq)]
pub enum Place {
    /// In its pool.
    Free,
    /// In the open context of this core.
    Held(CoreId),
    /// Kept by this object.
    Kept(EoId),
    /// In this queue.
    Waiting(QueueId),
    /// Taken by this core, and not started.
    Taken(CoreId),
    /// Sent to this queue, and held back by order.
    Delayed(QueueId),
    /// Held by an operation or an event group.
    Noted,
    /// Lost at the end of the context that held it.
    Lost,
}

/// How a core spends a handle.
#[derive(Clone, Copy, Debug, PartialEq, Eq)]
pub enum Spend {
    /// By a send that enters this queue.
    Sent(QueueId),
    /// By a send to this queue that is held back by order.
    Delayed(QueueId),
    /// By a free.
    Freed,
    /// By a keep of this object.
    Kept(EoId),
    /// By handing it in with an ask.
    Noted,
}

/// How a handle was spent.
#[derive(Clone, Copy, Debug, PartialEq, Eq)]
pub struct Spent {
    /// By a free or at the end of its context, and not by a send, a keep or a hand-in.
    pub freed: bool,
    /// The place in the history of the entry that spent it.
    pub place: u64,
}

/// Where the event of a spent handle goes.
pub fn place_after(how: Spend) -> Place
    ensures { result ≡ place_of_spend how }
{
    match how {
        Spend::Sent(queue) => Place::Waiting(queue),
        Spend::Delayed(queue) => Place::Delayed(queue),
        Spend::Freed => Place::Free,
        Spend::Kept(object) => Place::Kept(object),
        Spend::Noted => Place::Noted,
    }
}

pub fn is_free(place: Place) -> bool
    ensures { result ≡ is_free_place place }
{
    matches!(place, Place::Free)
}
