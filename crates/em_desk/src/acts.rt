//! What an ask has still to do, and doing it.
ghost use Rattle.std.specs.Prelude.{◌≡◌, ◌+◌, ◌≤◌, ◌∷◌, ◌<◌, false, ℕ, List, [], None, Some, length, IfSome, IsTrue};
ghost use Rattle.em_log.specs.declared.declarations.Declarations.{Declarations as TheDeclarations};
ghost use Rattle.em_log.specs.declared.entry.Event.{Event as TheEvent};
ghost use Rattle.em_log.specs.declared.entry.What.{What as TheWhat};
ghost use Rattle.em_log.specs.Declarations.{event_total};
ghost use Rattle.em_log.specs.History.{index_of as index_of_handle, entries_by, onto};
ghost use Rattle.em_bounds.specs.Paid.{paid, pays};
ghost use Rattle.em_pool.specs.Steps.{PoolStep};
ghost use Rattle.em_pool.specs.Places.{can_shift, is_shift_target};
ghost use Rattle.em_pool.specs.Stands as pool;
ghost use Rattle.em_pool.specs.State.{rule_at, event_at, generation_at, place_at};
ghost use Rattle.em_queues.specs.Steps.{QueueStep};
ghost use Rattle.em_queues.specs.State.{shape, is_listed_at};
ghost use Rattle.em_queues.specs.Stands as queue;
ghost use Rattle.em_desk.specs.declared.acts.Act.{Act as TheAct};
ghost use Rattle.em_desk.specs.Acts.{shifted_step, arrived_step, past_after, send_act, release_act, said};
ghost use Rattle.em_desk.specs.Standing.{Ending, IsReleasing};

use crate::history::History;
use crate::parts::Parts;
use crate::shapes::{index_of, is_output};
use em_log::{CoreId, Declarations, QueueId, What};
use em_order::Item;
use em_pool::{Place, Pools};
use em_queues::Queues;

/// The queue that an event enters, and the core that sent it.
#[derive(Clone, Copy, Debug, PartialEq, Eq)]
pub struct Entrance {
    pub queue: QueueId,
    pub core: CoreId,
}

/// One thing that is left to do in an ask: the event of an index goes to a place, if it does, enters a queue, if it
/// does, and is told by an entry, if it is.
#[derive(Drop)]
pub struct Act {
    pub index: u16,
    pub to: Option<Place>,
    pub enters: Option<Entrance>,
    pub says: Option<What>,
}

/// Moves an event, if it goes anywhere.
fn shift(pools: &mut Pools, index: u16, to: Option<Place>)
    requires { IfSome to (λ t. (index < event_total pools.old.pools) × (IsTrue (can_shift (place_at pools.old index)) × IsTrue (is_shift_target t))) }
    ensures stands { (s : List PoolStep) → pool.Stands pools.old s → pool.Stands pools.new (shifted_step index to s) }
    ensures shapes { pools.new.pools ≡ pools.old.pools }
    ensures spare { pools.new.spare ≡ pools.old.spare }
{
    if let Some(to) = to {
        pools.shift(index, to);
    }
}

/// Puts an event into a queue, if it enters one.
fn enter(queues: &mut Queues, index: u16, enters: Option<Entrance>)
    requires { IfSome enters (λ e. (e.queue.0 < (shape queues.old).queues) × ((e.core.0 < (shape queues.old).cores) × (is_listed_at queues.old index ≡ false))) }
    ensures stands { (k : TheDeclarations) (t : List QueueStep) → queue.Stands k queues.old t → queue.Stands k queues.new (arrived_step index enters t) }
    ensures same_shape { shape queues.new ≡ shape queues.old }
{
    if let Some(entrance) = enters {
        queues.arrive(entrance.queue, entrance.core, index);
    }
}

/// Adds an entry, if one is told.
fn say(history: &mut History, core: CoreId, says: Option<What>)
    requires { IfSome says (λ w. (length history.old.past + 1 ≤ history.old.capacity) × (pays w + paid history.old.past ≤ history.old.capacity)) }
    ensures { history.new ≡ record history.old { past = past_after core.0 says history.old.past } }
{
    if let Some(what) = says {
        history.push(core, what);
    }
}

impl Parts {
    /// Does one thing that is left to do in the core's ask.
    pub fn perform(&mut self, core: CoreId, act: Act)
        requires { (acts : List TheAct) × (rest : List TheWhat) × (n : ℕ) × Ending self.old core.0 (act ∷ acts) rest n }
        ensures stands { (acts : List TheAct) (rest : List TheWhat) (n : ℕ) → Ending self.old core.0 (act ∷ acts) rest n → Ending self.new core.0 acts rest n }
        ensures past { self.new.history.past ≡ past_after core.0 act.says self.old.history.past }
        ensures declarations { self.new.declarations ≡ self.old.declarations }
        ensures limits { self.new.limits ≡ self.old.limits }
        ensures orders { self.new.orders ≡ self.old.orders }
    {
        let Act {
            index,
            to,
            enters,
            says,
        } = act;
        shift(&mut self.pools, index, to);
        enter(&mut self.queues, index, enters);
        say(&mut self.history, core, says);
    }

    /// Lets in, by the end of the core's ticket, what it has released.
    pub fn release(&mut self, core: CoreId)
        requires { (acts : List TheAct) × (rest : List TheWhat) × IsReleasing self.old core.0 acts rest }
        ensures stands { (acts : List TheAct) (rest : List TheWhat) → IsReleasing self.old core.0 acts rest → Ending self.new core.0 [] rest 0 }
        ensures past { (acts : List TheAct) (rest : List TheWhat) → IsReleasing self.old core.0 acts rest → self.new.history.past ≡ onto (entries_by core.0 (said acts)) self.old.history.past }
        ensures declarations { self.new.declarations ≡ self.old.declarations }
        ensures limits { self.new.limits ≡ self.old.limits }
    {
        while let Some(item) = self.orders.released() {
            let act = releasing(&self.declarations, &self.pools, item);
            self.perform(core, act);
        }
    }
}

/// What the release of a held send has still to do.
fn releasing(declarations: &Declarations, pools: &Pools, item: Item) -> Act
    requires within { item.index < event_total pools.now.pools }
    requires minted { 1 ≤ generation_at pools.now item.index }
    ensures { (e : TheEvent) → event_at pools.now item.index ≡ Some e → result ≡ release_act declarations.now e item }
{
    let Item { index, queue, core } = item;
    if is_output(declarations, queue) {
        let event = pools.event(index);
        let to = Some(Place::Free);
        Act {
            index,
            to,
            enters: None,
            says: Some(What::Out {
                queue,
                kind: event.kind,
                words: event.words,
            }),
        }
    } else {
        let entrance = Entrance { queue, core };
        Act {
            index,
            to: Some(Place::Waiting(queue)),
            enters: Some(entrance),
            says: None,
        }
    }
}

/// What a send of this handle has still to do once the handle is spent.
pub fn sending(
    declarations: &Declarations,
    pools: &Pools,
    core: CoreId,
    word: u64,
    queue: QueueId,
) -> Act
    requires rule { rule_at pools.now core.0 word ≡ None }
    requires within { index_of_handle word < event_total pools.now.pools }
    ensures { (e : TheEvent) → event_at pools.now (index_of_handle word) ≡ Some e → result ≡ send_act declarations.now e core.0 word queue }
{
    let index = index_of(word);
    if is_output(declarations, queue) {
        let event = pools.event(index);
        Act {
            index,
            to: Some(Place::Free),
            enters: None,
            says: Some(What::Out {
                queue,
                kind: event.kind,
                words: event.words,
            }),
        }
    } else {
        Act {
            index,
            to: None,
            enters: Some(Entrance { queue, core }),
            says: None,
        }
    }
}
