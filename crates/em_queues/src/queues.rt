//! The queues of a run.
ghost use Rattle.std.specs.Prelude.{◌≡◌, ℕ, ◌+◌, ◌<◌, ◌≤◌, ◌&&◌, ◌||◌, true, false, [], ◌∷◌, List, length, slice_get, Some, None, IfOk, IfSome, IfNone, MatchOption, MatchResult, map};
ghost use Rattle.std.specs.Option.{option_map};
ghost use Rattle.em_log.specs.declared.declarations.Declarations.{Declarations};
ghost use Rattle.em_log.specs.Declarations.{declarations_of, event_total, pool_shape, is_local, kind_of};
ghost use Rattle.em_log.specs.Leads.{dequeue_refusal};
ghost use Rattle.em_queues.specs.Steps.{QueueStep, Arrived, Took, NextTaken, Untook, Dequeued, lists, is_listed};
ghost use Rattle.em_queues.specs.Best.{IsNoneReady, IsBest};
ghost use Rattle.em_queues.specs.Sets.{contains, IsLeast};
ghost use Rattle.em_queues.specs.Waiting.{is_ready, list_in, items_in};
ghost use Rattle.em_queues.specs.State.{shape, kind_at, items_at, taken_at, core_at, is_listed_at};
ghost use Rattle.em_queues.specs.Stands.{Stands};
ghost use Rattle.em_queues.specs.Changes.{arrived_local, arrived_shared, took_local, took_shared, gave_local, gave_shared, started, dequeued, lesser_number};

use crate::cores::{CoreSlot, idle_cores, lists_of, local_list, taken_list};
use crate::event_lists::EventLists;
use crate::kinds::{RankedKind, kinds_of};
use crate::ready::ReadySets;
use crate::set::Allowed;
use em_log::{Config, CoreId, Fault, Kind, NoMemory, PoolDecl, QueueId};
use std::alloc::Global;
use std::marker::Model;

/// What waits in each queue, and what each core has taken.
#[derive(Drop)]
pub struct Queues {
    kinds: Vec<RankedKind>,
    lists: EventLists,
    ready: ReadySets,
    cores: Vec<CoreSlot>,
}

impl Model for Queues {
    ghost use Rattle.em_queues.specs.State.{QueueState, state_code};
    ghost use Rattle.em_queues.specs.Rows.{queues_from};
    ghost use Rattle.em_queues.specs.Whole.{AreWhole};

    ghost Value = { QueueState };

    ghost coded = { state_code };

    ghost view = { λ a. queues_from a.kinds.items a.lists a.cores.items };

    ghost invariant = { λ a. AreWhole a.kinds.items a.lists a.ready a.cores.items };
}

impl Queues {
    /// All lists are empty, and there is room for every event. Err is want of memory.
    pub fn build(alloc: Global, config: &Config) -> Result<Queues, NoMemory>
        requires queues { length config.now.queues ≤ 256 }
        requires events { event_total (declarations_of config.now).pools ≤ 4096 }
        ensures shape { IfOk result (λ v. shape v ≡ record { cores = config.now.cores; queues = length config.now.queues; events = event_total (declarations_of config.now).pools }) }
        ensures stands { IfOk result (λ v. Stands (declarations_of config.now) v []) }
    {
        let queues = config.queues.as_slice();
        Ok(Queues {
            kinds: kinds_of(alloc, queues)?,
            lists: EventLists::build(
                alloc,
                lists_of(config.cores),
                total(config.pools.as_slice()),
            )?,
            ready: ReadySets::none(),
            cores: idle_cores(alloc, config.cores)?,
        })
    }

    /// Puts the event of this index, which is in no list, at the end of the queue's list: of a local queue, that of
    /// this core.
    pub fn arrive(&mut self, queue: QueueId, core: CoreId, index: u16)
        requires queue { queue.0 < (shape self.old).queues }
        requires core { core.0 < (shape self.old).cores }
        requires unlisted { is_listed_at self.old index ≡ false }
        ensures stands { (k : Declarations) (s : List QueueStep) → Stands k self.old s → Stands k self.new (Arrived queue.0 core.0 index ∷ s) }
        ensures same_shape { shape self.new ≡ shape self.old }
    {
        if self.is_local(queue) {
            self.arrive_local(queue, core, index);
        } else {
            self.arrive_shared(queue, index);
        }
    }

    /// Takes the first `n` events that wait for the core, which has nothing taken.
    pub fn take(&mut self, queue: QueueId, core: CoreId, n: u8)
        requires queue { queue.0 < (shape self.old).queues }
        requires core { core.0 < (shape self.old).cores }
        requires enough { n ≤ length (items_at self.old queue.0 core.0) }
        requires idle { taken_at self.old core.0 ≡ [] }
        ensures stands { (k : Declarations) (s : List QueueStep) → Stands k self.old s → Stands k self.new (Took core.0 queue.0 n ∷ s) }
        ensures same_shape { shape self.new ≡ shape self.old }
    {
        if self.is_local(queue) {
            self.take_local(queue, core, n);
        } else {
            self.take_shared(queue, core, n);
        }
    }

    /// Removes the first taken event of the core, and answers its index.
    pub fn next_taken(&mut self, core: CoreId) -> Option<u16>
        requires { core.0 < (shape self.old).cores }
        ensures answer { (k : Declarations) (s : List QueueStep) → Stands k self.old s → result ≡ slice_get ((lists k s).taken core.0) 0 }
        ensures stands { (k : Declarations) (s : List QueueStep) → Stands k self.old s → MatchOption result (Stands k self.new s) (λ _. Stands k self.new (NextTaken core.0 ∷ s)) }
        ensures same_shape { shape self.new ≡ shape self.old }
    {
        let index = self.first_taken(core)?;
        self.start(core, index);
        Some(index)
    }

    /// The taken event of the core of this number, counted from 0 in order.
    pub fn taken_at(&self, core: CoreId, i: u8) -> Option<u16>
        requires { core.0 < (shape self.now).cores }
        ensures answer { (k : Declarations) (s : List QueueStep) → Stands k self.now s → result ≡ slice_get ((lists k s).taken core.0) i }
        ensures value { result ≡ slice_get (taken_at self.now core.0) i }
    {
        self.lists.get(taken_list(core), u16::from(i))
    }

    /// Gives what the core has taken back to the front of its queue, and answers how many these are.
    pub fn untake(&mut self, core: CoreId) -> u8
        requires { core.0 < (shape self.old).cores }
        ensures answer { (k : Declarations) (s : List QueueStep) → Stands k self.old s → result ≡ length ((lists k s).taken core.0) }
        ensures stands { (k : Declarations) (s : List QueueStep) → Stands k self.old s → Stands k self.new (Untook core.0 ∷ s) }
        ensures same_shape { shape self.new ≡ shape self.old }
    {
        let count = self.taken_count(core);
        self.give_back(core);
        count
    }

    /// Takes the first event out of an unscheduled queue and answers its index, None where the queue is empty, as
    /// `em_queue_dequeue` of the Event Machine API does. Refused where the queue is of another kind.
    pub fn dequeue(&mut self, queue: QueueId) -> Result<Option<u16>, Fault>
        requires { queue.0 < (shape self.old).queues }
        ensures answer { (k : Declarations) (s : List QueueStep) (c : ℕ) → Stands k self.old s → MatchResult result (λ o. (dequeue_refusal k queue.0 ≡ None) × (o ≡ slice_get ((lists k s).waiting queue.0 c) 0)) (λ f. dequeue_refusal k queue.0 ≡ Some f) }
        ensures stands { (k : Declarations) (s : List QueueStep) (c : ℕ) → Stands k self.old s → MatchResult result (λ o. MatchOption o (Stands k self.new s) (λ _. Stands k self.new (Dequeued queue.0 c ∷ s))) (λ _. Stands k self.new s) }
        ensures same_shape { shape self.new ≡ shape self.old }
    {
        match self.kinds[usize::from(queue.0)].kind {
            Kind::Unscheduled => match self.first_shared(queue) {
                None => Ok(None),
                Some(index) => {
                    self.dequeue_first(queue, index);
                    Ok(Some(index))
                }
            },
            kind => Err(Fault::WrongKind(kind)),
        }
    }

    /// How many events wait in the queue: in a local one, for this core.
    pub fn waiting(&self, queue: QueueId, core: CoreId) -> u32
        requires queue { queue.0 < (shape self.now).queues }
        requires core { core.0 < (shape self.now).cores }
        ensures answer { (k : Declarations) (s : List QueueStep) → Stands k self.now s → result ≡ length ((lists k s).waiting queue.0 core.0) }
        ensures value { result ≡ length (items_at self.now queue.0 core.0) }
    {
        self.count(queue, core)
    }

    /// Whether the event of this index waits or is taken.
    pub fn is_listed(&self, index: u16) -> bool
        requires { index < (shape self.now).events }
        ensures answer { (k : Declarations) (s : List QueueStep) → Stands k self.now s → result ≡ is_listed k s index }
        ensures value { result ≡ is_listed_at self.now index }
    {
        self.lists.is_listed(index)
    }

    /// A queue of the highest priority among the allowed scheduled and local queues in which something waits for the
    /// core. Between equal priorities any would do; this is the one of the lowest number.
    pub fn best(&self, core: CoreId, may: &Allowed) -> Option<QueueId>
        requires { core.0 < (shape self.now).cores }
        ensures { (k : Declarations) (s : List QueueStep) → Stands k self.now s → MatchOption result (IsNoneReady k (lists k s) core.0 may.now) (λ q. IsBest k (lists k s) core.0 may.now q.0) }
    {
        for step in 0..5u8 {
            let found = self.first_of_rank(core, 4 - step, may);
            if found.is_some() {
                return found;
            }
        }
        None
    }

    /// Whether the queue is local.
    fn is_local(&self, queue: QueueId) -> bool
        requires { queue.0 < length self.now.kinds }
        ensures value { result ≡ is_local (kind_at self.now queue.0) }
        ensures shared { queue.0 < length self.now.shared }
        ensures local { (c : ℕ) → c < length self.now.cores → queue.0 < length (core_at self.now c).local }
    {
        matches!(self.kinds[usize::from(queue.0)].kind, Kind::Local)
    }

    /// How many events wait for the core in the queue.
    fn count(&self, queue: QueueId, core: CoreId) -> u32
        requires queue { queue.0 < length self.now.kinds }
        requires core { core.0 < length self.now.cores }
        ensures { result ≡ length (items_at self.now queue.0 core.0) }
    {
        if self.is_local(queue) {
            u32::from(self.lists.len(local_list(core, queue)))
        } else {
            u32::from(self.lists.len(usize::from(queue.0)))
        }
    }

    /// The first event of the queue's list, which is one for all cores.
    fn first_shared(&self, queue: QueueId) -> Option<u16>
        requires { queue.0 < length self.now.kinds }
        ensures { result ≡ slice_get (items_in self.now.shared queue.0) 0 }
    {
        self.lists.first(usize::from(queue.0))
    }

    /// The first event that the core has taken.
    fn first_taken(&self, core: CoreId) -> Option<u16>
        requires { core.0 < length self.now.cores }
        ensures { result ≡ slice_get (taken_at self.now core.0) 0 }
    {
        self.lists.first(taken_list(core))
    }

    /// How many events the core has taken.
    fn taken_count(&self, core: CoreId) -> u8
        requires { core.0 < length self.now.cores }
        ensures { result ≡ length (taken_at self.now core.0) }
    {
        self.lists.len(taken_list(core)) as u8
    }

    /// The queue that the core took from last.
    fn source(&self, core: CoreId) -> Option<QueueId>
        requires { core.0 < length self.now.cores }
        ensures value { result ≡ (core_at self.now core.0).source }
        ensures there { IfSome result (λ q. q.0 < length self.now.kinds) }
        ensures idle { IfNone result (taken_at self.now core.0 ≡ []) }
    {
        self.cores[usize::from(core.0)].source
    }

    /// Puts the event at the end of the core's list of a local queue.
    fn arrive_local(&mut self, queue: QueueId, core: CoreId, index: u16)
        requires queue { queue.0 < length self.old.kinds }
        requires core { core.0 < length self.old.cores }
        requires local { is_local (kind_at self.old queue.0) ≡ true }
        requires unlisted { is_listed_at self.old index ≡ false }
        ensures { self.new ≡ arrived_local self.old queue.0 core.0 index }
    {
        let rank = self.kinds[usize::from(queue.0)].rank;
        let is_first = self.lists.push_back(local_list(core, queue), index);
        let slot = &mut self.cores[usize::from(core.0)];
        slot.ready.enter(queue, rank, is_first);
    }

    /// Puts the event at the end of the queue's list, which is one for all cores.
    fn arrive_shared(&mut self, queue: QueueId, index: u16)
        requires queue { queue.0 < length self.old.kinds }
        requires shared { is_local (kind_at self.old queue.0) ≡ false }
        requires unlisted { is_listed_at self.old index ≡ false }
        ensures { self.new ≡ arrived_shared self.old queue.0 index }
    {
        let rank = self.kinds[usize::from(queue.0)].rank;
        let is_first = self.lists.push_back(usize::from(queue.0), index);
        self.ready.enter(queue, rank, is_first);
    }

    /// Takes the first `n` out of the core's list of a local queue.
    fn take_local(&mut self, queue: QueueId, core: CoreId, n: u8)
        requires queue { queue.0 < length self.old.kinds }
        requires core { core.0 < length self.old.cores }
        requires local { is_local (kind_at self.old queue.0) ≡ true }
        requires enough { n ≤ length (items_in (core_at self.old core.0).local queue.0) }
        requires idle { taken_at self.old core.0 ≡ [] }
        ensures { self.new ≡ took_local self.old queue.0 core.0 n }
    {
        let rank = self.kinds[usize::from(queue.0)].rank;
        let is_last = self
            .lists
            .move_first(local_list(core, queue), taken_list(core), u16::from(n));
        let slot = &mut self.cores[usize::from(core.0)];
        slot.ready.leave(queue, rank, is_last);
        slot.source = Some(queue);
    }

    /// Takes the first `n` out of the queue's list, which is one for all cores.
    fn take_shared(&mut self, queue: QueueId, core: CoreId, n: u8)
        requires queue { queue.0 < length self.old.kinds }
        requires core { core.0 < length self.old.cores }
        requires shared { is_local (kind_at self.old queue.0) ≡ false }
        requires enough { n ≤ length (items_in self.old.shared queue.0) }
        requires idle { taken_at self.old core.0 ≡ [] }
        ensures { self.new ≡ took_shared self.old queue.0 core.0 n }
    {
        let rank = self.kinds[usize::from(queue.0)].rank;
        let is_last = self
            .lists
            .move_first(usize::from(queue.0), taken_list(core), u16::from(n));
        self.ready.leave(queue, rank, is_last);
        let slot = &mut self.cores[usize::from(core.0)];
        slot.source = Some(queue);
    }

    /// Takes the first taken event out, which is that of this index.
    fn start(&mut self, core: CoreId, index: u16)
        requires core { core.0 < length self.old.cores }
        requires first { slice_get (taken_at self.old core.0) 0 ≡ Some index }
        ensures { self.new ≡ started self.old core.0 index }
    {
        let _ = self.lists.remove_first(taken_list(core));
    }

    /// Gives what the core has taken back to the front of its queue.
    fn give_back(&mut self, core: CoreId)
        requires { core.0 < length self.old.cores }
        ensures stands { (k : Declarations) (s : List QueueStep) → Stands k self.old s → Stands k self.new (Untook core.0 ∷ s) }
        ensures same_shape { shape self.new ≡ shape self.old }
    {
        match self.source(core) {
            None => (),
            Some(queue) => {
                if self.is_local(queue) {
                    self.give_back_local(core, queue);
                } else {
                    self.give_back_shared(core, queue);
                }
            }
        }
    }

    /// Gives what the core has taken back to the front of its list of a local queue.
    fn give_back_local(&mut self, core: CoreId, queue: QueueId)
        requires queue { queue.0 < length self.old.kinds }
        requires core { core.0 < length self.old.cores }
        requires local { is_local (kind_at self.old queue.0) ≡ true }
        ensures { self.new ≡ gave_local self.old core.0 queue.0 }
    {
        let rank = self.kinds[usize::from(queue.0)].rank;
        let is_some = self
            .lists
            .move_all(taken_list(core), local_list(core, queue));
        let slot = &mut self.cores[usize::from(core.0)];
        slot.ready.enter(queue, rank, is_some);
    }

    /// Gives what the core has taken back to the front of the queue's list, which is one for all cores.
    fn give_back_shared(&mut self, core: CoreId, queue: QueueId)
        requires queue { queue.0 < length self.old.kinds }
        requires core { core.0 < length self.old.cores }
        requires shared { is_local (kind_at self.old queue.0) ≡ false }
        ensures { self.new ≡ gave_shared self.old core.0 queue.0 }
    {
        let rank = self.kinds[usize::from(queue.0)].rank;
        let is_some = self.lists.move_all(taken_list(core), usize::from(queue.0));
        self.ready.enter(queue, rank, is_some);
    }

    /// Takes the first event, which is that of this index, out of the queue's list, which is one for all cores.
    fn dequeue_first(&mut self, queue: QueueId, index: u16)
        requires queue { queue.0 < length self.old.kinds }
        requires shared { is_local (kind_at self.old queue.0) ≡ false }
        requires first { slice_get (items_in self.old.shared queue.0) 0 ≡ Some index }
        ensures { self.new ≡ dequeued self.old queue.0 index }
    {
        let rank = self.kinds[usize::from(queue.0)].rank;
        let is_last = self.lists.remove_first(usize::from(queue.0));
        self.ready.leave(queue, rank, is_last);
    }

    /// The allowed queue of the least number, of this priority, in which something waits for the core.
    fn first_of_rank(&self, core: CoreId, rank: u8, may: &Allowed) -> Option<QueueId>
        requires core { core.0 < length self.now.cores }
        requires rank { rank < 5 }
        ensures { IsLeast (λ q. (is_ready rank (list_in self.now.shared q) && contains may.now q) || (is_ready rank (list_in (core_at self.now core.0).local q) && contains may.now q)) (option_map (λ x. x.0) result) }
    {
        let local = &self.cores[usize::from(core.0)].ready;
        lesser(self.ready.first(rank, may), local.first(rank, may))
    }
}

/// The queue of the lesser number.
fn lesser(left: Option<QueueId>, right: Option<QueueId>) -> Option<QueueId>
    ensures { option_map (λ x. x.0) result ≡ lesser_number (option_map (λ x. x.0) left) (option_map (λ x. x.0) right) }
{
    match (left, right) {
        (Some(a), Some(b)) => Some(if b.0 < a.0 { b } else { a }),
        (Some(a), None) => Some(a),
        (None, b) => b,
    }
}

/// How many events these pools have.
fn total(pools: &[PoolDecl]) -> u16
    requires { event_total (map pool_shape pools.now) ≤ 4096 }
    ensures { result ≡ event_total (map pool_shape pools.now) }
{
    let mut events = 0;
    for pool in pools {
        events += pool.events;
    }
    events
}
