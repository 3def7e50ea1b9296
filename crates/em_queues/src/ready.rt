//! A set of queues for each priority.
ghost use Rattle.std.specs.Prelude.{◌≡◌, ℕ, ◌<◌, ◌&&◌, true, false, IfSome};
ghost use Rattle.std.specs.Option.{option_map};
ghost use Rattle.em_queues.specs.Sets.{contains, IsLeast};
ghost use Rattle.em_queues.specs.Ready.{has_ready, IsMarked};

use crate::bits::{has_bit, with_bit};
use crate::set::QueueSet;
use em_log::QueueId;
use std::marker::Model;

/// For each of the five priorities the set of the queues in which something waits, and the priorities whose set may have a
/// queue, a bit for each, so that empty sets are not looked at.
#[derive(Drop)]
pub struct ReadySets {
    sets: [QueueSet; 5],
    occupied: u64,
}

impl Model for ReadySets {
    ghost use Rattle.std.specs.Prelude.{List};
    ghost use Rattle.em_queues.specs.declared.set.QueueSet.{QueueSet};
    ghost use Rattle.em_queues.specs.Ready.{sets_code, AreNoted};

    ghost Value = { List QueueSet };

    ghost coded = { sets_code };

    ghost view = { λ a. a.sets };

    ghost invariant = { λ a. AreNoted a.sets a.occupied };
}

impl ReadySets {
    /// Nothing waits.
    pub fn none() -> ReadySets
        ensures { (r q : ℕ) → has_ready result r q ≡ false }
    {
        ReadySets {
            sets: [QueueSet::none(); 5],
            occupied: 0,
        }
    }

    /// Puts the queue into the set of this priority, if there is one, where this is so.
    pub fn enter(&mut self, queue: QueueId, rank: Option<u8>, is_so: bool)
        requires queue { queue.0 < 256 }
        requires rank { IfSome rank (λ r. r < 5) }
        ensures { IsMarked self.old self.new queue.0 rank is_so true }
    {
        if is_so && let Some(rank) = rank {
            self.sets[usize::from(rank)].add(queue);
            self.occupied = with_bit(self.occupied, u32::from(rank), true);
        }
    }

    /// Takes the queue out of the set of this priority, if there is one, where this is so.
    pub fn leave(&mut self, queue: QueueId, rank: Option<u8>, is_so: bool)
        requires queue { queue.0 < 256 }
        requires rank { IfSome rank (λ r. r < 5) }
        ensures { IsMarked self.old self.new queue.0 rank is_so false }
    {
        if is_so && let Some(rank) = rank {
            let set = &mut self.sets[usize::from(rank)];
            set.remove(queue);
            self.occupied = with_bit(self.occupied, u32::from(rank), !set.is_empty());
        }
    }

    /// The queue of the least number that is in the set of this priority and allowed.
    pub fn first(&self, rank: u8, may: &QueueSet) -> Option<QueueId>
        requires { rank < 5 }
        ensures { IsLeast (λ q. has_ready self.now rank q && contains may.now q) (option_map (λ x. x.0) result) }
    {
        if has_bit(self.occupied, u32::from(rank)) {
            self.sets[usize::from(rank)].first_common(may)
        } else {
            None
        }
    }
}
