//! Sets of queues, as bits.
ghost use Rattle.std.specs.Prelude.{◌≡◌, ℕ, ◌<◌, ◌==◌, ◌&&◌, true, false, if◌then◌else◌};
ghost use Rattle.std.specs.Bool.{OnTrue};
ghost use Rattle.std.specs.Option.{option_map};
ghost use Rattle.em_queues.specs.Sets.{contains, IsLeast};

use crate::bits::{has_bit, lowest_common, with_bit};
use em_log::QueueId;

/// A set of queues with numbers below 256, the greatest number of queues: one bit for each.
#[derive(Clone, Copy, Debug, PartialEq, Eq)]
pub struct QueueSet {
    pub(crate) words: [u64; 4],
}

/// The queues that a core may take from.
pub type Allowed = QueueSet;

impl QueueSet {
    /// No queue.
    pub fn none() -> QueueSet
        ensures { (q : ℕ) → contains result q ≡ false }
    {
        QueueSet { words: [0; 4] }
    }

    /// Puts the queue in.
    pub fn add(&mut self, queue: QueueId)
        requires { queue.0 < 256 }
        ensures { (q : ℕ) → contains self.new q ≡ (if q == queue.0 then true else contains self.old q) }
    {
        self.put(queue, true);
    }

    /// Takes the queue out.
    pub fn remove(&mut self, queue: QueueId)
        requires { queue.0 < 256 }
        ensures { (q : ℕ) → contains self.new q ≡ (if q == queue.0 then false else contains self.old q) }
    {
        self.put(queue, false);
    }

    /// Puts the queue in, or takes it out.
    pub(crate) fn put(&mut self, queue: QueueId, is_in: bool)
        requires { queue.0 < 256 }
        ensures { (q : ℕ) → contains self.new q ≡ (if q == queue.0 then is_in else contains self.old q) }
    {
        let word = usize::from(queue.0 / 64);
        self.words[word] = with_bit(self.words[word], u32::from(queue.0 % 64), is_in);
    }

    /// Whether the queue is in.
    pub fn has(&self, queue: QueueId) -> bool
        requires { queue.0 < 256 }
        ensures { result ≡ contains self.now queue.0 }
    {
        has_bit(
            self.words[usize::from(queue.0 / 64)],
            u32::from(queue.0 % 64),
        )
    }

    /// Whether no queue is in.
    pub(crate) fn is_empty(&self) -> bool
        ensures { OnTrue result ((q : ℕ) → contains self.now q ≡ false) }
    {
        *self == QueueSet::none()
    }

    /// The queue of the least number that is in both sets.
    pub(crate) fn first_common(&self, other: &QueueSet) -> Option<QueueId>
        ensures { IsLeast (λ q. contains self.now q && contains other.now q) (option_map (λ x. x.0) result) }
    {
        for word in 0..4u16 {
            let left = self.words[usize::from(word)];
            let right = other.words[usize::from(word)];
            if let Some(bit) = lowest_common(left, right) {
                return Some(QueueId(64 * word + bit as u16));
            }
        }
        None
    }
}
