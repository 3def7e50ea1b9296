//! Unions and differences of sets of queues.
ghost use Rattle.std.specs.Prelude.{◌≡◌, ℕ, ◌&&◌, ◌||◌, not};
ghost use Rattle.em_queues.specs.Sets.{contains};

use crate::set::QueueSet;

impl QueueSet {
    /// The queues of both sets together.
    pub fn union(&self, other: &QueueSet) -> QueueSet
        ensures { (q : ℕ) → contains result q ≡ (contains self.now q || contains other.now q) }
    {
        let [a, b, c, d] = self.words;
        let [e, f, g, h] = other.words;
        QueueSet {
            words: [a | e, b | f, c | g, d | h],
        }
    }

    /// The queues of this set that the other has not.
    pub fn without(&self, other: &QueueSet) -> QueueSet
        ensures { (q : ℕ) → contains result q ≡ (contains self.now q && not (contains other.now q)) }
    {
        let [a, b, c, d] = self.words;
        let [e, f, g, h] = other.words;
        QueueSet {
            words: [a & !e, b & !f, c & !g, d & !h],
        }
    }
}
