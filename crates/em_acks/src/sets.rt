//! Sets of operations.
ghost use Rattle.std.specs.Prelude.{◌≡◌, ℕ, ◌<◌, ◌==◌, false, if◌then◌else◌};
ghost use Rattle.std.specs.Option.{option_map};
ghost use Rattle.em_log.specs.Bounds.{operation_limit};
ghost use Rattle.em_acks.specs.Words.{IsLeast};
ghost use Rattle.em_acks.specs.Sets.{contains};

use crate::words::{WORD_BITS, WordSet};
use em_log::{MAX_OPERATIONS, OpId};

/// The numbers of a word.
const IN_A_WORD: u16 = WORD_BITS as u16;

/// How many words all operations of a run take.
const WORDS: u16 = MAX_OPERATIONS / IN_A_WORD;

/// A set of operations, as words of their numbers.
#[derive(Drop)]
pub struct OperationSet {
    pub words: [WordSet; WORDS as usize],
}

impl OperationSet {
    /// No operation.
    pub fn none() -> OperationSet
        ensures { (n : ℕ) → contains result n ≡ false }
    {
        OperationSet {
            words: [
                WordSet::first(0),
                WordSet::first(0),
                WordSet::first(0),
                WordSet::first(0),
            ],
        }
    }

    /// Puts the operation in, or takes it out.
    pub fn put(&mut self, op: OpId, is_in: bool)
        requires { op.0 < operation_limit }
        ensures { (n : ℕ) → contains self.new n ≡ (if n == op.0 then is_in else contains self.old n) }
    {
        let word = usize::from(op.0 / IN_A_WORD);
        self.words[word] = self.words[word].put((op.0 % IN_A_WORD) as u8, is_in);
    }

    /// The operation of the least number.
    pub fn first(&self) -> Option<OpId>
        ensures { IsLeast (contains self.now) (option_map (λ x. x.0) result) }
    {
        for word in 0..WORDS {
            if let Some(bit) = self.words[usize::from(word)].least() {
                return Some(OpId(IN_A_WORD * word + u16::from(bit)));
            }
        }
        None
    }
}
