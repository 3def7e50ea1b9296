//! Sets of small numbers, as the bits of a word.
ghost use Rattle.std.specs.Prelude.{◌≡◌, ℕ, ◌<◌, ◌≤◌, ◌==◌, if◌then◌else◌, length, IfSome};
ghost use Rattle.em_log.specs.Declarations.{below};
ghost use Rattle.em_log.specs.History.{has, without};
ghost use Rattle.em_acks.specs.Words.{IsLeast};

use std::marker::Model;

/// The bits of a word: one for each number that a set can hold.
pub const WORD_BITS: u8 = 64;

/// A set of numbers below 64, seen as the list of them, upwards.
#[derive(Drop)]
pub struct WordSet {
    bits: u64,
}

impl Model for WordSet {
    ghost use Rattle.std.specs.Prelude.{List, ℕ};
    ghost use Rattle.em_acks.specs.Words.{members};

    ghost Value = { List ℕ };

    ghost view = { λ s. members s.bits };
}

impl WordSet {
    /// The first numbers, as many as are told.
    pub fn first(count: u8) -> WordSet
        requires { count ≤ WORD_BITS }
        ensures { result ≡ below count }
    {
        if count == 0 {
            return WordSet { bits: 0 };
        }
        WordSet {
            bits: u64::MAX >> (WORD_BITS - count),
        }
    }

    /// Whether the number is in the set.
    pub fn has(&self, number: u8) -> bool
        ensures { result ≡ has self.now number }
    {
        number < WORD_BITS && self.bits >> number & 1 == 1
    }

    /// The set without this number.
    pub fn without(&self, number: u8) -> WordSet
        requires { number < WORD_BITS }
        ensures { result ≡ without number self.now }
    {
        WordSet {
            bits: self.bits & !(1 << number),
        }
    }

    /// The set with this number, or without it.
    pub fn put(&self, number: u8, is_in: bool) -> WordSet
        requires { number < WORD_BITS }
        ensures { (i : ℕ) → has result i ≡ (if i == number then is_in else has self.now i) }
    {
        if is_in {
            WordSet {
                bits: self.bits | (1 << number),
            }
        } else {
            self.without(number)
        }
    }

    /// How many numbers are in the set.
    pub fn len(&self) -> u8
        ensures { result ≡ length self.now }
    {
        self.bits.count_ones() as u8
    }

    /// The least number of the set.
    pub fn least(&self) -> Option<u8>
        ensures least { IsLeast (has self.now) result }
        ensures small { IfSome result (λ i. i < WORD_BITS) }
    {
        if self.bits == 0 {
            None
        } else {
            Some(self.bits.trailing_zeros() as u8)
        }
    }
}
