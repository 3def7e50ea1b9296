//! Sets of indices in words of 64 bits, under one word that tells which of them are not 0.
ghost use Rattle.std.specs.Prelude.{◌≡◌, ◌*◌, ◌<◌, ◌≤◌, true, false, length, replicate, slice_set, slice_index, slice_index_or, IfOk};
ghost use Rattle.em_pool.specs.Indices.{is_member, AreSummed, IsFirst};

use crate::bits::{lowest_from, with_bit};
use em_log::NoMemory;
use std::alloc::Global;
use std::marker::Model;

/// A set of indices below a size of at most 4,096, seen as which of them are in it.
#[derive(Drop)]
pub struct IndexSet {
    size: u16,
    words: Vec<u64>,
    summary: u64,
}

impl Model for IndexSet {
    ghost use Rattle.std.specs.Prelude.{List, Bool};
    ghost use Rattle.em_pool.specs.Indices.{members, IsSummed};

    ghost Value = { List Bool };

    ghost view = { λ s. members s.size s.words.items };

    ghost invariant = { λ s. IsSummed s.size s.words.items s.summary };
}

impl IndexSet {
    /// No index below `size`.
    pub fn empty(alloc: Global, size: u16) -> Result<IndexSet, NoMemory>
        requires { size ≤ 4096 }
        ensures { IfOk result (λ s. s ≡ replicate size false) }
    {
        match vec![in alloc; 0u64; (usize::from(size) + 63) / 64] {
            Ok(words) => Ok(IndexSet {
                size,
                words,
                summary: 0,
            }),
            Err(_) => Err(NoMemory),
        }
    }

    /// All indices below `size`.
    pub fn full(alloc: Global, size: u16) -> Result<IndexSet, NoMemory>
        requires { size ≤ 4096 }
        ensures { IfOk result (λ s. s ≡ replicate size true) }
    {
        let mut set = IndexSet::empty(alloc, size)?;
        for index in 0..size {
            set.put(index, true);
        }
        Ok(set)
    }

    /// Puts the index into the set, or takes it out.
    pub fn put(&mut self, index: u16, is_in: bool)
        requires { index < length self.old }
        ensures { self.new ≡ slice_set self.old index is_in }
    {
        let word = usize::from(index / 64);
        let bits = with_bit(self.words[word], u32::from(index % 64), is_in);
        self.words[word] = bits;
        self.summary = with_bit(self.summary, u32::from(index / 64), bits != 0);
    }

    /// The least index from `from` on that is in the set.
    pub fn first_from(&self, from: u16) -> Option<u16>
        ensures { IsFirst (λ k. slice_index_or self.now k false) from result }
    {
        first_in(self.words.as_slice(), self.summary, from)
    }
}

/// The least index from `from` on that is in the set of these words.
fn first_in(words: &[u64], summary: u64, from: u16) -> Option<u16>
    requires few { length words.now ≤ 64 }
    requires summed { AreSummed words.now summary }
    ensures { IsFirst (is_member words.now) from result }
{
    let word = from / 64;
    if usize::from(word) >= words.len() {
        return None;
    }
    if let Some(bit) = lowest_from(words[usize::from(word)], u32::from(from % 64)) {
        return Some(word * 64 + bit as u16);
    }
    match lowest_from(summary, u32::from(word) + 1) {
        None => None,
        Some(later) => lowest_in(words, later as u16),
    }
}

/// The least index in a word that is not 0.
fn lowest_in(words: &[u64], word: u16) -> Option<u16>
    requires few { length words.now ≤ 64 }
    requires nonempty { 0 < slice_index words.now word }
    ensures { IsFirst (is_member words.now) (64 * word) result }
{
    match lowest_from(words[usize::from(word)], 0) {
        None => None,
        Some(bit) => Some(word * 64 + bit as u16),
    }
}
