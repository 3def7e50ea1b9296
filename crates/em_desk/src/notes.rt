//! Events that are handed in with an ask, as notes.
ghost use Rattle.std.specs.Prelude.{◌≡◌, ◌==◌, [], List};
ghost use Rattle.std.specs.List.{list_any};
ghost use Rattle.em_pool.specs.Steps.{PoolStep};
ghost use Rattle.em_pool.specs.Stands as pool;
ghost use Rattle.em_parts.specs.PoolSteps.{noted_steps};
ghost use Rattle.em_desk.specs.Notes.{notes_refusal, CanNote};

use em_log::{CoreId, Fault, Note};
use em_pool::{Pools, Spend};

/// Whether one of these notes has the word.
fn names(notes: &[Note], word: u64) -> bool
    ensures { result ≡ list_any (λ n. n.word == word) notes.now }
{
    notes.iter().any(|note| note.word == word)
}

/// Why the core may not hand these notes in by the entry at this place, if it may not: the first word that it may not
/// use, or that stands in an earlier note.
pub fn refusal(pools: &Pools, core: CoreId, place: u64, notes: &[Note]) -> Option<Fault>
    ensures { (s : List PoolStep) → pool.Stands pools.now s → result ≡ notes_refusal s core.0 place [] notes.now }
{
    let mut before: usize = 0;
    for note in notes {
        if names(&notes[..before], note.word) {
            return Some(Fault::SpentBySend(place));
        }
        if let Err(fault) = pools.rule(core, note.word) {
            return Some(fault);
        }
        before += 1;
    }
    None
}

/// Spends the words of these notes by the entry at this place, in order.
pub fn spend(pools: &mut Pools, core: CoreId, place: u64, notes: &[Note])
    requires { CanNote pools.old core.0 place notes.now }
    ensures stands { (s : List PoolStep) → pool.Stands pools.old s → pool.Stands pools.new (noted_steps core.0 place notes.now s) }
    ensures shapes { pools.new.pools ≡ pools.old.pools }
    ensures spare { pools.new.spare ≡ pools.old.spare }
{
    for note in notes {
        pools.spend(core, note.word, Spend::Noted, place);
    }
}
