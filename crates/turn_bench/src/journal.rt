//! The value that the threads share.
ghost use Rattle.std.specs.Prelude.{◌≡◌, ◌++◌, [], ◌∷◌, map, if◌then◌else◌};
ghost use Rattle.em_log.specs.Items.{Logged};
ghost use Rattle.em_log.specs.declared.entry.What.TheVariants.{Say};

use em_log::{CoreId, Declarations, Entry, Limits, List, What};
use em_turn::Listed;
use std::alloc::Global;

// A journal takes no more entries than this, so that a long run needs little memory.
const MOST: usize = 1000;

/// The declarations of a graph, the limits, and the first entries of a run.
#[derive(Drop)]
pub struct Journal {
    declarations: Declarations,
    limits: Limits,
    pub entries: Vec<Entry>,
    last: u64,
}

impl Listed for Journal {
    ghost fixed = { λ j. record { declarations = j.declarations; limits = j.limits } };

    ghost items = { λ j. map Logged j.entries.items };
}

impl Journal {
    pub fn new(alloc: Global, cores: u8) -> Journal
        ensures { result.entries.items ≡ [] }
    {
        Journal {
            declarations: Declarations {
                cores,
                pools: List::new(alloc),
                groups: List::new(alloc),
                running: List::new(alloc),
                agroups: List::new(alloc),
                queues: List::new(alloc),
                egroups: 0,
            },
            limits: Limits {
                receives: 1,
                burst: 1,
            },
            entries: Vec::new(alloc),
            last: 0,
        }
    }

    /// Adds an entry of this core, and says whether there was room and memory for it.
    pub fn add(&mut self, core: CoreId, word: u64) -> bool
        ensures entries { self.new.entries.items ≡ (if result then self.old.entries.items ++ record { core = core; what = Say word } ∷ [] else self.old.entries.items) }
        ensures fixed { (self.new.declarations ≡ self.old.declarations) × (self.new.limits ≡ self.old.limits) }
    {
        self.last = word;
        if self.entries.len() >= MOST {
            return false;
        }
        let what = What::Say(word);
        self.entries.push(Entry { core, what }).is_ok()
    }
}
