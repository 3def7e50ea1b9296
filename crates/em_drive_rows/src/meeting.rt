//! A gate that holds receives until so many have started.

use em_log::{CoreId, Gate, QueueId};
use std::hint::spin_loop;
use std::sync::atomic::{AtomicU64, Ordering};

/// How often a receive that is held looks, at most.
const LOOKS: u32 = 200_000_000;

/// How many receives have started, on which cores, and how many of them looked in vain.
#[derive(Drop)]
pub struct Meeting {
    wanted: u64,
    started: AtomicU64,
    // A bit for each core.
    cores: AtomicU64,
    late: AtomicU64,
}

impl Meeting {
    /// Each receive is held until so many have started.
    pub fn new(wanted: u64) -> Meeting {
        Meeting {
            wanted,
            started: AtomicU64::new(0),
            cores: AtomicU64::new(0),
            late: AtomicU64::new(0),
        }
    }

    /// Whether all receives met, and they were of these cores, with a bit for each.
    pub fn was_of(&self, cores: u64) -> bool {
        self.late.load(Ordering::SeqCst) == 0 && self.cores.load(Ordering::SeqCst) == cores
    }
}

impl Gate for Meeting {
    fn at_start(&self, core: CoreId, _queue: QueueId, _word: u64) {
        self.cores
            .fetch_or(1_u64 << (core.0 % 64), Ordering::SeqCst);
        self.started.fetch_add(1, Ordering::SeqCst);
        for _ in 0..LOOKS {
            if self.started.load(Ordering::SeqCst) >= self.wanted {
                return;
            }
            spin_loop();
        }
        self.late.fetch_add(1, Ordering::SeqCst);
    }

    fn at_idle(&self, _core: CoreId) {}
}
