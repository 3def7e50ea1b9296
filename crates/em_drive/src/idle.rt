//! How a core waits that has nothing to do for now. No clause speaks of it.

use std::hint::spin_loop;
use std::sync::Wait;
use std::sync::atomic::AtomicU64;
use std::time::Duration;

// How often a core looks again at once.
const LOOKS: u32 = 50;

// How long a nap is at most, in microseconds.
const NAP: u64 = 100;

/// A core that may have nothing to do.
#[derive(Drop)]
pub struct Idle {
    // How often it has looked since it had something to do.
    looks: u32,
    // It stays 0, and nobody is woken there.
    quiet: AtomicU64,
}

impl Idle {
    pub fn new() -> Idle {
        Idle {
            looks: 0,
            quiet: AtomicU64::new(0),
        }
    }

    /// It had something to do.
    pub fn end(&mut self) {
        self.looks = 0;
    }

    /// It has nothing to do: it is to look again at once, and after some looks each time after a nap.
    pub fn wait(&mut self, wait: &impl Wait) {
        if self.looks < LOOKS {
            self.looks += 1;
            spin_loop();
        } else {
            self.quiet.park_timeout(wait, 0, Duration::from_micros(NAP));
        }
    }
}
