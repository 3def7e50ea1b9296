//! Where seats sleep while they wait for their turn. No clause speaks of it.

use std::array;
use std::sync::Wait;
use std::sync::atomic::AtomicU64;
use std::sync::atomic::Ordering::SeqCst;
use std::time::Duration;

// How long a nap is, in microseconds.
const NAP: u64 = 50;

/// A gate for each ticket modulo 64. At most 64 seats have a ticket, so no two that wait have one gate.
#[derive(Drop)]
pub struct Gates {
    marks: [AtomicU64; 64],
    // It stays 0, and nobody is woken there.
    quiet: AtomicU64,
}

// What a gate contains while a seat sleeps there with the ticket. Its low half is never 0, which is an open gate.
fn mark_of(ticket: u64) -> u64 {
    ticket | 1
}

impl Gates {
    pub fn new() -> Gates {
        Gates {
            marks: array::from_fn(|_| AtomicU64::new(0)),
            quiet: AtomicU64::new(0),
        }
    }

    /// Sleeps about as long as a nap, with no gate, and maybe less.
    pub fn nap(&self, wait: &impl Wait) {
        self.quiet.park_timeout(wait, 0, Duration::from_micros(NAP));
    }

    /// Shuts the gate of the ticket.
    pub fn shut(&self, ticket: u64) {
        self.gate_of(ticket).store(mark_of(ticket), SeqCst);
    }

    /// Sleeps while the gate of the ticket is shut, and maybe less.
    pub fn sleep(&self, wait: &impl Wait, ticket: u64) {
        let low = (mark_of(ticket) % (1 << 32)) as u32;
        self.gate_of(ticket).park(wait, low);
    }

    /// Opens the gate of the ticket, and wakes the seat that sleeps there.
    pub fn open(&self, ticket: u64) {
        let gate = self.gate_of(ticket);
        let mark = mark_of(ticket);
        if gate.load(SeqCst) == mark && gate.compare_exchange(mark, 0, SeqCst, SeqCst).is_ok() {
            gate.wake_one();
        }
    }

    fn gate_of(&self, ticket: u64) -> &AtomicU64 {
        &self.marks[(ticket % 64) as usize]
    }
}
