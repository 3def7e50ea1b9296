//! The commands that need no thread.

use em_log::{Limits, List};

/// The command `solo`: its limits, and the numbers of cores in the order in which they take turns.
#[derive(Debug, Drop)]
pub struct Solo {
    pub limits: Limits,
    pub order: List<u8>,
}

/// Runs a script, or writes it in its canonical spelling.
#[derive(Debug, Drop)]
pub enum Command {
    Solo(Solo),
    Check,
}
