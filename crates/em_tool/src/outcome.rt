//! What a call comes to, before anything is written.

use em_desk::Desk;
use em_log::EndKind;

/// The words are no command, a read failed, the input is too long, it is no script, its graph does not run today, its run
/// is over, or it is checked, with its canonical spelling.
#[derive(Drop)]
pub enum Outcome {
    NotKnown,
    ReadFailed,
    TooLong,
    Refused { line: u64, rule: u8 },
    NotRunnable,
    Ran(Desk, EndKind),
    Checked(Vec<u8>),
}
