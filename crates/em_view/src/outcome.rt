//! What a call comes to, before anything is written.

/// The words are not known, a read failed, the input is too long, it is no trace, or it is drawn, with its page.
#[derive(Drop)]
pub enum Outcome {
    NotKnown,
    ReadFailed,
    TooLong,
    Refused { line: u64, rule: u8 },
    Drawn(Vec<u8>),
}
