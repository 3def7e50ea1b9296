//! Reading a source to its end.
ghost use Rattle.std.specs.Prelude.{◌≡◌, ◌<◌, ◌≤◌, ◌+◌, ◌^◌, ◌≢◌, List, ℕ, [], Err, length, IfOk, IfSome, IsErrOf, OnOk, vec_len};
ghost use Rattle.std.specs.Io.KnownBytes.{IsAtEnd};
ghost use Rattle.em_io.specs.Faults.{HasRisen};
ghost use Rattle.em_io.specs.Source.{Takes};

use crate::Source;
use std::alloc::Global;
use thiserror::Error;

/// Why a source was not read to its end.
#[derive(Debug, Drop, Error)]
pub enum ReadEnd {
    #[error("a read failed")]
    Failed,
    #[error("the input is too long")]
    TooLong,
    #[error("out of memory")]
    NoMemory,
}

const PIECE: usize = 4096;

/// All bytes that are left of a source, if they are at most `limit`. At `Err` some of them are taken.
pub fn read_all<S: Source>(alloc: Global, source: &mut S, limit: usize) -> Result<Vec<u8>, ReadEnd>
    ensures bytes { IfOk result (λ bytes. Takes (S.left source.old) (S.left source.new) (S.given source.old) (S.given source.new) bytes.items) }
    ensures end { OnOk result (IsAtEnd (S.left source.new)) }
    ensures within { IfOk result (λ bytes. vec_len bytes ≤ limit) }

    // It answers so exactly where more than the limit was taken.
    ensures too_long { IsErrOf result ReadEnd.TooLong → S.given source.old + limit < S.given source.new }
    ensures not_too_long { ¬ IsErrOf result ReadEnd.TooLong → S.given source.new ≤ S.given source.old + limit }
    ensures too_long_left { IsErrOf result ReadEnd.TooLong → IfSome (S.left source.old) (λ left. limit < length left) }

    ensures failed { IsErrOf result ReadEnd.Failed → HasRisen (S.faults source.old) (S.faults source.new) }
    ensures sound { ¬ IsErrOf result ReadEnd.Failed → S.faults source.new ≡ S.faults source.old }
    ensures never_falls { S.faults source.old ≤ S.faults source.new }
{
    let mut bytes = Vec::new(alloc);
    let mut piece = [0; PIECE];
    loop {
        let Ok(count) = source.read(&mut piece) else {
            return Err(ReadEnd::Failed);
        };
        if count == 0 {
            return Ok(bytes);
        }
        if limit - bytes.len() < count {
            return Err(ReadEnd::TooLong);
        }
        if bytes.extend_from_slice(&piece[..count]).is_err() {
            return Err(ReadEnd::NoMemory);
        }
    }
}
