//! Faults as numbers.
ghost use Rattle.std.specs.Prelude.{◌≡◌};
ghost use Rattle.em_log.specs.Expressions.{kind_number as kind_by, state_number as state_by, fault_number, fault_detail};

use em_log::fault::Fault;
use em_log::ids::{EoState, Kind};

fn kind_number(kind: Kind) -> u64
    ensures { result ≡ kind_by kind }
{
    match kind {
        Kind::Atomic => 0,
        Kind::Parallel => 1,
        Kind::Ordered => 2,
        Kind::Local => 3,
        Kind::Unscheduled => 4,
        Kind::Output => 5,
    }
}

fn state_number(state: EoState) -> u64
    ensures { result ≡ state_by state }
{
    match state {
        EoState::Created => 0,
        EoState::Starting => 1,
        EoState::Running => 2,
        EoState::Stopping => 3,
    }
}

pub fn number_of(fault: Fault) -> u64
    ensures { result ≡ fault_number fault }
{
    match fault {
        Fault::NeverMinted(_) => 1,
        Fault::SpentBySend(_) => 2,
        Fault::SpentByFree(_) => 3,
        Fault::HeldElsewhere(_) => 4,
        Fault::QueueClosed(_) => 5,
        Fault::WrongKind(_) => 6,
        Fault::NotAtomic => 7,
        Fault::NotOrdered => 8,
        Fault::NoGroup => 9,
        Fault::GroupBusy(_) => 10,
        Fault::GroupIdle(_) => 11,
        Fault::OpPending(_) => 12,
        Fault::EoState(_) => 13,
        Fault::BadMask(_) => 14,
        Fault::PoolEmpty(_) => 15,
        Fault::BadSize(_) => 16,
        Fault::NoteLost(_) => 17,
        Fault::BadCount(_) => 18,
        Fault::StartFailed(_) => 19,
        Fault::OpsSpent(_) => 20,
    }
}

pub fn detail_of(fault: Fault) -> u64
    ensures { result ≡ fault_detail fault }
{
    match fault {
        Fault::NeverMinted(n) | Fault::SpentBySend(n) | Fault::SpentByFree(n) | Fault::BadMask(n) =>
            n,
        Fault::HeldElsewhere(core) => core.0 as u64,
        Fault::QueueClosed(n) | Fault::BadSize(n) => n as u64,
        Fault::WrongKind(kind) => kind_number(kind),
        Fault::NotAtomic | Fault::NotOrdered | Fault::NoGroup => 0,
        Fault::GroupBusy(n) | Fault::PoolEmpty(n) | Fault::BadCount(n) => n as u64,
        Fault::GroupIdle(group) => group.0 as u64,
        Fault::OpPending(op) | Fault::StartFailed(op) => op.0 as u64,
        Fault::EoState(state) => state_number(state),
        Fault::NoteLost(queue) => queue.0 as u64,
        Fault::OpsSpent(n) => n as u64,
    }
}
