//! The operations to which each core owes a step.
ghost use Rattle.std.specs.Prelude.{◌≡◌, ◌<◌, ◌≤◌, length, IfOk};
ghost use Rattle.em_log.specs.Bounds.{core_limit, operation_limit};
ghost use Rattle.em_acks.specs.Sets.{AreClear, AreMarked};

use crate::sets::OperationSet;
use crate::unfinished::{Unfinished, is_owed};
use em_log::{CoreId, NoMemory, OpId};
use std::alloc::Global;

/// For each core a set; none owes a step.
pub fn none_owed(alloc: Global, cores: u8) -> Result<Vec<OperationSet>, NoMemory>
    ensures { IfOk result (λ owed. AreClear cores owed.items) }
{
    let mut owed = Vec::new(alloc);
    if owed.reserve(usize::from(cores)).is_err() {
        return Err(NoMemory);
    }
    for _ in 0..cores {
        owed.push_reserved(OperationSet::none());
    }
    Ok(owed)
}

/// Notes for each core whether it owes a step to the operation of this number, which has come to be this one, or is done.
pub fn mark(owed: &mut Vec<OperationSet>, op: OpId, operation: &Option<Unfinished>)
    requires few { length owed.old.items ≤ core_limit }
    requires op { op.0 < operation_limit }
    ensures count { length owed.new.items ≡ length owed.old.items }
    ensures sets { AreMarked (length owed.old.items) owed.old.items op.0 operation.now owed.new.items }
{
    let cores = owed.len() as u8;
    for core in 0..cores {
        owed[usize::from(core)].put(op, is_owed(operation, CoreId(core)));
    }
}
