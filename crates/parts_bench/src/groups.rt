//! The calls of the queue groups, each by itself, and rounds of them.
ghost use Rattle.std.specs.Prelude.{◌≡◌, ◌<◌, ◌∷◌, List, None, IsSome, MatchResult};
ghost use Rattle.em_log.specs.declared.declarations.Declarations.{Declarations};
ghost use Rattle.em_groups.specs.Steps.{GroupStep, Began, Finished};
ghost use Rattle.em_groups.specs.State.{shape, change_at};
ghost use Rattle.em_groups.specs.Stands.{Stands};
ghost use Rattle.parts_bench.specs.Standing.{AreSettled};

use bitflags::Flags;
use em_groups::Groups;
use em_log::{Fault, GroupId};

/// How often each call is made in a round.
pub const CALLS: [(&str, u32); 3] = [("begin", 1), ("finish", 1), ("effective", 1)];

#[inline(never)]
fn effective(groups: &Groups, group: GroupId) -> u64
    requires { group.0 < shape groups.now }
{
    groups.effective(group).bits()
}

#[inline(never)]
fn begin(groups: &mut Groups, group: GroupId, mask: u64) -> Result<(), Fault>
    requires group { group.0 < shape groups.old }
    requires idle { change_at groups.old group.0 ≡ None }
    ensures stands { (k : Declarations) (s : List GroupStep) → Stands k groups.old s → MatchResult result (λ _. Stands k groups.new (Began group.0 mask ∷ s)) (λ _. Stands k groups.new s) }
    ensures same_shape { shape groups.new ≡ shape groups.old }
{
    groups.begin(group, mask)
}

#[inline(never)]
fn finish(groups: &mut Groups, group: GroupId)
    requires { IsSome (change_at groups.old group.0) }
    ensures stands { (k : Declarations) (s : List GroupStep) → Stands k groups.old s → Stands k groups.new (Finished group.0 ∷ s) }
    ensures same_shape { shape groups.new ≡ shape groups.old }
{
    groups.finish(group);
}

/// The mask of the group changes, if there is such a mask.
fn changed(groups: &mut Groups, group: GroupId, mask: u64) -> bool
    requires group { group.0 < shape groups.old }
    requires settled { AreSettled groups.old }
    ensures settled { AreSettled groups.new }
    ensures same_shape { shape groups.new ≡ shape groups.old }
{
    match begin(groups, group, mask) {
        Ok(()) => {
            finish(groups, group);
            true
        }
        Err(_) => false,
    }
}

/// The mask of the group changes. Whether the one in force names a core.
pub fn round(groups: &mut Groups, group: GroupId, mask: u64) -> bool
    requires group { group.0 < shape groups.old }
    requires settled { AreSettled groups.old }
    ensures settled { AreSettled groups.new }
    ensures same_shape { shape groups.new ≡ shape groups.old }
{
    let is_changed = changed(groups, group, mask);
    effective(groups, group) != 0 && is_changed
}
