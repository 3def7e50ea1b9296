//! The calls of the event groups, each by itself, and rounds of them.
ghost use Rattle.std.specs.Prelude.{◌≡◌, ◌+◌, ◌<◌, ◌∷◌, [], true, IsTrue, List, None, MatchResult, length};
ghost use Rattle.std.specs.Bool.{OnTrue, OnFalse};
ghost use Rattle.em_egroups.specs.Steps.{EgroupStep, Applied, Stamped, Increased, Left, Aborted};
ghost use Rattle.em_egroups.specs.Applications.{stamp_now};
ghost use Rattle.em_egroups.specs.State.{group_at, has_current, apply_refusal_in};
ghost use Rattle.em_egroups.specs.Stands.{Stands};
ghost use Rattle.parts_bench.specs.Standing.{HadFew, HasBegun};

use em_egroups::{Counted, EventGroups};
use em_log::{EventGroupId, Fault, Notes, Stamp};

/// How often each call is made in a round.
pub const CALLS: [(&str, u32); 8] = [
    ("check_apply", 2),
    ("apply", 2),
    ("can_stamp", 1),
    ("stamp", 2),
    ("is_current", 1),
    ("count_down", 1),
    ("increment", 1),
    ("abort", 1),
];

#[inline(never)]
fn check_apply(groups: &EventGroups, group: EventGroupId) -> bool
    requires { group.0 < length groups.now }
    ensures { OnTrue result (apply_refusal_in (group_at groups.now group.0) 1 ≡ None) }
{
    groups.check_apply(group, 1).is_ok()
}

#[inline(never)]
fn apply(groups: &mut EventGroups, group: EventGroupId) -> u32
    requires group { group.0 < length groups.old }
    requires allowed { apply_refusal_in (group_at groups.old group.0) 1 ≡ None }
    requires few { (group_at groups.old group.0).applications < 4294967295 }
    ensures stands { (s : List EgroupStep) → Stands groups.old s → Stands groups.new (Applied group.0 1 [] ∷ s) }
    ensures same_shape { length groups.new ≡ length groups.old }
{
    groups.apply(group, 1, Notes::new())
}

#[inline(never)]
fn can_stamp(groups: &EventGroups, group: EventGroupId) -> bool
    requires { group.0 < length groups.now }
{
    groups.can_stamp(group).is_ok()
}

#[inline(never)]
fn stamp(groups: &mut EventGroups, group: EventGroupId) -> Result<Stamp, Fault>
    requires { group.0 < length groups.old }
    ensures answer { (s : List EgroupStep) → Stands groups.old s → MatchResult result (λ m. m ≡ stamp_now s group.0) (λ _. Unit {0}) }
    ensures stands { (s : List EgroupStep) → Stands groups.old s → MatchResult result (λ _. Stands groups.new (Stamped group.0 ∷ s)) (λ _. Stands groups.new s) }
    ensures same_shape { length groups.new ≡ length groups.old }
{
    groups.stamp(group)
}

#[inline(never)]
fn is_current(groups: &EventGroups, stamp: Stamp) -> bool
    requires { stamp.group.0 < length groups.now }
{
    groups.is_current(stamp)
}

#[inline(never)]
fn increment(groups: &mut EventGroups, stamp: Stamp) -> Result<(), Fault>
    requires { stamp.group.0 < length groups.old }
    ensures stands { (s : List EgroupStep) → Stands groups.old s → MatchResult result (λ _. Stands groups.new (Increased stamp.group.0 1 ∷ s)) (λ _. Stands groups.new s) }
    ensures same_shape { length groups.new ≡ length groups.old }
{
    groups.increment(stamp, 1)
}

#[inline(never)]
fn count_down(groups: &mut EventGroups, stamp: Stamp) -> bool
    requires group { stamp.group.0 < length groups.old }
    requires member { has_current (group_at groups.old stamp.group.0) stamp.app ≡ true → (group_at groups.old stamp.group.0).left < (group_at groups.old stamp.group.0).members }
    ensures stands { (s : List EgroupStep) → Stands groups.old s → Stands groups.new (Left stamp ∷ s) }
    ensures same_shape { length groups.new ≡ length groups.old }
{
    !matches!(groups.count_down(stamp), Counted::Stale)
}

#[inline(never)]
fn abort(groups: &mut EventGroups, group: EventGroupId) -> Result<Notes, Fault>
    requires { group.0 < length groups.old }
    ensures stands { (s : List EgroupStep) → Stands groups.old s → MatchResult result (λ _. Stands groups.new (Aborted group.0 ∷ s)) (λ _. Stands groups.new s) }
    ensures same_shape { length groups.new ≡ length groups.old }
{
    groups.abort(group)
}

/// Where the group is idle and had this many applications at most, a new one of one member begins.
fn begins(groups: &mut EventGroups, group: EventGroupId, before: u32) -> bool
    requires group { group.0 < length groups.old }
    requires few { HadFew groups.old before }
    requires room { before < 4294967295 }
    ensures begun { OnTrue result (HasBegun groups.new group.0 before) }
    ensures same { OnFalse result (HadFew groups.new before) }
    ensures same_shape { length groups.new ≡ length groups.old }
{
    if check_apply(groups, group) {
        apply(groups, group);
        true
    } else {
        false
    }
}

/// The member of the application is sent, and leaves.
fn leaves(groups: &mut EventGroups, group: EventGroupId, before: u32) -> bool
    requires group { group.0 < length groups.old }
    requires begun { HasBegun groups.old group.0 before }
    ensures few { HadFew groups.new (before + 1) }
    ensures same_shape { length groups.new ≡ length groups.old }
{
    match stamp(groups, group) {
        Ok(stamp) => {
            let is_current = is_current(groups, stamp);
            count_down(groups, stamp) && is_current
        }
        Err(_) => false,
    }
}

/// The member of the application is sent, and adds another one.
fn increases(groups: &mut EventGroups, group: EventGroupId, before: u32) -> bool
    requires group { group.0 < length groups.old }
    requires begun { HasBegun groups.old group.0 before }
    ensures few { HadFew groups.new (before + 1) }
    ensures same_shape { length groups.new ≡ length groups.old }
{
    match stamp(groups, group) {
        Ok(stamp) => increment(groups, stamp).is_ok(),
        Err(_) => false,
    }
}

/// The application is given up.
fn gives_up(groups: &mut EventGroups, group: EventGroupId, before: u32) -> bool
    requires group { group.0 < length groups.old }
    requires few { HadFew groups.old before }
    ensures few { HadFew groups.new before }
    ensures same_shape { length groups.new ≡ length groups.old }
{
    abort(groups, group).is_ok()
}

/// An application begins and ends by its own member, where the group is idle.
fn served(groups: &mut EventGroups, group: EventGroupId, before: u32) -> bool
    requires group { group.0 < length groups.old }
    requires few { HadFew groups.old before }
    requires room { before < 4294967295 }
    ensures few { HadFew groups.new (before + 1) }
    ensures same_shape { length groups.new ≡ length groups.old }
{
    begins(groups, group, before) && leaves(groups, group, before)
}

/// An application begins, its member adds another one, and it is given up.
fn given_up(groups: &mut EventGroups, group: EventGroupId, before: u32) -> bool
    requires group { group.0 < length groups.old }
    requires few { HadFew groups.old before }
    requires room { before < 4294967295 }
    ensures few { HadFew groups.new (before + 1) }
    ensures same_shape { length groups.new ≡ length groups.old }
{
    begins(groups, group, before)
        && increases(groups, group, before)
        && gives_up(groups, group, before + 1)
}

/// Both, of a group that had this many applications at most.
pub fn round(groups: &mut EventGroups, group: EventGroupId, before: u32) -> bool
    requires group { group.0 < length groups.old }
    requires few { HadFew groups.old before }
    requires room { before < 4294967293 }
    ensures few { HadFew groups.new (before + 2) }
    ensures same_shape { length groups.new ≡ length groups.old }
{
    let is_free = can_stamp(groups, group);
    let served = served(groups, group, before);
    given_up(groups, group, before + 1) && served && !is_free
}
