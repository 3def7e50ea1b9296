//! The event groups of a run.
ghost use Rattle.std.specs.Prelude.{◌≡◌, ◌+◌, ◌<◌, ◌≤◌, true, [], ◌∷◌, List, length, None, Some, IfOk, MatchResult};
ghost use Rattle.em_egroups.specs.Steps.{EgroupStep, Applied, Stamped, Increased, Left, Aborted};
ghost use Rattle.em_egroups.specs.Applications.{applications, applied_notes, stamp_now, is_current as is_current_by_steps};
ghost use Rattle.em_egroups.specs.Refusals.{apply_refusal, stamp_refusal, increment_refusal, abort_refusal, counted};
ghost use Rattle.em_egroups.specs.State.{group_at, has_current, apply_refusal_in};
ghost use Rattle.em_egroups.specs.Stands.{Stands};
ghost use Rattle.em_egroups.specs.Changes.{changed_at, begun, joined, increased, lowered, lowered_to, given_up};

use crate::group::{Counted, Group, idle_groups};
use em_log::{Config, EventGroupId, Fault, NoMemory, Notes, Stamp};
use std::alloc::Global;
use std::marker::Model;

#[cfg(test)]
mod tests;

/// All event groups, in the order of declaration.
#[derive(Drop)]
pub struct EventGroups {
    groups: Vec<Group>,
}

impl Model for EventGroups {
    ghost use Rattle.std.specs.Prelude.{List};
    ghost use Rattle.std.specs.Coded.{coded_list};
    ghost use Rattle.em_egroups.specs.declared.group.Group.{Group};
    ghost use Rattle.em_egroups.specs.Codes.{group_code};
    ghost use Rattle.em_egroups.specs.Whole.{IsWhole};

    ghost Value = { List Group };

    ghost coded = { coded_list group_code };

    ghost view = { λ a. a.groups.items };

    ghost invariant = { λ a. IsWhole a.groups.items };
}

impl EventGroups {
    /// All groups are idle. Err is want of memory.
    pub fn build(alloc: Global, config: &Config) -> Result<EventGroups, NoMemory>
        ensures len { IfOk result (λ e. length e ≡ length config.now.egroups) }
        ensures stands { IfOk result (λ e. Stands e []) }
    {
        Ok(EventGroups {
            groups: idle_groups(alloc, config.egroups.as_slice().len())?,
        })
    }

    /// Whether an application with this count may begin. Refused where the group is busy, then where the count is 0 or
    /// too great.
    pub fn check_apply(&self, group: EventGroupId, count: u64) -> Result<(), Fault>
        requires { group.0 < length self.now }
        ensures value { MatchResult result (λ _. apply_refusal_in (group_at self.now group.0) count ≡ None) (λ f. apply_refusal_in (group_at self.now group.0) count ≡ Some f) }
        ensures answer { (s : List EgroupStep) → Stands self.now s → MatchResult result (λ _. apply_refusal s group.0 count ≡ None) (λ f. apply_refusal s group.0 count ≡ Some f) }
    {
        match self.groups[usize::from(group.0)].apply_refusal(count) {
            None => Ok(()),
            Some(fault) => Err(fault),
        }
    }

    /// Begins a new application of the group, and answers its number.
    pub fn apply(&mut self, group: EventGroupId, count: u64, notes: Notes) -> u32
        requires group { group.0 < length self.old }
        requires allowed { apply_refusal_in (group_at self.old group.0) count ≡ None }
        requires few { (group_at self.old group.0).applications < 4294967295 }
        ensures answer { (s : List EgroupStep) → Stands self.old s → result ≡ applications s group.0 + 1 }
        ensures stands { (s : List EgroupStep) → Stands self.old s → Stands self.new (Applied group.0 count notes ∷ s) }
        ensures same_shape { length self.new ≡ length self.old }
    {
        self.begin(group, count as u32, notes)
    }

    /// Counts one member more of the group's current application as sent, and answers its stamp. Refused where the group
    /// is idle, then where as many members were sent as the application's total.
    pub fn stamp(&mut self, group: EventGroupId) -> Result<Stamp, Fault>
        requires { group.0 < length self.old }
        ensures answer { (s : List EgroupStep) → Stands self.old s → MatchResult result (λ m. (m ≡ stamp_now s group.0) × (stamp_refusal s group.0 ≡ None)) (λ f. stamp_refusal s group.0 ≡ Some f) }
        ensures stands { (s : List EgroupStep) → Stands self.old s → MatchResult result (λ _. Stands self.new (Stamped group.0 ∷ s)) (λ _. Stands self.new s) }
        ensures same_shape { length self.new ≡ length self.old }
    {
        match self.groups[usize::from(group.0)].stamp_refusal(group) {
            None => Ok(self.join(group)),
            Some(fault) => Err(fault),
        }
    }

    /// Whether a member of the group may be sent: refused as `stamp` is, and nothing changes.
    pub fn can_stamp(&self, group: EventGroupId) -> Result<(), Fault>
        requires { group.0 < length self.now }
        ensures { (s : List EgroupStep) → Stands self.now s → MatchResult result (λ _. stamp_refusal s group.0 ≡ None) (λ f. stamp_refusal s group.0 ≡ Some f) }
    {
        match self.groups[usize::from(group.0)].stamp_refusal(group) {
            None => Ok(()),
            Some(fault) => Err(fault),
        }
    }

    /// Whether the stamp's application is the current one of its group.
    pub fn is_current(&self, stamp: Stamp) -> bool
        requires { stamp.group.0 < length self.now }
        ensures value { result ≡ has_current (group_at self.now stamp.group.0) stamp.app }
        ensures answer { (s : List EgroupStep) → Stands self.now s → result ≡ is_current_by_steps s stamp.group.0 stamp.app }
    {
        self.groups[usize::from(stamp.group.0)].has_current(stamp.app)
    }

    /// Adds to the count of the stamp's application. Refused where that is not the current one, then where nothing is
    /// added or the total would be too great.
    pub fn increment(&mut self, stamp: Stamp, n: u64) -> Result<(), Fault>
        requires { stamp.group.0 < length self.old }
        ensures answer { (s : List EgroupStep) → Stands self.old s → MatchResult result (λ _. increment_refusal s stamp n ≡ None) (λ f. increment_refusal s stamp n ≡ Some f) }
        ensures stands { (s : List EgroupStep) → Stands self.old s → MatchResult result (λ _. Stands self.new (Increased stamp.group.0 n ∷ s)) (λ _. Stands self.new s) }
        ensures same_shape { length self.new ≡ length self.old }
    {
        match self.groups[usize::from(stamp.group.0)].increment_refusal(stamp, n) {
            None => {
                self.increase(stamp.group, n as u32);
                Ok(())
            }
            Some(fault) => Err(fault),
        }
    }

    /// A receive with this stamp leaves its group: where its application is the current one, its count falls by one.
    /// Then not all of its members that were sent have left before.
    pub fn count_down(&mut self, stamp: Stamp) -> Counted
        requires group { stamp.group.0 < length self.old }
        requires member { has_current (group_at self.old stamp.group.0) stamp.app ≡ true → (group_at self.old stamp.group.0).left < (group_at self.old stamp.group.0).members }
        ensures answer { (s : List EgroupStep) → Stands self.old s → result ≡ counted s stamp }
        ensures stands { (s : List EgroupStep) → Stands self.old s → Stands self.new (Left stamp ∷ s) }
        ensures same_shape { length self.new ≡ length self.old }
    {
        if self.is_current(stamp) {
            self.lower(stamp.group)
        } else {
            Counted::Stale
        }
    }

    /// Gives up the group's current application, whose notes come back. Refused where the group is idle.
    pub fn abort(&mut self, group: EventGroupId) -> Result<Notes, Fault>
        requires { group.0 < length self.old }
        ensures answer { (s : List EgroupStep) → Stands self.old s → MatchResult result (λ notes. (notes ≡ applied_notes s group.0) × (abort_refusal s group ≡ None)) (λ f. abort_refusal s group ≡ Some f) }
        ensures stands { (s : List EgroupStep) → Stands self.old s → MatchResult result (λ _. Stands self.new (Aborted group.0 ∷ s)) (λ _. Stands self.new s) }
        ensures same_shape { length self.new ≡ length self.old }
    {
        match self.give_up(group) {
            None => Err(Fault::GroupIdle(group)),
            Some(notes) => Ok(notes),
        }
    }

    fn begin(&mut self, group: EventGroupId, total: u32, notes: Notes) -> u32
        requires group { group.0 < length self.old }
        requires few { (group_at self.old group.0).applications < 4294967295 }
        ensures value { self.new ≡ changed_at (begun total notes) self.old group.0 }
        ensures number { result ≡ (group_at self.old group.0).applications + 1 }
    {
        let slot = &mut self.groups[usize::from(group.0)];
        slot.begin(total, notes);
        slot.applications
    }

    fn join(&mut self, group: EventGroupId) -> Stamp
        requires group { group.0 < length self.old }
        requires room { (group_at self.old group.0).members < (group_at self.old group.0).total }
        ensures value { self.new ≡ changed_at joined self.old group.0 }
        ensures stamp { result ≡ record { group = group; app = (group_at self.old group.0).applications } }
    {
        let slot = &mut self.groups[usize::from(group.0)];
        slot.join();
        Stamp {
            group,
            app: slot.applications,
        }
    }

    fn increase(&mut self, group: EventGroupId, n: u32)
        requires group { group.0 < length self.old }
        requires fits { (group_at self.old group.0).total + n ≤ 4294967295 }
        ensures { self.new ≡ changed_at (increased n) self.old group.0 }
    {
        self.groups[usize::from(group.0)].increase(n);
    }

    fn lower(&mut self, group: EventGroupId) -> Counted
        requires group { group.0 < length self.old }
        requires member { (group_at self.old group.0).left < (group_at self.old group.0).members }
        ensures value { self.new ≡ changed_at lowered self.old group.0 }
        ensures answer { result ≡ lowered_to (group_at self.old group.0) }
    {
        self.groups[usize::from(group.0)].lower()
    }

    fn give_up(&mut self, group: EventGroupId) -> Option<Notes>
        requires { group.0 < length self.old }
        ensures value { self.new ≡ changed_at given_up self.old group.0 }
        ensures notes { result ≡ (group_at self.old group.0).notes }
    {
        self.groups[usize::from(group.0)].give_up()
    }
}
