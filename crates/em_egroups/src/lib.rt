//! Event groups: applications, the members that are sent, and the count that is left. A group that notifies once its count
//! is used up is after the Event Machine API, as are increments and aborts; the limit of members is this project's own.
#![tactic(auto)]

pub mod egroups;
pub mod group;

pub use egroups::EventGroups;
pub use group::Counted;
