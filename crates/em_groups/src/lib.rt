//! Queue groups: which cores each one has, and the changes of that. Groups of cores and their change while the machine
//! runs are after the Event Machine API; the mask in force during a change is this project's own.
#![tactic(auto)]

pub mod groups;

pub use groups::Groups;
