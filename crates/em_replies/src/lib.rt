//! Replies in a small form, and a place of each core in which they are seen whole.
#![tactic(auto)]

pub mod brief;
pub mod replies;

pub use brief::{BriefAnswer, BriefReceive, BriefReply};
pub use replies::Replies;
