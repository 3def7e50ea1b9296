//! A ticket lock: seats take turns at one value, whose list of items only grows, and each seat knows a beginning of it.
#![tactic(auto)]

mod gates;
mod steps;
#[cfg(test)]
mod tests;
mod turn;
mod view;

pub use turn::{Turn, TurnSeat};
pub use view::{Listed, View};
