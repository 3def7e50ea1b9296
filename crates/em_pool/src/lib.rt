//! The events of a run: their handles, who holds them, and where each one is.
#![tactic(auto)]

mod bits;
mod holders;
mod indices;
mod older;
pub mod place;
pub mod pools;
mod shapes;
pub mod slot;
#[cfg(test)]
mod tests;

pub use place::{Place, Spend, Spent};
pub use pools::Pools;
pub use slot::Slot;
