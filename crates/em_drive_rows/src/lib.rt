//! Runs of whole scripts with a thread for each core.
#![tactic(auto)]

mod meeting;
#[cfg(test)]
mod tests;

pub use meeting::Meeting;
