//! Traces written and read: each kind of entry once, and texts that are refused.
#![tactic(auto)]

#[cfg(test)]
mod tests;
