//! Scripts read and written: each form once, and texts that are refused.
#![tactic(auto)]

#[cfg(test)]
mod tests;
